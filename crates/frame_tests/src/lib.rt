//! What no text of the program shows of frames, pictures and receivers: the words of faults, a
//! device that fails, and refused growths. Tests, with values that are worked out by hand.
#![tactic(auto)]

#[cfg(test)]
mod checks;
#[cfg(test)]
mod faults;
#[cfg(test)]
mod listed;
#[cfg(test)]
mod pictures;
#[cfg(test)]
mod texts;
#[cfg(test)]
mod turns;
#[cfg(test)]
mod two_paths;
#[cfg(test)]
mod value_growths;
