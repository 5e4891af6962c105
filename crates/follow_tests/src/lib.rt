//! What no text of the program shows of `follow`: failing devices and refused growths. Tests, with
//! values that are worked out by hand.
#![tactic(auto)]

#[cfg(test)]
mod checks;
#[cfg(test)]
mod devices;
#[cfg(test)]
mod growths;
#[cfg(test)]
mod running;
#[cfg(test)]
mod shown;
#[cfg(test)]
mod streams;
