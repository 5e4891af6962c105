//! What a follower does with streams: answers, frames, failing sinks and refused growths. Tests,
//! with values that are worked out by hand.
#![tactic(auto)]

#[cfg(test)]
mod answers;
#[cfg(test)]
mod checks;
#[cfg(test)]
mod faults;
#[cfg(test)]
mod growths;
#[cfg(test)]
mod sources;
#[cfg(test)]
mod streams;
