//! What no text of the program shows of the devices of this machine: files of which one call fails,
//! and how far a reading is. Tests, with values that are worked out by hand.
#![tactic(auto)]

#[cfg(test)]
mod failing;
#[cfg(test)]
mod paces;
