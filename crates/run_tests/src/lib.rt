//! Worked examples of the laws on whole runs: functions that run engines and call the laws, whose
//! own contracts say what the laws give them, and tests of these over devices in memory.
#![tactic(auto)]

#[cfg(test)]
mod checks;
#[cfg(test)]
mod made;
mod merging;
mod receiving;
#[cfg(test)]
mod tests;

pub use merging::merge_and_receive;
pub use receiving::receive_twice;
