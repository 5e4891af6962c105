//! Pictures in forms of other tools, read and written: the words of faults, failing devices and
//! refused growths. Tests, with texts that are worked out by hand.
#![tactic(auto)]

#[cfg(test)]
mod checks;
#[cfg(test)]
mod faults;
#[cfg(test)]
mod form_calls;
#[cfg(test)]
mod form_engines;
#[cfg(test)]
mod growths;
#[cfg(test)]
mod reports;
#[cfg(test)]
mod sent_streams;
