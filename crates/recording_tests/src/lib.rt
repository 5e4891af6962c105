//! What no text of the program shows of recordings, of the flows in them and of their engines: the
//! words of faults, and runs in which a device fails or memory is wanted. Tests, with values that
//! are worked out by hand.
#![tactic(auto)]

#[cfg(test)]
mod addresses;
#[cfg(test)]
mod checks;
#[cfg(test)]
mod engines;
#[cfg(test)]
mod export;
#[cfg(test)]
mod faults;
#[cfg(test)]
mod growths;
#[cfg(test)]
mod import;
#[cfg(test)]
mod inspect;
#[cfg(test)]
mod numbers;
#[cfg(test)]
mod paced;
#[cfg(test)]
mod reading;
#[cfg(test)]
mod recordings;
#[cfg(test)]
mod streams;
