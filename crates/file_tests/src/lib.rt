//! What no text of the program shows of the worked examples of docs/EXAMPLES.md, of files, reports
//! and engines: runs in which a device fails, memory is wanted, or a device gives pieces. Tests,
//! with values that are worked out by hand.
#![tactic(auto)]

#[cfg(test)]
mod ample;
#[cfg(test)]
mod checks;
#[cfg(test)]
mod faults;
#[cfg(test)]
mod file_devices;
#[cfg(test)]
mod file_engines;
#[cfg(test)]
mod files;
#[cfg(test)]
mod looping;
#[cfg(test)]
mod receiver_files;
#[cfg(test)]
mod text_engines;
#[cfg(test)]
mod text_runs;
