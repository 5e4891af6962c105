//! What no text of the program shows of the worked examples of docs/EXAMPLES.md, of SDP texts and
//! flows, what is sent, packet numbers, schedules, and the processor and its jobs. Tests, with
//! values that are worked out by hand.
#![tactic(auto)]

#[cfg(test)]
mod checks;
#[cfg(test)]
mod faults;
#[cfg(test)]
mod flows;
#[cfg(test)]
mod job_sending;
#[cfg(test)]
mod number_map;
#[cfg(test)]
mod processor_growths;
#[cfg(test)]
mod rehearsals;
#[cfg(test)]
mod sdp;
#[cfg(test)]
mod sending;
#[cfg(test)]
mod value_growths;
#[cfg(test)]
mod wanted_texts;
