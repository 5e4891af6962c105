//! Schedules of receivers: what any list of Sends, Arrives, Slides and Merges does to their frames.
pub mod check;
pub mod event;
mod opening;
pub mod played;
pub mod playing;
mod sending;
mod stage;
mod steps;
mod stop;
