//! Laws over the definitions alone: those of receivers, passed on, and those of schedules. Each is
//! the contract of a function that does nothing.
mod schedules;

pub use path_receiver::laws::{
    any_tree, both_lists, datagram_or_refusal, each_cell, holds_same, offered_by_grammar,
    offered_by_sent, one_reading, pictures_sent, refused_once, same_datagrams, same_frames,
    sender_cells, sender_frame, timestamps_differ, whole_frame,
};
pub use schedules::{every_schedule, first_bad, one_event_more, one_frame, senders_frames};
