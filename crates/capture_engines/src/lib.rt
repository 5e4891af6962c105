//! The engines of the program that read and write captures: pictures into them, out of them a
//! receiver, from an old version to the new one, and over a link instead.
#![tactic(auto)]

mod comings;
mod intake;
mod looping;
mod memory_link;
mod migrating;
mod printing;
mod receiving;
mod reception;
mod rescuing;
mod seen;
mod sender;
mod sending;
mod typed;
mod way;
mod words;

pub use looping::{Looping, loop_back};
pub use memory_link::MemoryLink;
pub use migrating::migrate;
pub use path_receiver::{REFUSAL_COUNT, Tally, refusal_at};
pub use receiving::{Wanted, check_words, receive};
pub use reception::Reception;
pub use rescuing::receive_files;
pub use seen::{Seen, note_seen};
pub use sender::{Sender, Sending};
pub use sending::{check_pictures, send};
pub use typed::{send_typed, typed_by};
pub use way::{Way, unopened};
