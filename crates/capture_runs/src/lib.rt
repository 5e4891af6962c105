//! The commands that write or read captures, over the devices of this machine.
#![tactic(auto)]

mod differing;
mod looking;
mod looping;
mod migrating;
mod opening;
mod receiving;
mod replayed;
mod replaying;
mod room;
mod sending;
mod sending_stream;
mod window;

pub use differing::{StreamFormat, said_otherwise};
pub use looking::{Looked, files_of, fresh_files, look_at};
pub use looping::LoopCommand;
pub use migrating::MigrateCommand;
pub use opening::{Files, is_read, text_of};
pub use receiving::{ReceiveCommand, octets};
pub use replayed::{Keeping, Replayed};
pub use replaying::last_begun;
pub use sending::SendCommand;
pub use sending_stream::SendStreamCommand;
pub use window::Found;
