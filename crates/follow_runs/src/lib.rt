//! The command that follows a stream, over the devices of this machine.
#![tactic(auto)]

mod followed;
mod outputs;
mod picture_directory;
mod pictured;
mod unplaced;

pub use followed::FollowCommand;
pub use outputs::FollowOutputs;
pub use picture_directory::PictureDirectory;
pub use unplaced::UnplacedOutput;
