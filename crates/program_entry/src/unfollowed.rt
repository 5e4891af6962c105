//! Words that aren't followed.
use command_line::{BadValue, WordsFault};
use run_outcome::Status;

/// Prints why the words are not followed, and answers the status.
pub fn refuse(rt: &HostRuntime, fault: &WordsFault) -> u8 {
    let status = match fault {
        WordsFault::NoMemory => Status::Memory,
        WordsFault::NoText
        | WordsFault::NotPlain
        | WordsFault::Misworded(_)
        | WordsFault::Refused(_) => Status::CommandLine,
        WordsFault::Shown(_) => Status::Done,
    };
    match fault.print(rt) {
        Ok(()) => status.number(),
        Err(_) => Status::Device.number(),
    }
}

/// Prints why a value isn't one of its option, and answers the status.
pub fn refuse_value(rt: &HostRuntime, value: BadValue<'_>) -> u8 {
    match value.print(rt) {
        Ok(()) => Status::CommandLine.number(),
        Err(_) => Status::Device.number(),
    }
}
