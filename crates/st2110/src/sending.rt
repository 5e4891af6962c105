//! `send`, and what its SDP says otherwise.
use crate::alone::run_made;
use capture_runs::{SendCommand, SendStreamCommand, said_otherwise};
use command_end::run_command;
use command_line::{BadValue, SendWords};
use devices::Meter;
use form_files::Form;
use program_entry::refuse_value;

/// Sends pictures into a capture, and answers the exit status. Where the SDP says another format or
/// payload type than is sent, that is told where faults are explained; the capture is as without.
pub fn send(rt: &HostRuntime, words: &SendWords<'_>, explains: bool, meter: &Meter) -> u8 {
    let status = match words.pictures.as_slice() {
        [name] if is_stream(name) => {
            run_command(rt, explains, SendStreamCommand::new(rt, words, name, meter)).status
        }
        names => match names.iter().find(|name| is_stream(name)) {
            Some(name) => return refuse_mixed(rt, name),
            None => run_made(rt, explains, SendCommand::new(rt, words, meter)),
        },
    };
    if explains && status == 0 {
        tell_difference(rt, words);
    }
    status
}

/// Whether a file is a stream of pictures, by its name: standard input is, too.
fn is_stream(name: &str) -> bool {
    name == "-" || Form::of_name(name) == Form::Y4m
}

/// Refuses a stream beside other pictures, and answers the status.
fn refuse_mixed(rt: &HostRuntime, name: &str) -> u8 {
    refuse_value(
        rt,
        BadValue {
            option: "<PICTURE>...",
            value: name,
            wanted: "a stream of pictures is sent alone",
        },
    )
}

/// Tells what the SDP says otherwise. That standard error may fail changes nothing.
fn tell_difference(rt: &HostRuntime, words: &SendWords<'_>) {
    let Some((said, sent)) = said_otherwise(rt, words) else {
        return;
    };
    let _ = eprintln!(rt;
        "  the SDP says {} pt {}, sent was {} pt {}",
        said.format, said.payload_type, sent.format, sent.payload_type
    );
}
