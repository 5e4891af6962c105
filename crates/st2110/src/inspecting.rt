//! `inspect`, and what it tells of packets that are no datagram of a flow.
use crate::importing::tell_left_out;
use crate::receiving::tell_flows;
use command_end::run_command;
use command_line::{BadValue, FormatWords, InspectWords};
use devices::Meter;
use inspect_runs::InspectCommand;
use program_entry::refuse_value;
use script_runs::read_format_word;
use st_format::FormatFault;
use stream_inspection::Target;

/// Tells which flows recordings have, or what came of a stream, and answers the exit status. Of a
/// stream's recordings the packets that were left out are told by the reason, where that is asked
/// for; and where a flow was asked for of which no datagram came, standard error is told the flows
/// that the recordings have.
pub fn inspect(
    rt: &HostRuntime,
    words: &InspectWords<'_>,
    explains: bool,
    is_verbose: bool,
    meter: &Meter,
) -> u8 {
    let target = match words.format {
        Some(given) => match target_of(given) {
            Ok(target) => Some(target),
            Err(value) => return refuse_value(rt, value),
        },
        None => None,
    };
    let ended = run_command(rt, explains, InspectCommand::new(rt, words, target, meter));
    let seen = ended.command.seen();
    if is_verbose {
        tell_left_out(rt, &seen.left_out);
    }
    if ended.status == 0 && seen.lacks_flow() {
        let names = words.recordings.as_slice();
        tell_flows(rt, names, &ended.command.files.streams, explains);
    }
    ended.status
}

/// The format and the payload type that are given, or why there is no such format. The error is a
/// word that isn't of a format's form.
fn target_of(given: FormatWords<'_>) -> Result<Result<Target, FormatFault>, BadValue<'_>> {
    match read_format_word("--format <S B W H N/D>", given.format)? {
        Ok(format) => Ok(Ok(Target {
            format,
            payload_type: given.payload_type,
        })),
        Err(fault) => Ok(Err(fault)),
    }
}
