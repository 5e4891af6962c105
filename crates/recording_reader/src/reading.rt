//! Reading a recording from one record of the flows to the next.
ghost use Rattle.std.specs.Prelude.{◌≡◌, ◌≤◌, ◌-◌, length, IfErr, IfOk, IfSome};
ghost use Rattle.pcap_file.specs.Fields.{CountsDevice};
ghost use Rattle.pcap_file.specs.Runs.{most_packet};
ghost use Rattle.recording_reader.specs.Reading.{FailsNext, ReadsToNext};
ghost use Rattle.st_format.specs.History.{GrewFrom};

use crate::found::{Found, find};
use flow::Flows;
use pcap_file::{Layout, RecordingFault, next_packet};
use recording_counts::LeftOut;
use st_format::ByteSource;

/// Reads on to the next packet that has a record, and finds that in `buf`, or reads on to the end;
/// and counts the packets before it by why they have none.
#[tactic(auto, using(pcap_file::proofs::Growing::grew_on, st_format::proofs::Histories::grew_none))]
pub(crate) fn read_on<S: ByteSource>(
    source: &mut S,
    flows: &Flows,
    layout: &mut Layout,
    buf: &mut [u8],
    left_out: &mut LeftOut,
) -> Result<Option<Found>, RecordingFault>
    requires { most_packet ≡ length buf.old }
    ensures room { length buf.new ≡ length buf.old }
    ensures read { IfOk result (λ r. ReadsToNext flows.now r buf.new
        (S.gave source.old) (S.gave source.new) (S.ended source.new)
        layout.old layout.new left_out.old left_out.new) }
    ensures fault { IfErr result (λ f. FailsNext flows.now (S.gave source.old) (S.gave source.new)
        (S.ended source.new) layout.old f left_out.old left_out.new) }
    ensures grown { GrewFrom (S.gave source.old) (S.gave source.new) }
    ensures counted { CountsDevice (S.failures source.old) (S.failures source.new) result }
    ensures names { S.names source.new ≡ S.names source.old }
    ensures forward { IfOk result (λ r. IfSome r (λ f. f.start ≤ f.end)) }
    ensures inside { IfOk result (λ r. IfSome r (λ f. f.end ≤ length buf.new)) }
    ensures few { IfOk result (λ r. IfSome r (λ f. f.end - f.start ≤ 65535)) }
{
    while let Some(packet) = next_packet(source, layout, buf)? {
        match find(flows, &packet, buf) {
            Ok(found) => return Ok(Some(found)),
            Err(omission) => left_out.note(omission),
        }
    }
    Ok(None)
}
