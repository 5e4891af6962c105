//! Sending a picture.
ghost use Rattle.std.specs.Prelude.{◌≡◌, ◌≤◌, ◌+◌, ◌%◌, ◌^◌, length, IfErr, IfOk, OnOk};
ghost use Rattle.st_format.specs.Device.{CountsFaults};
ghost use Rattle.packet_plan.specs.Sending.{EachHasRoom, PutsPart, PutsPicture};
ghost use Rattle.packet_plan.specs.Sending.{SendsPart, SendsPicture};

use crate::plan::Plan;
use crate::raster::Raster;
use crate::stamp::Stamp;
use st_format::DatagramSink;
use std::alloc::Allocator;
use thiserror::Error;

/// The sink failed: it took the first `sent` datagrams of the picture, and no more.
#[derive(Clone, Copy, Debug, PartialEq, Eq, Error)]
#[error("the sink failed after {sent} datagrams of the picture")]
pub struct SendFault {
    /// How many datagrams the sink took, fewer than the plan has.
    pub sent: u32,
}

impl SendFault {
    ghost use Rattle.packet_plan.specs.Faults.{send_fault_name};

    /// Its bare name, as the texts of the program have it.
    pub fn name(self) -> &'static str
        ensures { result.now ≡ send_fault_name }
    {
        "SendFault"
    }
}

/// Sends a picture by a plan, and answers the number of the packet that comes next: `stamp.first`
/// and the number of packets, modulo 2^32.
///
/// Each datagram is written over the first octets of `buf`, as [`Plan::datagram`] does, and put
/// into the sink. The picture, of samples that are numbers or packed, has the plan's format, the
/// payload type is at most 127, and `buf` has room for each datagram, for which
/// [`Plan::max_octets`] octets are enough; what it holds may be anything.
///
/// # Errors
///
/// `SendFault` where the sink failed, which was its one failure in this call.
pub fn send_frame<A: Allocator, R: Raster, S: DatagramSink>(
    plan: &Plan<A>,
    picture: &R,
    stamp: Stamp,
    buf: &mut [u8],
    sink: &mut S,
) -> Result<u32, SendFault>
    requires format { (R.values picture.now).format ≡ plan.now.format }
    requires room { EachHasRoom plan.now (length buf.old) }
    requires payload_type { stamp.payload_type ≤ 127 }
    ensures length { length buf.new ≡ length buf.old }
    ensures sent { OnOk result (SendsPicture (R.values picture.now) stamp plan.now
        (S.taken sink.old) (S.taken sink.new)) }
    ensures next { IfOk result (λ next. next ≡ (stamp.first + length plan.now.packets) % 2 ^ 32) }
    ensures fault { IfErr result (λ e. SendsPart (R.values picture.now) stamp plan.now e.sent
        (S.taken sink.old) (S.taken sink.new)) }
    // The same of any sink, by what its calls do to it.
    ensures puts { OnOk result (PutsPicture S.takes (R.values picture.now) stamp plan.now
        sink.old sink.new) }
    ensures puts_part { IfErr result (λ e. PutsPart S.takes S.fails (R.values picture.now) stamp
        plan.now e.sent sink.old sink.new) }
    // The sink fails once where there is a fault, and not at all where there is none.
    ensures counted { CountsFaults (S.failures sink.old) (S.failures sink.new) result }
{
    let count = plan.len();
    for index in 0..count {
        let length = plan.write_packet(index, picture, stamp, buf);
        let Ok(()) = sink.put(&buf[..length]) else {
            return Err(SendFault { sent: index });
        };
    }
    Ok(stamp.first.wrapping_add(count))
}
