//! The engine of `loop`.
ghost use Rattle.std.specs.Prelude.{◌≡◌, ◌≤◌, ◌<◌, ◌+◌, ◌==◌, ◌∷◌, ◌++◌, ℕ, List, [], min};
ghost use Rattle.std.specs.Prelude.{IfErr, IfOk, OnErr, OnOk, Some, length, take};
ghost use Rattle.st_format.specs.History.{IsRead};
ghost use Rattle.st_format.specs.declared.path.Path.{Path as By};
ghost use Rattle.run_outcome.specs.AtFault.{PrintedAtFault};
ghost use Rattle.run_outcome.specs.Fault.{Accounts, IfRefused, counts};
ghost use Rattle.run_outcome.specs.Refusing.{OfRefusal};
ghost use Rattle.run_outcome.specs.declared.fault.Fault.TheVariants.{Device};
ghost use Rattle.packet_plan.specs.Plan.{IsFullPlan, packet_at};
ghost use Rattle.packet_plan.specs.Text.{datagram_text, datagram_texts};
ghost use Rattle.path_receiver.specs.Frames.{Holds};
ghost use Rattle.path_receiver.specs.Took.{CountsAll};
ghost use Rattle.capture_engines.specs.Looped.{IsLoopRefusal};
ghost use Rattle.capture_engines.specs.Looping.{Came, Loops, Prints, loop_opening};

use packet_plan::{Plan, Stamp};
use path_receiver::Receiver;
use run_outcome::{Fault, Line, print, read_unpacked, room};
use st_format::{ByteSink, ByteSource, DatagramLink, Picture, Turn};
use std::alloc::Allocator;

/// What the datagrams of the picture have in common (own).
const STAMP: Stamp = Stamp {
    payload_type: 96,
    first: 0,
    timestamp: 0,
    ssrc: 1,
};

/// What `loop` is asked for, beside its picture.
#[derive(Clone, Copy, Debug, PartialEq, Eq)]
pub struct Looping {
    /// The most octets of a packet, its RTP header among them: up to 9000.
    pub max_octets: u32,
    /// The most turns that are taken from the link.
    pub limit: u64,
}

/// How many datagrams were put into a link, and how many came out of it.
#[derive(Drop)]
struct Passed {
    sent: u32,
    delivered: u64,
}

/// Sends a picture over a link, and takes what comes out of it into a receiver.
///
/// The picture's datagrams are put into the link, one after the other, with payload type 96, number
/// 0, timestamp 0 and source 1. After each of them one turn of the link is taken; a quiet one
/// changes nothing. The run ends once all are sent and looked for, or at the limit of turns.
/// `sent N` and `delivered N` are printed to `output`, and then a line for the frame.
///
/// # Errors
///
/// A refusal where the picture is refused or there is no such plan; and else that a device failed
/// or memory was wanted. Nothing was printed to `output` then, but where `output` failed; and where
/// it is refused nothing was put into the link.
pub fn loop_back<A, S, L, O>(
    alloc: A,
    wanted: Looping,
    source: &mut S,
    link: &mut L,
    output: &mut O,
) -> Result<(), Fault>
where
    A: Allocator + Copy,
    S: ByteSource,
    L: DatagramLink,
    O: ByteSink,
    ensures turns { L.DatagramSource.delivered link.new
        ≤ L.DatagramSource.delivered link.old + wanted.limit }
    // Of what was read, what was put into the link and came of it, and what was printed.
    ensures looped { OnOk result (Loops wanted.max_octets wanted.limit
        (IsRead (S.gave source.old) (S.gave source.new) (S.ended source.new))
        (record {
          took = L.DatagramSink.took link.old;
          came = L.DatagramSource.came link.old;
          delivered = L.DatagramSource.delivered link.old;
        })
        (record {
          took = L.DatagramSink.took link.new;
          came = L.DatagramSource.came link.new;
          delivered = L.DatagramSource.delivered link.new;
        })
        (O.took output.old) (O.took output.new)) }
    ensures refusal { IfErr result (λ f. OfRefusal f (IsLoopRefusal wanted.max_octets
        (IsRead (S.gave source.old) (S.gave source.new) (S.ended source.new)))) }
    // Where it fails nothing was printed; or a first part of the lines, since the output failed.
    ensures printed { OnErr result (PrintedAtFault O.took O.failures
        (Loops wanted.max_octets wanted.limit
        (IsRead (S.gave source.old) (S.gave source.new) (S.ended source.new))
        (record {
          took = L.DatagramSink.took link.old;
          came = L.DatagramSource.came link.old;
          delivered = L.DatagramSource.delivered link.old;
        })
        (record {
          took = L.DatagramSink.took link.new;
          came = L.DatagramSource.came link.new;
          delivered = L.DatagramSource.delivered link.new;
        }) []) output.old output.new) }
    // A refusal comes before anything is put into the link or printed.
    ensures apart { IfErr result (λ f. IfRefused f (link.new ≡ link.old)) }
    ensures quiet { IfErr result (λ f. IfRefused f (output.new ≡ output.old)) }
    // So memory is wanted.
    ensures memory { IfErr result (λ f. f ≡ Fault.Memory → output.new ≡ output.old) }
    ensures failures { Accounts result (counts (S.failures source.old) (S.failures source.new)
        ∷ counts (L.DatagramSink.failures link.old) (L.DatagramSink.failures link.new)
        ∷ counts (O.failures output.old) (O.failures output.new) ∷ []) }
{
    let picture = read_unpacked(alloc, source)?;
    let plan = Plan::new(alloc, picture.format(), wanted.max_octets)?;
    let mut receiver = open(alloc, &picture)?;
    let mut buf = room(alloc)?;
    let passed = pass(&plan, &picture, &mut receiver, link, &mut buf, wanted.limit)?;
    print_passed(passed, &receiver, output)
}

/// A receiver of the one timestamp of `STAMP`, pinned to its source.
fn open<A: Allocator + Copy>(alloc: A, picture: &Picture<A>) -> Result<Receiver<A>, Fault>
    ensures opening { IfOk result (λ r. r.opening ≡ loop_opening picture.now.format) }
    ensures holds { IfOk result (λ r. Holds r []) }
    ensures unrefused { IfErr result (λ f. IfRefused f ⊥) }
    ensures failures { Accounts result [] }
{
    let format = picture.format();
    let window = [STAMP.timestamp];
    let receiver = Receiver::open(alloc, format, STAMP.payload_type, Some(STAMP.ssrc), &window)?;
    Ok(receiver)
}

/// Puts the datagrams of a picture into a link, up to a limit, and takes a turn after each.
fn pass<A: Allocator, L: DatagramLink>(
    plan: &Plan<A>,
    picture: &Picture<A>,
    receiver: &mut Receiver<A>,
    link: &mut L,
    buf: &mut [u8],
    limit: u64,
) -> Result<Passed, Fault>
    requires format { picture.now.format ≡ plan.now.format }
    requires room { length buf.old ≡ 65535 }
    requires holds { Holds receiver.old [] }
    ensures sent { IfOk result (λ p. p.sent ≡ min limit (length plan.now.packets)) }
    ensures put { IfOk result (λ p. L.DatagramSink.took link.new ≡ L.DatagramSink.took link.old
        ++ take p.sent (datagram_texts picture.now STAMP 0 plan.now.packets)) }
    ensures came { IfOk result (λ p. Came p.sent p.delivered
        (L.DatagramSource.came link.old) (L.DatagramSource.came link.new) receiver.new) }
    ensures counted { IfOk result (λ p. CountsAll p.delivered
        (L.DatagramSource.delivered link.old) (L.DatagramSource.delivered link.new)) }
    ensures plan { IsFullPlan plan.now.packets plan.now.format plan.now.max_octets }
    ensures turns { L.DatagramSource.delivered link.new
        ≤ L.DatagramSource.delivered link.old + limit }
    ensures opening { receiver.new.opening ≡ receiver.old.opening }
    ensures unrefused { IfErr result (λ f. IfRefused f ⊥) }
    // No memory is asked for.
    ensures device { IfErr result (λ f. f ≡ Device) }
    ensures failures { Accounts result
        (counts (L.DatagramSink.failures link.old) (L.DatagramSink.failures link.new) ∷ []) }
{
    let sent = turns_of(plan.len(), limit);
    let mut delivered = 0;
    for index in 0..sent {
        delivered += pass_one(plan, picture, receiver, link, buf, index)?;
    }
    Ok(Passed { sent, delivered })
}

/// How many turns are taken: one for each packet, but at most the limit.
fn turns_of(packets: u32, limit: u64) -> u32
    ensures { result ≡ min limit packets }
{
    u64::from(packets).min(limit) as u32
}

/// Puts one datagram into a link and takes a turn, and answers how many datagrams came.
fn pass_one<A: Allocator, L: DatagramLink>(
    plan: &Plan<A>,
    picture: &Picture<A>,
    receiver: &mut Receiver<A>,
    link: &mut L,
    buf: &mut [u8],
    index: u32,
) -> Result<u64, Fault>
    requires plan { IsFullPlan plan.now.packets plan.now.format plan.now.max_octets }
    requires index { index < length plan.now.packets }
    requires format { picture.now.format ≡ plan.now.format }
    requires room { length buf.old ≡ 65535 }
    ensures room { length buf.new ≡ 65535 }
    ensures few { IfOk result (λ n. n ≤ 1) }
    ensures put { IfOk result (λ _. L.DatagramSink.took link.new ≡ L.DatagramSink.took link.old
        ++ datagram_text picture.now STAMP index (index + 1 == length plan.now.packets)
        (packet_at plan.now index) ∷ []) }
    ensures came { IfOk result (λ n. (turns before : ℕ) (first : List (By × List ℕ))
        → Came turns before first (L.DatagramSource.came link.old) receiver.old
        → Came (turns + 1) (before + n) first (L.DatagramSource.came link.new) receiver.new) }
    ensures counted { IfOk result (λ n. CountsAll n
        (L.DatagramSource.delivered link.old) (L.DatagramSource.delivered link.new)) }
    ensures turns { L.DatagramSource.delivered link.new
        ≤ L.DatagramSource.delivered link.old + 1 }
    ensures opening { receiver.new.opening ≡ receiver.old.opening }
    ensures unrefused { IfErr result (λ f. IfRefused f ⊥) }
    // No memory is asked for.
    ensures device { IfErr result (λ f. f ≡ Device) }
    ensures failures { Accounts result
        (counts (L.DatagramSink.failures link.old) (L.DatagramSink.failures link.new) ∷ []) }
{
    let count = plan.datagram(index, picture, STAMP, buf);
    let Ok(()) = link.send(&buf[..count]) else {
        return Err(Fault::Device);
    };
    match link.turn(buf) {
        Ok(Turn::Datagram(path, length)) => {
            // (one that is refused came too)
            let _ = receiver.take(path, &buf[..length]);
            Ok(1)
        }
        Ok(Turn::Quiet) => Ok(0),
        Ok(Turn::End) => Ok(0),
        Err(_) => Err(Fault::Device),
    }
}

/// Prints how many datagrams were sent and delivered, and what is then known of the frame.
fn print_passed<A: Allocator, O: ByteSink>(
    passed: Passed,
    receiver: &Receiver<A>,
    output: &mut O,
) -> Result<(), Fault>
    requires { receiver.now.opening.window ≡ STAMP.timestamp ∷ [] }
    ensures printed { OnOk result (Prints passed.sent passed.delivered receiver.now
        (O.took output.old) (O.took output.new)) }
    ensures part { OnErr result (PrintedAtFault O.took O.failures
        (Prints passed.sent passed.delivered receiver.now []) output.old output.new) }
    ensures unrefused { IfErr result (λ f. IfRefused f ⊥) }
    // No memory is asked for.
    ensures device { IfErr result (λ f. f ≡ Device) }
    ensures failures { Accounts result (counts (O.failures output.old) (O.failures output.new)
        ∷ []) }
{
    let Some(frame) = receiver.frame(STAMP.timestamp) else {
        return Ok(());
    };
    let counts = frame.counts();
    print(Line::Sent(u64::from(passed.sent)), output)?;
    print(Line::Delivered(passed.delivered), output)?;
    print(Line::Frame(STAMP.timestamp, counts), output)
}
