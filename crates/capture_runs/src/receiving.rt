//! `receive` over the devices of this machine.
ghost use Rattle.std.specs.Prelude.{◌≡◌, ◌⊎◌, ◌∷◌, [], ⊤, IfErr, IsErr, IsFalse, IsSome};
ghost use Rattle.std.specs.Prelude.{IsTrue, MatchOption, MatchResult, None, OnErr, OnOk, length};
ghost use Rattle.std.specs.Prelude.{sum_by};
ghost use Rattle.std.specs.List.{zip};
ghost use Rattle.std.specs.Option.{option_copied};
ghost use Rattle.capture_engines.specs.Counted.{CountsReceived};
ghost use Rattle.capture_engines.specs.Received.{IsReceivingRefusal};
ghost use Rattle.capture_engines.specs.Rescued.{Rescues};
ghost use Rattle.capture_engines.specs.Taking.{ReceivesFiles};
ghost use Rattle.capture_runs.specs.Opened.{AreUnread, said_text};
ghost use Rattle.capture_runs.specs.Refused.{IsReceiveStartRefusal};
ghost use Rattle.capture_runs.specs.Replayed.{ReplayedRead, replayed_ended, replayed_failures};
ghost use Rattle.capture_runs.specs.Replayed.{replayed_gave};
ghost use Rattle.capture_runs.specs.Window.{IsFoundWindow, window_text};
ghost use Rattle.command_end.specs.Untouched.{AreUntouched};
ghost use Rattle.devices.specs.Passed.{HasNoPart, IsInPlace, IsUnplaced, LeavesNoPart};
ghost use Rattle.devices.specs.Passed.{file_took, output_failures, output_took, sink_failures};
ghost use Rattle.devices.specs.Passed.{sink_took, writing_failures};
ghost use Rattle.recording_engines.specs.Ways.{AreWaysBy};
ghost use Rattle.run_outcome.specs.Fault.{Accounts, Blames, IfRefused, counts};
ghost use Rattle.run_outcome.specs.Refusing.{OfRefusal};
ghost use Rattle.run_outcome.specs.declared.fault.Fault.{Fault as Cause};
ghost use Rattle.run_outcome.specs.declared.fault.Fault.TheVariants.{Refused};

use crate::opening::{Asked, Files, is_asked, text_of};
use crate::room::room_of;
use crate::window::window_of;
use capture_engines::{Reception, Wanted, receive_files};
use command_end::{Command, Devices, Hints, Ran};
use command_line::ReceiveWords;
use devices::{FileOutput, FileSink, Meter, OutputSink, Rest, Stream};
use recording_engines::FlowWords;
use run_outcome::Fault;

/// Takes the datagrams of captures and recordings into one receiver.
#[derive(Drop)]
pub struct ReceiveCommand<'a> {
    rt: &'a HostRuntime,
    pub asked: Asked<'a>,
    /// Whether the words are refused, the receiver's file can't be written, or the SDP not be read.
    pub opened: Result<(), Fault>,
    pub files: Files<'a>,
    pub state: FileOutput<'a>,
    /// Whether that is one of the files that are read.
    pub is_input: bool,
    pub output: OutputSink<Stream>,
    /// Whether what came before a file's fault is saved.
    pub is_sound: bool,
    /// What the receiver was given, once it is written.
    pub reception: Option<Reception>,
    pub wants_memory: bool,
}

impl<'a> ReceiveCommand<'a> {
    /// The command of these words, of which nothing is done yet but that the SDP is read. A meter
    /// is told how much is read.
    pub fn new(rt: &'a HostRuntime, words: &'a ReceiveWords<'a>, meter: &Meter) -> Self
        ensures { ⟦<ReceiveCommand<'a> as Command>⟧.is_new result }
    {
        let asked = asked(words);
        let mut files = Files::new(rt, meter);
        let mut state = FileOutput::new(rt, words.state, Rest::Goes);
        let is_input = is_asked(rt, asked, state.identity());
        let opened = files.open(rt, asked, &mut state, is_input);
        ReceiveCommand {
            rt,
            asked,
            opened,
            files,
            state,
            is_input,
            output: OutputSink::beside(rt, words.state).metered(meter),
            is_sound: words.is_sound,
            reception: None,
            wants_memory: false,
        }
    }
}

impl ReceiveCommand<'_> {
    /// What tells more of a fault.
    fn hints(&self) -> Hints {
        let sound = match &self.reception {
            Some(_) if self.state.writing().has_failed => None,
            Some(_) => Some("what came before that is saved"),
            // (a fault that comes where the first timestamps are looked for refuses both)
            None if self.is_sound || self.opened.is_err() => None,
            None => Some("--sound saves what came before that"),
        };
        Hints {
            takes_recordings: true,
            has_format: false,
            sound,
            room: if self.wants_memory {
                room_of(
                    self.rt,
                    window_of(&self.files.found, self.asked.wanted.window),
                    self.asked.recordings,
                    self.files.said(),
                )
            } else {
                None
            },
        }
    }
}

fn take(
    rt: &HostRuntime,
    wanted: Wanted<'_>,
    is_sound: bool,
    files: &mut Files<'_>,
    state: &mut FileSink<'_>,
    output: &mut OutputSink<Stream>,
    reception: &mut Option<Reception>,
) -> Result<(), Fault>
    requires { reception.old ≡ None }
    ensures taken { OnOk result (ReceivesFiles (window_text files.old.found wanted.entry.window.now)
        wanted.entry.ssrc.now (said_text files.old.said) files.old.ways.items ReplayedRead
        (zip files.old.recordings.items files.new.recordings.items) wanted.entry.tells_refusals
        (output_took output.old) (output_took output.new)
        (sink_took state.old) (sink_took state.new)) }
    ensures counted { OnOk result (MatchOption reception.new ⊥
        (CountsReceived (window_text files.old.found wanted.entry.window.now)
        wanted.entry.ssrc.now (said_text files.old.said) files.old.ways.items ReplayedRead
        (zip files.old.recordings.items files.new.recordings.items))) }
    // Where what came before a fault was saved: a fault that speaks of the devices as they are.
    ensures left { OnErr result (MatchOption reception.new ⊤ (λ r. IsTrue is_sound
        × ((f : Cause) × Blames (counts (sum_by replayed_failures files.old.recordings.items)
        (sum_by replayed_failures files.new.recordings.items)
        ∷ counts (sink_failures state.old) (sink_failures state.new)
        ∷ counts (output_failures output.old) (output_failures output.new) ∷ []) f
        × Rescues (window_text files.old.found wanted.entry.window.now)
        wanted.entry.ssrc.now (said_text files.old.said) files.old.ways.items replayed_gave
        replayed_ended f (zip files.old.recordings.items files.new.recordings.items)
        wanted.entry.tells_refusals (output_took output.old) (output_took output.new)
        (sink_took state.old) (sink_took state.new) r))) }
    ensures refusal { IfErr result (λ f. OfRefusal f
        (IsReceivingRefusal (window_text files.old.found wanted.entry.window.now)
        wanted.entry.ssrc.now (said_text files.old.said) files.old.ways.items ReplayedRead
        (zip files.old.recordings.items files.new.recordings.items))) }
    // Refused, it prints and writes nothing, but what came before a fault, where that is saved.
    ensures kept { IfErr result (λ f. IfRefused f (IsFalse is_sound → state.new ≡ state.old)) }
    ensures quiet { IfErr result (λ f. IfRefused f (IsFalse is_sound
        → output.new ≡ output.old)) }
    // So memory is wanted.
    ensures memory { IfErr result (λ f. f ≡ Fault.Memory → IsFalse is_sound
        → (state.new ≡ state.old) × (output.new ≡ output.old)) }
    ensures owed { Accounts result
        (counts (sum_by replayed_failures files.old.recordings.items)
        (sum_by replayed_failures files.new.recordings.items)
        ∷ counts (sink_failures state.old) (sink_failures state.new)
        ∷ counts (output_failures output.old) (output_failures output.new) ∷ []) }
{
    let wanted = Wanted {
        window: window_of(&files.found, wanted.window),
        ..wanted
    };
    receive_files(
        rt.alloc(),
        wanted,
        is_sound,
        text_of(&files.said),
        files.recordings.as_mut_slice(),
        files.ways.as_slice(),
        files.seen.as_mut_slice(),
        state,
        output,
        reception,
    )
}

fn is_memory(outcome: Result<(), Fault>) -> bool {
    match outcome {
        Err(Fault::Memory) => true,
        _ => false,
    }
}

fn asked<'a>(words: &'a ReceiveWords<'a>) -> Asked<'a> {
    Asked {
        wanted: Wanted {
            window: words.window.as_bytes(),
            ssrc: words.ssrc.as_bytes(),
            tells_refusals: words.refusals,
        },
        flows: FlowWords {
            a: octets(words.a),
            b: octets(words.b),
        },
        sdp: words.sdp,
        recordings: words.recordings.as_slice(),
    }
}

/// The octets of a word, where there is one.
pub fn octets(text: Option<&str>) -> Option<&[u8]> {
    match text {
        Some(text) => Some(text.as_bytes()),
        None => None,
    }
}

impl<'a> Command for ReceiveCommand<'a> {
    // (the SDP was read, which the flows of recordings wait for)
    ghost is_new = { λ c. AreUnread c.files × (c.reception ≡ None)
        × (file_took c.state ≡ []) × IsUnplaced c.state × LeavesNoPart c.state
        × (output_took c.output ≡ []) × OnOk c.opened (IsFalse c.is_input)
        × OnOk c.opened (IsFoundWindow c.asked.wanted.window.now c.asked.wanted.ssrc.now
        (said_text c.files.said) c.files.ways.items c.files.found)
        × OnOk c.opened (AreWaysBy (option_copied c.asked.flows.a)
        (option_copied c.asked.flows.b) (said_text c.files.said)
        (length c.asked.recordings.now) c.files.ways.items)
        × IfErr c.opened (λ f. OfRefusal f (IsReceiveStartRefusal c.asked.wanted.window.now
        c.asked.wanted.ssrc.now c.is_input (option_copied c.asked.flows.a)
        (option_copied c.asked.flows.b) c.files)) };

    // What is written is the file of a receiver of the window and the source that are asked for,
    // and of what the SDP text says, which holds the Frames of all datagrams of the captures and
    // recordings that were read, of these by their flows; what is printed counts those, and so does
    // what is kept. The window is that of the words, or, where they ask for the first timestamps,
    // of these, and the flows are those of the words or the SDP, as `is_new` says.
    ghost does = { λ old new. ReceivesFiles
        (window_text old.files.found old.asked.wanted.window.now)
        old.asked.wanted.ssrc.now (said_text old.files.said) old.files.ways.items ReplayedRead
        (zip old.files.recordings.items new.files.recordings.items)
        old.asked.wanted.tells_refusals (output_took old.output) (output_took new.output)
        (file_took old.state) (file_took new.state)
        × MatchOption new.reception ⊥ (CountsReceived
        (window_text old.files.found old.asked.wanted.window.now) old.asked.wanted.ssrc.now
        (said_text old.files.said) old.files.ways.items ReplayedRead
        (zip old.files.recordings.items new.files.recordings.items)) };

    // The refusal before datagrams were taken, where there is one; else one of the words or of what
    // was read. Then nothing is printed or written, but what came before a fault, where that is
    // saved.
    ghost is_refused = { λ old new r. MatchResult old.opened (λ _.
        IsReceivingRefusal (window_text old.files.found old.asked.wanted.window.now)
        old.asked.wanted.ssrc.now (said_text old.files.said) old.files.ways.items ReplayedRead
        (zip old.files.recordings.items new.files.recordings.items) r) (λ f. f ≡ Refused r)
        × (IsFalse old.is_sound → AreUntouched old.state new.state old.output new.output) };

    // Before anything is printed or written, but what came before a fault, where that is saved.
    ghost wants = { λ old new. IsFalse old.is_sound
        → AreUntouched old.state new.state old.output new.output };

    ghost is_placed = { λ c. IsInPlace c.state × IsFalse c.is_input };

    ghost is_unplaced = { λ c. (IsUnplaced c.state
        ⊎ (IsTrue c.is_sound × IsSome c.reception × IsInPlace c.state)) × HasNoPart c.state };

    // Where what came before a fault was saved, that is what was read up to it: a fault that speaks
    // of the devices as they are.
    ghost leaves = { λ old new. MatchOption new.reception ⊤ (λ r. IsTrue old.is_sound
        × ((f : Cause) × Blames (counts (sum_by replayed_failures old.files.recordings.items)
        (sum_by replayed_failures new.files.recordings.items)
        ∷ counts (writing_failures old.state) (writing_failures new.state)
        ∷ counts (output_failures old.output) (output_failures new.output) ∷ []) f
        × Rescues (window_text old.files.found old.asked.wanted.window.now)
        old.asked.wanted.ssrc.now (said_text old.files.said) old.files.ways.items replayed_gave
        replayed_ended f (zip old.files.recordings.items new.files.recordings.items)
        old.asked.wanted.tells_refusals (output_took old.output) (output_took new.output)
        (file_took old.state) (file_took new.state) r)) };

    // (where it could not begin, it came to what stopped it)
    ghost owes = { λ old new outcome. (IsErr old.opened × (outcome ≡ old.opened))
        ⊎ Accounts outcome
        (counts (sum_by replayed_failures old.files.recordings.items)
        (sum_by replayed_failures new.files.recordings.items)
        ∷ counts (writing_failures old.state) (writing_failures new.state)
        ∷ counts (output_failures old.output) (output_failures new.output) ∷ []) };

    fn run(&mut self) -> Ran {
        let outcome = match self.opened {
            Ok(()) => take(
                self.rt,
                self.asked.wanted,
                self.is_sound,
                &mut self.files,
                &mut self.state.sink,
                &mut self.output,
                &mut self.reception,
            ),
            Err(fault) => Err(fault),
        };
        self.output.clear();
        let is_saved = self.reception.is_some();
        self.wants_memory = is_memory(outcome);
        Ran {
            outcome,
            is_whole: self.state.settle(is_saved),
        }
    }

    fn devices(&self) -> Devices<'_> {
        Devices {
            sdp: self.files.sdp_reading(),
            read: self.files.last_read(),
            written: Some(self.state.writing()),
            output: self.output.writing(),
            kept: None,
            hints: self.hints(),
        }
    }
}
