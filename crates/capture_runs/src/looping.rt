//! `loop` over the devices of this machine.
ghost use Rattle.std.specs.Prelude.{◌≡◌, ◌∷◌, ◌⊎◌, [], Err, IfSome, IsNone, MatchOption};
ghost use Rattle.capture_engines.specs.Looped.{IsLoopRefusal};
ghost use Rattle.capture_engines.specs.Looping.{Loops};
ghost use Rattle.devices.specs.Passed.{FileRead, file_failures, file_gave, link_came};
ghost use Rattle.devices.specs.Passed.{link_delivered, link_failures, link_took};
ghost use Rattle.devices.specs.Passed.{output_failures, output_took};
ghost use Rattle.run_outcome.specs.Fault.{Accounts, counts, failures_in};
ghost use Rattle.run_outcome.specs.Moments.{pair};
ghost use Rattle.run_outcome.specs.declared.fault.Fault.TheVariants.{Device};

use capture_engines::Looping;
use command_end::{Command, Devices, Hints, Ran};
use command_line::LoopWords;
use devices::{FileSource, OutputSink, UdpLink, Writing, unbound};
use run_outcome::Fault;
use std::io::Stdout;

/// Sends a picture from one socket of this machine to another, and takes what comes.
#[derive(Drop)]
pub struct LoopCommand<'a> {
    rt: &'a HostRuntime,
    pub wanted: Looping,
    pub picture: FileSource<'a>,
    /// The sockets, where they could be bound.
    pub link: Option<UdpLink>,
    /// How it went where they could not.
    unbound: Option<Writing<'static>>,
    pub output: OutputSink<Stdout>,
}

impl<'a> LoopCommand<'a> {
    /// The command of these words, of which nothing is done yet but that the sockets are bound.
    pub fn new(rt: &'a HostRuntime, words: &LoopWords<'a>) -> Self
        ensures { ⟦<LoopCommand<'a> as Command>⟧.is_new result }
    {
        let (link, unbound) = match UdpLink::open(rt) {
            Ok(link) => (Some(link), None),
            Err(fault) => (None, Some(unbound(fault))),
        };
        LoopCommand {
            rt,
            wanted: looping(words),
            picture: FileSource::new(rt, words.picture),
            link,
            unbound,
            output: OutputSink::new(rt.stdout()),
        }
    }

    /// How sending and receiving went.
    fn sockets(&self) -> Option<Writing<'static>> {
        match &self.link {
            Some(link) => Some(link.writing()),
            None => self.unbound,
        }
    }
}

/// What `loop` is asked for, beside its picture.
fn looping(words: &LoopWords<'_>) -> Looping {
    Looping {
        max_octets: words.max_octets,
        limit: words.limit,
    }
}

impl<'a> Command for LoopCommand<'a> {
    ghost is_new = { λ c. (file_gave c.picture ≡ [])
        × IfSome c.link (λ l. (link_took l ≡ []) × (link_came l ≡ []))
        × (output_took c.output ≡ []) };

    // The datagrams of the picture that was read were put into the link, and what is printed is of
    // a receiver that holds the Frames of what came of it.
    ghost does = { λ old new. MatchOption (pair old.link new.link) ⊥
        (λ l. Loops old.wanted.max_octets old.wanted.limit (FileRead old.picture new.picture)
        (record { took = link_took l.0; came = link_came l.0; delivered = link_delivered l.0 })
        (record { took = link_took l.1; came = link_came l.1; delivered = link_delivered l.1 })
        (output_took old.output) (output_took new.output)) };

    // Then nothing is printed.
    ghost is_refused = { λ old new r.
        IsLoopRefusal old.wanted.max_octets (FileRead old.picture new.picture) r
        × (output_took new.output ≡ output_took old.output) };

    // Where the sockets could not be bound, that is a device's fault.
    ghost owes = { λ old new outcome. (IsNone old.link × (outcome ≡ Err Device))
        ⊎ Accounts outcome (counts (file_failures old.picture) (file_failures new.picture)
        ∷ counts (failures_in link_failures old.link) (failures_in link_failures new.link)
        ∷ counts (output_failures old.output) (output_failures new.output) ∷ []) };

    fn run(&mut self) -> Ran {
        let outcome = match &mut self.link {
            Some(link) => capture_engines::loop_back(
                self.rt.alloc(),
                self.wanted,
                &mut self.picture,
                link,
                &mut self.output,
            ),
            None => Err(Fault::Device),
        };
        Ran {
            outcome,
            is_whole: true,
        }
    }

    fn devices(&self) -> Devices<'_> {
        Devices {
            sdp: None,
            read: self.picture.begun(),
            written: self.sockets(),
            output: self.output.writing(),
            kept: None,
            hints: Hints::none(),
        }
    }
}
