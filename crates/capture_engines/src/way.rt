//! How files are taken that begin as recordings of other tools, and what ends the reading of files.
ghost use Rattle.std.specs.Prelude.{◌≡◌, ◌∷◌, [], ℕ, List, true};
ghost use Rattle.capture_engines.specs.Files.{flows_in, way_at};
ghost use Rattle.capture_engines.specs.Received.{IsCaptureFrontRefusal, StopsFile, StopsFront};
ghost use Rattle.recording_reader.specs.Kinds.{is_recording};
ghost use Rattle.recording_reader.specs.Opening.{CountsOpening, HasGivenFour, IsByFlows};
ghost use Rattle.recording_reader.specs.Opening.{StopsOpening};
ghost use Rattle.run_outcome.specs.Fault.{Blames, counts};
ghost use Rattle.run_outcome.specs.Refusing.{OfRefusal};
ghost use Rattle.st_format.specs.History.{IsRead};

use flow::Flows;
use media_file::FileFault;
use recording_reader::FileOpeningFault;
use run_outcome::{Fault, Refusal, of_capture, of_reading};
use st_format::{ByteSource, read_whole};

/// How a file is taken that begins as a recording of another tool.
#[derive(Clone, Copy)]
pub enum Way {
    /// As a recording, by these flows of the paths.
    Flows(Flows),
    /// Not at all: this refusal ends the run.
    Refused(Refusal),
    /// As a capture, which has another name.
    Capture,
}

impl Way {
    /// That of the file of a place: by the flows, or refused, where that is said of it.
    pub fn at(ways: &[Result<Flows, Refusal>], place: usize) -> Way
        ensures { result ≡ way_at ways.now place }
    {
        match ways.get(place) {
            Some(Ok(flows)) => Way::Flows(*flows),
            Some(Err(refusal)) => Way::Refused(*refusal),
            None => Way::Capture,
        }
    }

    /// The flows; none where the file is refused, or taken as a capture.
    pub fn flows(self) -> Option<Flows>
        ensures { result ≡ flows_in self }
    {
        match self {
            Way::Flows(flows) => Some(flows),
            _ => None,
        }
    }
}

/// The fault by which a file was not opened that is taken so. What begins as a recording and is
/// taken as a capture is read on, up to where a capture's name ends.
pub fn unopened<S: ByteSource>(way: Way, fault: FileOpeningFault, source: &mut S) -> Fault
    ensures refusal { (before : List ℕ)
        → StopsOpening (flows_in way) before (S.gave source.old) (S.ended source.old) fault
        → IsByFlows (flows_in way) fault → OfRefusal result
        (StopsFile way (IsRead before (S.gave source.new) (S.ended source.new))) }
    // It stands before all records.
    ensures front { (before : List ℕ)
        → StopsOpening (flows_in way) before (S.gave source.old) (S.ended source.old) fault
        → IsByFlows (flows_in way) fault → OfRefusal result
        (StopsFront way (IsRead before (S.gave source.new) (S.ended source.new))) }
    ensures failures { (failed : ℕ) → CountsOpening fault failed (S.failures source.old)
        → Blames (counts failed (S.failures source.new) ∷ []) result }
{
    match fault {
        FileOpeningFault::NoMemory => Fault::Memory,
        FileOpeningFault::Reading(fault) => of_reading(fault),
        FileOpeningFault::NoFlows => match way {
            Way::Refused(refusal) => Fault::Refused(refusal),
            _ => no_capture(source),
        },
    }
}

/// What is wrong with a capture whose first four octets begin no name.
fn no_capture<S: ByteSource>(source: &mut S) -> Fault
    ensures refusal { (before : List ℕ) → HasGivenFour before (S.gave source.old)
        → ((octets : List ℕ) → IsRead before (S.gave source.old) (S.ended source.old) octets
        → is_recording octets ≡ true) → OfRefusal result
        (IsCaptureFrontRefusal (IsRead before (S.gave source.new) (S.ended source.new))) }
    ensures failures { Blames (counts (S.failures source.old) (S.failures source.new) ∷ [])
        result }
{
    let mut four = [0u8; 4];
    match read_whole(source, &mut four) {
        Ok(count) if count < 4 => of_capture(FileFault::Truncated),
        Ok(_) => of_capture(FileFault::BadName),
        Err(_) => Fault::Device,
    }
}
