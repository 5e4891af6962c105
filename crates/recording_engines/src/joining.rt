//! Writing the records of files to a capture, the earliest first.
ghost use Rattle.std.specs.Prelude.{◌≡◌, ◌<◌, ◌≤◌, ◌+◌, ◌⊎◌, ◌∷◌, [], length, map, IfErr, IfOk};
ghost use Rattle.std.specs.Prelude.{OnErr, OnOk, Some};
ghost use Rattle.std.specs.List.{sum_by};
ghost use Rattle.run_outcome.specs.Fault.{Accounts, IfRefused, counts};
ghost use Rattle.run_outcome.specs.Refusing.{OfRefusal};
ghost use Rattle.run_outcome.specs.declared.refusal.Refusal.TheVariants.{ImportRecords};
ghost use Rattle.recording_engines.specs.Files.{AllReady, IsLed, begun_of, failures_by};
ghost use Rattle.recording_engines.specs.Files.{standings};
ghost use Rattle.recording_engines.specs.Progress.{CountsPath, HasWrittenAll, IsDeviceOrFile};
ghost use Rattle.recording_engines.specs.Progress.{StopsBy, StopsEarliest, StopsJoining, StopsUpTo};
ghost use Rattle.recording_engines.specs.Progress.{WritesEarliest, WritesNext};
ghost use Rattle.recording_engines.specs.Files.{next_entry};
ghost use Rattle.media_file.specs.Records.{Entry, records_text};
ghost use Rattle.st_format.specs.Device.{Failed, GrowsPart};
ghost use Rattle.recording_engines.specs.Steps.{AllFresh};

use crate::file::ImportFile;
use crate::files::earliest;
use media_file::{MOST_RECORDS, write_record};
use run_outcome::{Fault, Refusal};
use st_format::{ByteSink, ByteSource, Path};
use std::alloc::Allocator;

/// How many records were written of each path.
#[derive(Clone, Copy)]
pub(crate) struct Written {
    pub a: u64,
    pub b: u64,
}

impl Written {
    fn add(&mut self, path: Path)
        requires { self.old.a + self.old.b < 16777216 }
        ensures { CountsPath path self.old self.new }
    {
        match path {
            Path::A => self.a += 1,
            Path::B => self.b += 1,
        }
    }
}

fn write_next<A: Allocator, S: ByteSource, K: ByteSink>(
    file: &ImportFile<A, S>,
    capture: &mut K,
    written: &mut Written,
) -> Result<(), Fault>
    requires few { written.old.a + written.old.b < 16777216 }
    ensures written { OnOk result (WritesNext file.now (K.took capture.old) (K.took capture.new)
        written.old written.new) }
    ensures part { OnErr result ((e : Entry) → next_entry file.now ≡ Some e
        → GrowsPart (K.took capture.old) (K.took capture.new) (records_text (e ∷ []))) }
    ensures one { OnOk result
        (written.new.a + written.new.b ≤ written.old.a + written.old.b + 1) }
    ensures unrefused { IfErr result (λ f. IfRefused f ⊥) }
    // No memory is asked for.
    ensures device { IfErr result (λ f. f ≡ Fault.Device) }
    ensures failures { Accounts result (counts (K.failures capture.old) (K.failures capture.new)
        ∷ []) }
{
    let Some(record) = file.next() else {
        return Ok(());
    };
    write_record(capture, record.path, record.moment, record.octets)?;
    written.add(record.path);
    Ok(())
}

/// Writes the record that comes next of the file of a place, and reads that on.
fn take_at<A: Allocator, S: ByteSource, K: ByteSink>(
    files: &mut [ImportFile<A, S>],
    place: usize,
    capture: &mut K,
    written: &mut Written,
) -> Result<(), Fault>
    requires place { place < length files.old }
    requires ready { AllReady files.old }
    requires led { IsLed place files.old }
    requires few { written.old.a + written.old.b < 16777216 }
    ensures files { length files.new ≡ length files.old }
    ensures begun { map begun_of files.new ≡ map begun_of files.old }
    ensures taken { OnOk result (WritesEarliest files.old files.new
        (K.took capture.old) (K.took capture.new) written.old written.new) }
    ensures one { OnOk result
        (written.new.a + written.new.b ≤ written.old.a + written.old.b + 1) }
    ensures stopped { IfErr result (λ f. OfRefusal f (λ r. StopsBy r
        files.old files.new (K.took capture.old) (K.took capture.new))) }
    ensures part { OnErr result (StopsEarliest
        (Failed (K.failures capture.old) (K.failures capture.new))
        files.old files.new (K.took capture.old) (K.took capture.new)) }
    // No memory is asked for.
    ensures only { IfErr result (IsDeviceOrFile files.new) }
    ensures failures { Accounts result (counts (sum_by (failures_by S.failures) files.old)
        (sum_by (failures_by S.failures) files.new)
        ∷ counts (K.failures capture.old) (K.failures capture.new) ∷ []) }
{
    let file = &mut files[place];
    write_next(file, capture, written)?;
    file.go_on()?;
    Ok(())
}

/// Writes all records of files, of at most 16,777,216, always the earliest next, and answers how
/// many they are.
///
/// # Errors
///
/// A refusal where a file is at fault, behind the records before the fault, or where there are more
/// records; and else that a device failed.
pub(crate) fn join<A: Allocator, S: ByteSource, K: ByteSink>(
    files: &mut [ImportFile<A, S>],
    capture: &mut K,
) -> Result<Written, Fault>
    requires ready { AllReady files.old }
    requires fresh { AllFresh (standings files.old) }
    ensures files { length files.new ≡ length files.old }
    ensures begun { map begun_of files.new ≡ map begun_of files.old }
    ensures joined { IfOk result (λ w. HasWrittenAll files.new (K.took capture.old)
        (K.took capture.new) w) }
    ensures stopped { IfErr result (λ f. OfRefusal f (λ r. StopsJoining r files.new
        (K.took capture.old) (K.took capture.new))) }
    ensures part { OnErr result (StopsUpTo
        (Failed (K.failures capture.old) (K.failures capture.new)) files.new
        (K.took capture.old) (K.took capture.new)) }
    // No memory is asked for.
    ensures only { IfErr result (λ f. IsDeviceOrFile files.new f
        ⊎ (f ≡ Fault.Refused ImportRecords)) }
    ensures failures { Accounts result (counts (sum_by (failures_by S.failures) files.old)
        (sum_by (failures_by S.failures) files.new)
        ∷ counts (K.failures capture.old) (K.failures capture.new) ∷ []) }
{
    let mut written = Written { a: 0, b: 0 };
    for turn in 0..MOST_RECORDS {
        let Some((place, _)) = earliest(files) else {
            return Ok(written);
        };
        take_at(files, place, capture, &mut written)?;
    }
    match earliest(files) {
        None => Ok(written),
        Some(_) => Err(Fault::Refused(Refusal::ImportRecords)),
    }
}
