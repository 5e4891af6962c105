//! Noting the records of a file.
ghost use Rattle.std.specs.Prelude.{◌≡◌, [], length, IfOk, MatchResult, OnOk};
ghost use Rattle.recording_reader.specs.FileReader.{IsSameFile};
ghost use Rattle.recording_reader.specs.declared.way.Standing.TheVariants.{Reads};
ghost use Rattle.stream_inspection.specs.Inspected.{Notes};
ghost use Rattle.stream_inspection.specs.Read.{StandsAtEnd, counts_end};

use crate::inspection::Inspection;
use crate::target::Target;
use media_file::FileFault;
use recording_reader::{DatagramReader, ReadingFault};
use st_format::ByteSource;
use std::alloc::{AllocError, Allocator};

/// Notes all records of a file whose reader has just been opened, up to its end or its fault, which
/// is answered.
///
/// # Errors
///
/// That memory was wanted.
pub(crate) fn note_records<A: Allocator + Copy, B: Allocator, S: ByteSource>(
    target: &Target,
    inspection: &mut Inspection<A>,
    reader: &mut DatagramReader<B, S>,
) -> Result<Option<ReadingFault>, AllocError>
    requires reads { reader.old.standing ≡ Reads }
    requires none { reader.old.records ≡ [] }
    ensures noted { OnOk result (Notes target.now reader.new.records inspection.old
        inspection.new) }
    ensures end { IfOk result (StandsAtEnd reader.new.standing (length reader.new.records)) }
    ensures same { IsSameFile reader.old reader.new }
    ensures failures { MatchResult result
        (λ end. counts_end end (S.failures reader.old.source) (S.failures reader.new.source))
        (λ _. S.failures reader.new.source ≡ S.failures reader.old.source) }
    ensures names { S.names reader.new.source ≡ S.names reader.old.source }
{
    for _ in 0..u64::MAX {
        match reader.advance() {
            Ok(true) => inspection.note_at_hand(target, reader)?,
            Ok(false) => return Ok(None),
            Err(fault) => return Ok(Some(fault)),
        }
    }
    Ok(Some(ReadingFault::Capture(FileFault::TooManyRecords)))
}
