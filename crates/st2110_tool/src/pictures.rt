//! The engines of pictures in other forms, each with its status.
ghost use Rattle.std.specs.Prelude.{◌≡◌, ◌≢◌, ◌⊎◌, ◌∷◌, ◌++◌, []};
ghost use Rattle.convert_engine.specs.Converting.{Converts, ConvertsPart, IsConvertRefusal};
ghost use Rattle.picture_engine.specs.Refused.{IsShowRefusal};
ghost use Rattle.picture_engine.specs.Shown.{ShowsFrame, ShowsPart};
ghost use Rattle.run_outcome.specs.Fault.{StatusBlames, counts, failures_in};
ghost use Rattle.run_outcome.specs.Moments.{WasRead, pair};
ghost use Rattle.run_outcome.specs.Refusing.{TellsRefusal};
ghost use Rattle.run_outcome.specs.Telling.{device_line, memory_line};
ghost use Rattle.st_format.specs.Device.{Failed};
ghost use Rattle.st_format.specs.History.{IsRead};

use convert_engine::{Conversion, convert};
use picture_engine::{PictureAsked, picture};
use run_outcome::end;
use st_format::{ByteSink, ByteSource};
use std::alloc::Allocator;

/// Writes a frame of a receiver that was written as a file: the one of a timestamp, as a picture in
/// a form.
///
/// The receiver of `state` is read, and then the picture of `hold`, where there is one. A frame
/// with marks is of R, G and B, whatever its own sampling is; neither a fill nor `hold` is looked
/// at then.
///
/// The status is 0; or 1 where, in this order, the fill's text is none (`frame 2`, before any file
/// is read), a file is refused, the receiver's window hasn't the timestamp (`frame 1`), the fill
/// has a value above the greatest of the frame's depth (`frame 2`), the held picture has another
/// format than the frame (`frame 3`), or the form doesn't hold the picture's sampling (`frame 4`);
/// 3 where a device failed, and 4 where the allocator refused memory. `faults` is told of it by one
/// line. Where the status is 1 `sink` isn't touched.
pub fn run_picture<A, S, K, F>(
    alloc: A,
    asked: PictureAsked<'_>,
    state: &mut S,
    hold: &mut Option<S>,
    sink: &mut K,
    faults: &mut F,
) -> u8
where
    A: Allocator + Copy,
    S: ByteSource,
    K: ByteSink,
    F: ByteSink,
    ensures range { (result ≡ 0) ⊎ (result ≡ 1) ⊎ (result ≡ 3) ⊎ (result ≡ 4) }
    ensures failures { StatusBlames result (counts (S.failures state.old) (S.failures state.new)
        ∷ counts (failures_in S.failures hold.old) (failures_in S.failures hold.new)
        ∷ counts (K.failures sink.old) (K.failures sink.new)
        ∷ counts (F.failures faults.old) (F.failures faults.new) ∷ []) }
    // What was read is the file of a receiver, and what is written is its frame of the timestamp,
    // as it is asked for.
    ensures shown { result ≡ 0 → ShowsFrame
        (IsRead (S.gave state.old) (S.gave state.new) (S.ended state.new))
        (WasRead S.gave S.ended) (pair hold.old hold.new) asked.entry
        (K.took sink.old) (K.took sink.new) }
    // All of the receiver's file was read, up to its end.
    ensures ended { result ≡ 0 → S.ended state.new }
    ensures refused { result ≡ 1 → sink.new ≡ sink.old }
    // What is told is the first refusal that speaks against the words and files.
    ensures told { result ≡ 1 → TellsRefusal (IsShowRefusal
        (IsRead (S.gave state.old) (S.gave state.new) (S.ended state.new))
        (WasRead S.gave S.ended) (pair hold.old hold.new) asked.entry)
        (F.took faults.old) (F.took faults.new) }
    // Unless the status is 0, what was written is a first part of such a picture, and not all.
    ensures part { result ≢ 0 → ShowsPart
        (IsRead (S.gave state.old) (S.gave state.new) (S.ended state.new))
        (WasRead S.gave S.ended) (pair hold.old hold.new) asked.entry
        (K.took sink.old) (K.took sink.new) }
    ensures silent { result ≡ 0 → faults.new ≡ faults.old }
    ensures blamed { result ≡ 3 → Failed (F.failures faults.old) (F.failures faults.new)
        ⊎ (F.took faults.new ≡ F.took faults.old ++ device_line) }
    ensures memory { result ≡ 4 → F.took faults.new ≡ F.took faults.old ++ memory_line }
{
    let outcome = picture(alloc, asked, state, hold, sink);
    end(outcome, faults)
}

/// Reads a picture, and writes it in another form. Of a stream and of a pixmap what is behind the
/// picture is not read; a picture's own file has to end.
///
/// The status is 0; or 1 where what was read is no file of its form, or the form that is to be
/// written doesn't hold its sampling (`convert 1`), and then nothing is written; 3 where a device
/// failed, and 4 where the allocator refused memory. `faults` is told of it by one line.
pub fn run_convert<A, S, K, F>(
    alloc: A,
    asked: Conversion,
    source: &mut S,
    sink: &mut K,
    faults: &mut F,
) -> u8
where
    A: Allocator + Copy,
    S: ByteSource,
    K: ByteSink,
    F: ByteSink,
    ensures range { (result ≡ 0) ⊎ (result ≡ 1) ⊎ (result ≡ 3) ⊎ (result ≡ 4) }
    ensures failures { StatusBlames result (counts (S.failures source.old) (S.failures source.new)
        ∷ counts (K.failures sink.old) (K.failures sink.new)
        ∷ counts (F.failures faults.old) (F.failures faults.new) ∷ []) }
    // What is written is the picture that was read, in the form that is asked for.
    ensures converted { result ≡ 0 → Converts asked
        (IsRead (S.gave source.old) (S.gave source.new) (S.ended source.new))
        (K.took sink.old) (K.took sink.new) }
    ensures refused { result ≡ 1 → sink.new ≡ sink.old }
    // What is told is the first refusal that speaks against the file.
    ensures told { result ≡ 1 → TellsRefusal (IsConvertRefusal asked
        (IsRead (S.gave source.old) (S.gave source.new) (S.ended source.new)))
        (F.took faults.old) (F.took faults.new) }
    // Unless the status is 0, the file isn't all written.
    ensures part { result ≢ 0 → ConvertsPart asked
        (IsRead (S.gave source.old) (S.gave source.new) (S.ended source.new))
        (K.took sink.old) (K.took sink.new) }
    ensures silent { result ≡ 0 → faults.new ≡ faults.old }
    ensures blamed { result ≡ 3 → Failed (F.failures faults.old) (F.failures faults.new)
        ⊎ (F.took faults.new ≡ F.took faults.old ++ device_line) }
    ensures wanted { result ≡ 4 → sink.new ≡ sink.old }
    ensures memory { result ≡ 4 → F.took faults.new ≡ F.took faults.old ++ memory_line }
{
    let outcome = convert(alloc, asked, source, sink);
    end(outcome, faults)
}
