//! Laws of what is sent of streams, over the definitions alone: each is the contract of a function
//! that does nothing.
ghost use Rattle.std.specs.Prelude.{◌≡◌, ◌≤◌, ◌++◌, ◌∷◌, [], ℕ, List, length};
ghost use Rattle.std.specs.List.{AllByRecursion};
ghost use Rattle.st_format.specs.Fields.{fields_of};
ghost use Rattle.st_format.specs.Given.{GaveValue};
ghost use Rattle.st_format.specs.History.{since};
ghost use Rattle.st_format.specs.Picture.{IsPicture, Values};
ghost use Rattle.st_format.specs.declared.format.Format.{Format};
ghost use Rattle.picture_forms.specs.Frames.{frame_walk};
ghost use Rattle.picture_forms.specs.Heads.{head_walk};
ghost use Rattle.picture_forms.specs.Layouts.{IsYcc, planes_text, y4m_text};
ghost use Rattle.picture_forms.specs.Streams.{IsOf};
ghost use Rattle.run_outcome.specs.Moments.{WasRead};
ghost use Rattle.capture_engines.specs.Sending.{SayPictures, SendsPictures};
ghost use Rattle.capture_engines.specs.declared.sender.Sending.{Sending};
ghost use Rattle.stream_sending.specs.Sent.{TakesFrames};
ghost use Rattle.stream_sending.specs.Streams.{GaveStream, IsStreamOf};

use st_format::ByteSource;

/// What was sent of a stream of at most 10,000 pictures is what `send` sends of files of them, by
/// the same words and with the same text.
pub fn sent_as_files<S: ByteSource>()
    ensures { (wanted : Sending) (text : List ℕ) (format : Format) (pictures : List Values)
        (sources later : List S) (old new : List ℕ) (count : ℕ)
        → length pictures ≤ 10000 → SayPictures (WasRead S.gave S.ended) sources later pictures
        → TakesFrames wanted text format pictures old new count
        → SendsPictures (WasRead S.gave S.ended) wanted text sources later old new count }
{}

/// What is written of pictures as a YUV4MPEG2 stream, as `convert`, `follow` and `picture` write
/// them, is a stream of them.
pub fn written_stream()
    ensures { (format : Format) (pictures : List Values) → IsYcc format.sampling
        → AllByRecursion (IsOf format) pictures
        → IsStreamOf (y4m_text format pictures) format pictures }
{}

/// What the source of a `StreamReader` gave, from before its head on, by the clauses of the calls:
/// of `open` (`gave`) the head of its format, and of each picture (`found`, `gave`) its frame
/// behind those before. So at any time it is a stream of the pictures that were read, and no more.
pub fn stream_history()
    ensures opened { (format : Format) (before now : List ℕ)
        → GaveValue head_walk before now (fields_of format) → GaveStream format [] before now }
    ensures more { (format : Format) (pictures : List Values) (next : Values)
        (before now later : List ℕ) → GaveStream format pictures before now
        → next.format ≡ format → IsPicture next
        → GaveValue (frame_walk format) now later (planes_text next)
        → GaveStream format (pictures ++ next ∷ []) before later }
    ensures so_far { (format : Format) (pictures : List Values) (before now : List ℕ)
        → GaveStream format pictures before now → IsStreamOf (since before now) format pictures }
{}
