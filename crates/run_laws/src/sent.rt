//! Laws on what `send`, `process`, `migrate` and `loop` write, and on what is received of it, over
//! the definitions alone: each is the contract of a function that does nothing. A caller has the
//! premises of each from the clauses of the call.
//!
//! - What a run of `send` wrote is a sent file: `sent_file`. A capture that was written of
//!   datagrams is read as them: `written_again`.
//! - What was sent and received is the pictures, nothing missing; and of what isn't all, each value
//!   is the sender's: `sent_and_received`.
//! - What was sent, received and processed is the job's picture of the pictures that were sent:
//!   `sent_received_and_processed`. What `process` wrote and was received is the job's picture:
//!   `processed_and_received`. Files that are octet for octet the same are processed into one
//!   picture, `processed_once`, and with the same stamp and packet size into one capture:
//!   `processed_again`.
//! - A migrated capture is received as the old one: `migrated_again`, `migrated_and_received`.
//! - Through a link that makes no datagram each sample is the picture's or missing:
//!   `looped_picture`.
ghost use Rattle.std.specs.Prelude.{◌≡◌, ◌∷◌, ◌++◌, [], ℕ, List, Option, None, Some};
ghost use Rattle.std.specs.Option.{option_map};
ghost use Rattle.st_format.specs.Device.{AreOctets};
ghost use Rattle.st_format.specs.History.{IsRead, since};
ghost use Rattle.st_format.specs.Member.{SameDatagrams};
ghost use Rattle.st_format.specs.Picture.{Values, timestamp_of};
ghost use Rattle.st_format.specs.Position.{Position};
ghost use Rattle.st_format.specs.declared.format.Format.{Format};
ghost use Rattle.media_file.specs.Writer.{written_text};
ghost use Rattle.media_file.specs.declared.paths.Paths.{Paths};
ghost use Rattle.media_file.specs.declared.paths.Paths.TheVariants.{OnlyA};
ghost use Rattle.packet_plan.specs.declared.stamp.Stamp.{Stamp};
ghost use Rattle.path_receiver.specs.Frames.{cell_in, frame_at};
ghost use Rattle.path_receiver.specs.Sender.{AreAmong, IsSendersCell, picture_raster};
ghost use Rattle.path_receiver.specs.TookSent.{Awaits};
ghost use Rattle.key_mix.specs.declared.Job.{Job};
ghost use Rattle.recording_reader.specs.Files.{text_of_file};
ghost use Rattle.run_outcome.specs.Moments.{WasRead};
ghost use Rattle.run_outcome.specs.Text.{GivesText};
ghost use Rattle.capture_engines.specs.Files.{capture_datagrams};
ghost use Rattle.capture_engines.specs.Looping.{Link, Loops};
ghost use Rattle.capture_engines.specs.Migrating.{Migrates};
ghost use Rattle.capture_engines.specs.Sending.{SendsAll, run_sender};
ghost use Rattle.capture_engines.specs.declared.sender.Sending.{Sending};
ghost use Rattle.receiver_engines.specs.Offered.{OffersJob};
ghost use Rattle.receiver_engines.specs.Processing.{SendsSaidFiles, TakesSaid};
ghost use Rattle.run_laws.specs.Processed.{HavePictures, HaveSentPictures};
ghost use Rattle.run_laws.specs.Received.{IsReceivedFile, all_read, read_of};
ghost use Rattle.run_laws.specs.Sent.{AreOnePicture, AwaitsPicture, BringsOnly, FitCapture};
ghost use Rattle.run_laws.specs.Sent.{IsSentFile, IsSentOf, loop_sender};

use st_format::ByteSource;

/// What a run of `send` that ended well wrote (`sent` there), of one picture or more, is the sent
/// file of its words, and of the text and the pictures that it read.
pub fn sent_file<S: ByteSource>()
    ensures { (wanted : Sending) (sdp sdp_later : Option S) (first first_later : S)
        (others others_later : List S) (old new printed printed_new : List ℕ)
        → SendsAll S.gave S.ended wanted sdp sdp_later (first ∷ others)
        (first_later ∷ others_later) old new printed printed_new
        → IsSentOf S.gave S.ended wanted sdp sdp_later (first ∷ others)
        (first_later ∷ others_later) (since old new) }
{}

/// A capture that was written of datagrams is read as them, each by one path or by both
/// (`datagrams`), and with its text (`text`).
pub fn written_again()
    ensures datagrams { (paths : Paths) (text : List ℕ) (datagrams : List (List ℕ))
        → FitCapture text datagrams
        → SameDatagrams datagrams (capture_datagrams (written_text paths text datagrams)) }
    ensures text { (paths : Paths) (text : List ℕ) (datagrams : List (List ℕ))
        → FitCapture text datagrams → text_of_file (written_text paths text datagrams) ≡ text }
{}

/// What was sent and received is the pictures. Where the datagrams of a received file are those of
/// a sent one, in whatever files, order, with whatever repeats and by whatever paths, the frame of
/// each picture that the receiver awaits is the picture, nothing missing (`pictures`). And where
/// they are some of those, each cell is missing or the value of the sender's picture of that
/// timestamp (`values`; SMPTE ST 2022-7).
pub fn sent_and_received()
    ensures pictures { (wanted : Sending) (text : List ℕ) (format : Format)
        (pictures : List Values) (capture window source said : List ℕ)
        (datagrams : List (List ℕ)) (file : List ℕ) (k : ℕ) (p : Values)
        (sent : IsSentFile wanted text format pictures capture)
        (received : IsReceivedFile window source said datagrams file)
        → SameDatagrams sent.datagrams datagrams
        → Awaits received.receiver (run_sender format wanted) pictures k p
        → frame_at received.receiver.opening.window received.receiver.frames
        (timestamp_of format wanted.base k) ≡ Some (picture_raster p) }
    ensures values { (wanted : Sending) (text : List ℕ) (format : Format)
        (pictures : List Values) (capture window source said : List ℕ)
        (datagrams : List (List ℕ)) (file : List ℕ) (timestamp : ℕ) (at : Position)
        (sent : IsSentFile wanted text format pictures capture)
        (received : IsReceivedFile window source said datagrams file)
        → AreAmong datagrams sent.datagrams → format ≡ received.receiver.opening.format
        → IsSendersCell (cell_in received.receiver timestamp at) (run_sender format wanted)
        pictures timestamp at }
{}

/// What was sent, received and processed is the job's picture of the pictures that were sent. Where
/// each file that a run of `process` read (`sent` there) was received of the datagrams of a sent
/// file, in whatever captures, order, with whatever repeats and by whatever paths, and its receiver
/// awaits the picture that was sent with the timestamp that is asked for, the run wrote the capture
/// of the job's picture of those pictures, one, two or three, whatever the fill is and whatever is
/// held (`pictures`; SMPTE ST 2022-7). So the datagrams in it offer that picture to a receiver
/// (`means`; RFC 4175, 4.3). And so it is of any receivers' files in which the frames are pictures,
/// nothing missing, however they came (`frames`).
pub fn sent_received_and_processed<S: ByteSource>()
    ensures pictures { (text : List ℕ) (states : List (S × S)) (hold : Option (S × S))
        (job : List ℕ) (timestamp : ℕ) (fill : List ℕ) (size : ℕ) (stamp : Stamp)
        (old new : List ℕ) (count : ℕ) (pictures : List Values)
        (run : SendsSaidFiles text (WasRead S.gave S.ended) states hold job timestamp fill size
        stamp old new count) → HaveSentPictures timestamp (all_read S.gave states) pictures
        → TakesSaid text run.job pictures size stamp old new count }
    ensures means { (text : List ℕ) (states : List (S × S)) (hold : Option (S × S))
        (job : List ℕ) (timestamp : ℕ) (fill : List ℕ) (size : ℕ) (stamp : Stamp)
        (old new : List ℕ) (count : ℕ) (pictures : List Values)
        (run : SendsSaidFiles text (WasRead S.gave S.ended) states hold job timestamp fill size
        stamp old new count) → HaveSentPictures timestamp (all_read S.gave states) pictures
        → (datagrams : List (List ℕ)) × (new ≡ old ++ written_text OnlyA text datagrams)
        × OffersJob datagrams run.job pictures stamp }
    ensures frames { (text : List ℕ) (states : List (S × S)) (hold : Option (S × S))
        (job : List ℕ) (timestamp : ℕ) (fill : List ℕ) (size : ℕ) (stamp : Stamp)
        (old new : List ℕ) (count : ℕ) (pictures : List Values)
        (run : SendsSaidFiles text (WasRead S.gave S.ended) states hold job timestamp fill size
        stamp old new count) → HavePictures timestamp (all_read S.gave states) pictures
        → TakesSaid text run.job pictures size stamp old new count }
{}

/// What `process` wrote and was received is the job's picture of the settled frames: where the
/// datagrams of a received file are those that a run took (`takes` of its clause), and its receiver
/// awaits that picture, its frame there is the picture, nothing missing (SMPTE ST 2110-20, general
/// packing).
pub fn processed_and_received()
    ensures { (text : List ℕ) (job : Job) (pictures : List Values) (size : ℕ) (stamp : Stamp)
        (old new : List ℕ) (count : ℕ) (window source said : List ℕ)
        (datagrams : List (List ℕ)) (file : List ℕ)
        (sent : TakesSaid text job pictures size stamp old new count)
        (received : IsReceivedFile window source said datagrams file)
        → SameDatagrams sent.datagrams datagrams
        → AwaitsPicture received.receiver sent.spell.picture stamp
        → frame_at received.receiver.opening.window received.receiver.frames stamp.timestamp
        ≡ Some (picture_raster sent.spell.picture) }
{}

/// Two runs of `process` with the same job, timestamp and fill, over files that are octet for octet
/// the same (`sent` of their clauses), send one picture: of one format, with one value at each
/// position (`files`). So it is over a file each that was received of the same datagrams with the
/// same words and SDP text, by whatever files, in whatever order (`received`; SMPTE ST 2022-7).
pub fn processed_once<S: ByteSource, T: ByteSource>()
    ensures files { (text other : List ℕ) (states : List (S × S)) (others : List (T × T))
        (hold : Option (S × S)) (held : Option (T × T)) (job : List ℕ) (timestamp : ℕ)
        (fill : List ℕ) (size size' : ℕ) (stamp stamp' : Stamp) (old new : List ℕ) (count : ℕ)
        (old' new' : List ℕ) (count' : ℕ)
        (first : SendsSaidFiles text (WasRead S.gave S.ended) states hold job timestamp fill size
        stamp old new count)
        (second : SendsSaidFiles other (WasRead T.gave T.ended) others held job timestamp fill
        size' stamp' old' new' count') → all_read S.gave states ≡ all_read T.gave others
        → option_map (read_of S.gave) hold ≡ option_map (read_of T.gave) held
        → AreOnePicture first.sends.takes.spell.picture second.sends.takes.spell.picture }
    ensures received { (text other : List ℕ) (state : S × S) (again : T × T) (job : List ℕ)
        (timestamp : ℕ) (fill : List ℕ) (size size' : ℕ) (stamp stamp' : Stamp)
        (old new : List ℕ) (count : ℕ) (old' new' : List ℕ) (count' : ℕ)
        (window source said : List ℕ) (xs ys : List (List ℕ))
        (first : SendsSaidFiles text (WasRead S.gave S.ended) (state ∷ []) None job timestamp fill
        size stamp old new count)
        (second : SendsSaidFiles other (WasRead T.gave T.ended) (again ∷ []) None job timestamp
        fill size' stamp' old' new' count')
        → IsReceivedFile window source said xs (read_of S.gave state)
        → IsReceivedFile window source said ys (read_of T.gave again) → SameDatagrams xs ys
        → AreOnePicture first.sends.takes.spell.picture second.sends.takes.spell.picture }
{}

/// Two runs of `process` with the same job, timestamp, fill, packet size, stamp and text, over
/// files that are octet for octet the same, write one capture, octet for octet, and count the same
/// (`files`). So it is over a file each that was received of the same datagrams with the same words
/// and SDP text (`received`; SMPTE ST 2022-7), and of any two that wrote datagrams of one job of
/// the same pictures (`taken`). What is written are octets, numbers below 256: a spelling tells
/// eight bits of each.
pub fn processed_again<S: ByteSource, T: ByteSource>()
    ensures taken { (text : List ℕ) (job : Job) (pictures : List Values) (size : ℕ)
        (stamp : Stamp) (old new : List ℕ) (count : ℕ) (old' new' : List ℕ) (count' : ℕ)
        → TakesSaid text job pictures size stamp old new count
        → TakesSaid text job pictures size stamp old' new' count'
        → AreOctets (since old new) → AreOctets (since old' new')
        → (since old new ≡ since old' new') × (count ≡ count') }
    ensures files { (text : List ℕ) (states : List (S × S)) (others : List (T × T))
        (hold : Option (S × S)) (held : Option (T × T)) (job : List ℕ) (timestamp : ℕ)
        (fill : List ℕ) (size : ℕ) (stamp : Stamp) (old new : List ℕ) (count : ℕ)
        (old' new' : List ℕ) (count' : ℕ)
        → SendsSaidFiles text (WasRead S.gave S.ended) states hold job timestamp fill size stamp
        old new count
        → SendsSaidFiles text (WasRead T.gave T.ended) others held job timestamp fill size stamp
        old' new' count' → all_read S.gave states ≡ all_read T.gave others
        → option_map (read_of S.gave) hold ≡ option_map (read_of T.gave) held
        → AreOctets (since old new) → AreOctets (since old' new')
        → (since old new ≡ since old' new') × (count ≡ count') }
    ensures received { (text : List ℕ) (state : S × S) (again : T × T) (job : List ℕ)
        (timestamp : ℕ) (fill : List ℕ) (size : ℕ) (stamp : Stamp) (old new : List ℕ) (count : ℕ)
        (old' new' : List ℕ) (count' : ℕ) (window source said : List ℕ) (xs ys : List (List ℕ))
        → SendsSaidFiles text (WasRead S.gave S.ended) (state ∷ []) None job timestamp fill size
        stamp old new count
        → SendsSaidFiles text (WasRead T.gave T.ended) (again ∷ []) None job timestamp fill size
        stamp old' new' count'
        → IsReceivedFile window source said xs (read_of S.gave state)
        → IsReceivedFile window source said ys (read_of T.gave again) → SameDatagrams xs ys
        → AreOctets (since old new) → AreOctets (since old' new')
        → (since old new ≡ since old' new') × (count ≡ count') }
{}

/// A migrated capture is read as the datagrams of the old one (`datagrams`), and with the text that
/// was read (`text`).
pub fn migrated_again<D: ByteSource, S: ByteSource>()
    ensures datagrams { (sdp sdp_later : D) (source later : S) (old new : List ℕ)
        (moved : Migrates (GivesText 65535 (D.gave sdp) (D.gave sdp_later) (D.ended sdp_later))
        (S.gave source) (S.gave later) (S.ended later) old new)
        → AreOctets (since (S.gave source) (S.gave later))
        → capture_datagrams (since old new)
        ≡ capture_datagrams (since (S.gave source) (S.gave later)) }
    ensures text { (sdp sdp_later : D) (source later : S) (old new : List ℕ)
        (moved : Migrates (GivesText 65535 (D.gave sdp) (D.gave sdp_later) (D.ended sdp_later))
        (S.gave source) (S.gave later) (S.ended later) old new)
        → AreOctets (since (S.gave source) (S.gave later))
        → text_of_file (since old new) ≡ moved.text }
{}

/// So it is received as the old one with the same words and SDP text: into one file, octet for
/// octet.
pub fn migrated_and_received<D: ByteSource, S: ByteSource>()
    ensures { (sdp sdp_later : D) (source later : S) (old new : List ℕ)
        (moved : Migrates (GivesText 65535 (D.gave sdp) (D.gave sdp_later) (D.ended sdp_later))
        (S.gave source) (S.gave later) (S.ended later) old new)
        (window by said file other : List ℕ)
        → AreOctets (since (S.gave source) (S.gave later))
        → IsReceivedFile window by said
        (capture_datagrams (since (S.gave source) (S.gave later))) file
        → IsReceivedFile window by said (capture_datagrams (since old new)) other
        → file ≡ other }
{}

/// A run of `loop` over a link that brings no datagram but the picture's, as one in memory, which
/// loses and repeats them: each cell of the frame is missing or the picture's value there
/// (`cells`), so that the line of the frame says `contested 0` (`counts`; SMPTE ST 2022-7).
pub fn looped_picture<S: ByteSource>()
    ensures cells { (max limit : ℕ) (source later : S) (before after : Link) (old new : List ℕ)
        (run : Loops max limit (IsRead (S.gave source) (S.gave later) (S.ended later))
        before after old new)
        → BringsOnly run.picture run.packets run.came.arrivals → (at : Position)
        → IsSendersCell (cell_in run.receiver 0 at) (loop_sender run.picture)
        (run.picture ∷ []) 0 at }
    ensures counts { (max limit : ℕ) (source later : S) (before after : Link) (old new : List ℕ)
        (run : Loops max limit (IsRead (S.gave source) (S.gave later) (S.ended later))
        before after old new)
        → BringsOnly run.picture run.packets run.came.arrivals
        → run.printed.counts.contested ≡ 0 }
{}
