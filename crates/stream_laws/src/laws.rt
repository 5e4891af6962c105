//! Laws on whole runs of `follow`, over the definitions alone: each is the contract of a function
//! that does nothing. A caller of `follow_files` has the premises of each from that call's own
//! clauses.
//!
//! - All frames that leave a stream have one format: `frames_of_format`. So, whatever was lost,
//!   what is written of them is one YUV4MPEG2 stream: `one_y4m_stream`.
//! - Where none was late or too far ahead, a stream isn't followed anew: `plain_by_totals`. So it
//!   is of a sender's datagrams that come in time for the window: `none_late`. Nor is it followed
//!   anew where what comes late is a repeat, by ten seconds at most: `plain_by_times`; and where
//!   it is, that is told: `plain_by_events`.
//! - The datagrams that go into a stream are those of its files: `all_of_files`.
//! - Where files bring all of a sender's datagrams in time but for repeats, the frames are its
//!   pictures, nothing missing: `sender_stream`; and settled these are the pictures, by whatever
//!   fill: `whole_pictures`.
//! - So what was sent and followed is the pictures' file, octet for octet: `sent_and_followed`, and
//!   as a file of the command `sent_and_followed_file`; or each picture's own file:
//!   `sent_and_followed_pictures`.
//! - Where `follow` succeeds no refusal speaks against what it read: `follow_unrefused`.
ghost use Rattle.std.specs.Prelude.{◌≡◌, ◌∷◌, ◌++◌, ℕ, List, None, Option, Result, Some, map};
ghost use Rattle.std.specs.List.{AllZip, flat_map};
ghost use Rattle.capture_engines.specs.Files.{files_datagrams};
ghost use Rattle.capture_engines.specs.Sending.{run_sender};
ghost use Rattle.capture_engines.specs.declared.sender.Sending.{Sending};
ghost use Rattle.follow_runs.specs.Followed.{FollowsFiles};
ghost use Rattle.follow_runs.specs.Outputs.{outputs_of};
ghost use Rattle.capture_runs.specs.Replayed.{replayed_ended, replayed_gave};
ghost use Rattle.follow_runs.specs.declared.picture_directory.PictureDirectory.{PictureDirectory};
ghost use Rattle.capture_runs.specs.declared.replayed.Replayed.{Replayed};
ghost use Rattle.devices.specs.Filed.{filed_files};
ghost use Rattle.devices.specs.Passed.{file_took};
ghost use Rattle.devices.specs.declared.file_output.FileOutput.{FileOutput};
ghost use Rattle.flow.specs.declared.flows.Flows.{Flows};
ghost use Rattle.follow_engine.specs.Events.{Anew, frames_of_events, running_from};
ghost use Rattle.follow_engine.specs.Followed.{FollowsWhole, followed_events, followed_run};
ghost use Rattle.follow_engine.specs.Order.{datagrams_in, strands_by};
ghost use Rattle.follow_engine.specs.Plain.{NoneAnew};
ghost use Rattle.follow_engine.specs.Refused.{IsFollowRefusal};
ghost use Rattle.follow_engine.specs.Sides.{SideRead};
ghost use Rattle.follow_engine.specs.Telling.{totals_of};
ghost use Rattle.follow_engine.specs.declared.opening.FollowAsked.{FollowAsked};
ghost use Rattle.follow_engine.specs.declared.telling.FollowTotals.{FollowTotals};
ghost use Rattle.following.specs.Follower.{opened};
ghost use Rattle.following.specs.Following.{Handed};
ghost use Rattle.following.specs.Pictures.{BroughtAll, pictures_from, timed_from, times_from};
ghost use Rattle.following.specs.Prompt.{IsPrompt};
ghost use Rattle.frame_sinks.specs.Files.{files_for};
ghost use Rattle.frame_sinks.specs.Pictures.{pictures_of};
ghost use Rattle.frame_sinks.specs.Sinks.{SinkTakes};
ghost use Rattle.frame_sinks.specs.declared.filling.Filling.{Filling};
ghost use Rattle.frame_sinks.specs.declared.form_sink.FormSink.{FormSink};
ghost use Rattle.media_file.specs.Records.{Entry};
ghost use Rattle.packet_plan.specs.Sender.{Sender};
ghost use Rattle.path_receiver.specs.Opening.{IsWindowSize, Opening};
ghost use Rattle.picture_forms.specs.Layouts.{IsRgb, IsYcc, pixmap_text, y4m_text};
ghost use Rattle.run_laws.specs.Sent.{IsSentFile};
ghost use Rattle.run_outcome.specs.declared.refusal.Refusal.{Refusal};
ghost use Rattle.side_by_side.specs.Strands.{GoesWhole};
ghost use Rattle.side_by_side.specs.declared.side.Side.{Side};
ghost use Rattle.side_by_side.specs.declared.steering.Steering.{Steering};
ghost use Rattle.st_format.specs.Member.{IsMember, SameDatagrams};
ghost use Rattle.st_format.specs.Picture.{Values};
ghost use Rattle.st_format.specs.declared.format.Format.{Format};
ghost use Rattle.stream_laws.specs.Brought.{AreRecent, AreWhole, AwaitsPictures, BringDatagrams};
ghost use Rattle.stream_laws.specs.Brought.{GoesInTime, IsInTime, LosesNone};

use follow_engine::PictureSink;
use st_format::{ByteSink, ByteSource};
use std::alloc::Allocator;

/// Each frame that leaves a stream which isn't followed anew has the format that it was opened
/// with, whatever came.
pub fn frames_of_format()
    ensures { (w : FollowAsked) (o : Opening) (entries : List Entry) (h : Handed) →
        NoneAnew w.is_eager (running_from (opened o w.frames 900000)) (datagrams_in entries) →
        IsMember h (frames_of_events (followed_events w o entries)) →
        h.frame.format ≡ o.format }
{}

/// A stream of which the totals that are told say `late 0` and `far 0` isn't followed anew.
pub fn plain_by_totals()
    ensures { (w : FollowAsked) (o : Opening) (entries : List Entry) →
        (totals_of (followed_run w o entries)).late ≡ 0 →
        (totals_of (followed_run w o entries)).far ≡ 0 →
        NoneAnew w.is_eager (running_from (opened o w.frames 900000)) (datagrams_in entries) }
{}

/// Nor is one of which no event is that it is followed anew, which would be told (`anew`).
pub fn plain_by_events()
    ensures { (w : FollowAsked) (o : Opening) (entries : List Entry) →
        ((timestamp : ℕ) → IsMember (Anew timestamp) (followed_events w o entries) → ⊥) →
        NoneAnew w.is_eager (running_from (opened o w.frames 900000)) (datagrams_in entries) }
{}

/// Where all datagrams of a sender's list went into a stream, each by one file or another, and no
/// others, frames leave as they are due, and none comes after as many newer timestamps as there are
/// frames and none too far ahead: the totals that are told say `late 0` and `far 0`.
pub fn none_late()
    ensures { (w : FollowAsked) (o : Opening) (s : Sender) (pictures : List Values)
        (entries : List Entry) → BroughtAll o s pictures (datagrams_in entries) →
        GoesInTime w o s.base entries → LosesNone w o entries }
{}

/// Where all datagrams of a sender's list went into a stream, each by one file or another, and no
/// others, what comes late is a repeat, and none is more than ten seconds older than one before it:
/// the stream isn't followed anew, also where frames leave early.
pub fn plain_by_times()
    ensures { (w : FollowAsked) (o : Opening) (s : Sender) (pictures : List Values)
        (entries : List Entry) → BroughtAll o s pictures (datagrams_in entries) →
        IsWindowSize w.frames →
        IsPrompt w.is_eager o w.frames 900000
        (map (timed_from o s.base) (datagrams_in entries)) →
        AreRecent 900000 (times_from o s.base (datagrams_in entries)) →
        NoneAnew w.is_eager (running_from (opened o w.frames 900000)) (datagrams_in entries) }
{}

/// What is written of a stream of YCbCr that isn't followed anew, of one frame or more, into a sink
/// that nothing was written to, is one YUV4MPEG2 stream, octet for octet, whatever was lost: that
/// of the frames' pictures.
pub fn one_y4m_stream<K: ByteSink, A: Allocator, B: Allocator, S: ByteSource>()
    ensures { (w : FollowAsked) (sdp : Option (List ℕ)) (ways : List (Result Flows Refusal))
        (files : List (Side B S × Side B S)) (k l : FormSink K A) (printed printed' : List ℕ)
        (totals : FollowTotals) (first : Handed) (others : List Handed)
        (is : FollowsWhole w sdp ways (SideRead S.gave S.ended) files (SinkTakes K.took) k l
        printed printed' totals) →
        NoneAnew w.is_eager (running_from (opened is.opening w.frames 900000))
        (datagrams_in is.entries) →
        frames_of_events (followed_events w is.opening is.entries) ≡ first ∷ others →
        IsYcc is.opening.format.sampling → k.format ≡ None →
        K.took l.sink ≡ K.took k.sink ++ y4m_text is.opening.format
        (pictures_of k.settling.filling k.settling.fill k.settling.held (first ∷ others)) }
{}

/// The datagrams that go into a stream, where its files go side by side up to their ends, are those
/// of all the files, each as it is taken.
pub fn all_of_files()
    ensures { (steering : Steering) (ways : List (Result Flows Refusal))
        (octets : List (List ℕ)) (entries : List Entry) →
        GoesWhole steering (strands_by ways octets) entries →
        SameDatagrams (datagrams_in entries) (files_datagrams ways octets) }
{}

/// Where all datagrams of a sender's list went into a stream in time, each by one file or another,
/// and no others, the frames that leave it are the sender's pictures, all, in order, each with
/// nothing missing (SMPTE ST 2022-7). They went in time where it is as `none_late` says; or where
/// the totals say `late 0` and `far 0`, in whatever order they went, and also where frames leave
/// early; or where all that comes late is a repeat, also where frames leave early, and the stream
/// isn't followed anew, as `plain_by_times` or `plain_by_events` says.
pub fn sender_stream()
    ensures { (w : FollowAsked) (o : Opening) (s : Sender) (pictures : List Values)
        (entries : List Entry) → BroughtAll o s pictures (datagrams_in entries) →
        IsInTime w o s.base entries →
        frames_of_events (followed_events w o entries) ≡ pictures_from s 0 pictures }
{}

/// Frames of which nothing is missing, settled, are their pictures, by whatever fill and over
/// whatever was held.
pub fn whole_pictures()
    ensures { (filling : Filling) (fill : Option (List ℕ)) (held : Option Values) (s : Sender)
        (k : ℕ) (pictures : List Values) → AreWhole pictures →
        pictures_of filling fill held (pictures_from s k pictures) ≡ pictures }
{}

/// What was sent and followed is the pictures' file, octet for octet. Where the datagrams of a sent
/// file came by one of the followed files or another, and no others, in time but for repeats (as
/// `sender_stream` says), what a sink that nothing was written to took is the YUV4MPEG2 file of the
/// pictures where they are YCbCr (`ycc`), and where they are RGB their portable pixmaps one behind
/// the other (`rgb`): whatever each file lost, and by whatever fill (SMPTE ST 2022-7).
pub fn sent_and_followed<K: ByteSink, A: Allocator, B: Allocator, S: ByteSource>()
    ensures ycc { (wanted : Sending) (text : List ℕ) (format : Format) (first : Values)
        (others : List Values) (capture : List ℕ) (w : FollowAsked) (sdp : Option (List ℕ))
        (ways : List (Result Flows Refusal)) (files : List (Side B S × Side B S))
        (k l : FormSink K A) (printed printed' : List ℕ) (totals : FollowTotals)
        (sent : IsSentFile wanted text format (first ∷ others) capture)
        (is : FollowsWhole w sdp ways (SideRead S.gave S.ended) files (SinkTakes K.took) k l
        printed printed' totals) →
        BringDatagrams (SideRead S.gave S.ended) ways files sent.datagrams →
        AwaitsPictures is.opening (run_sender format wanted) (first ∷ others) →
        IsInTime w is.opening wanted.base is.entries →
        IsYcc format.sampling → k.format ≡ None →
        K.took l.sink ≡ K.took k.sink ++ y4m_text format (first ∷ others) }
    ensures rgb { (wanted : Sending) (text : List ℕ) (format : Format)
        (pictures : List Values) (capture : List ℕ) (w : FollowAsked) (sdp : Option (List ℕ))
        (ways : List (Result Flows Refusal)) (files : List (Side B S × Side B S))
        (k l : FormSink K A) (printed printed' : List ℕ) (totals : FollowTotals)
        (sent : IsSentFile wanted text format pictures capture)
        (is : FollowsWhole w sdp ways (SideRead S.gave S.ended) files (SinkTakes K.took) k l
        printed printed' totals) →
        BringDatagrams (SideRead S.gave S.ended) ways files sent.datagrams →
        AwaitsPictures is.opening (run_sender format wanted) pictures →
        IsInTime w is.opening wanted.base is.entries →
        IsRgb format.sampling → k.format ≡ None →
        K.took l.sink ≡ K.took k.sink ++ flat_map pixmap_text pictures }
{}

/// So of the command's file: what `follow` wrote there of such files is the YUV4MPEG2 file of the
/// pictures that `send` was given (`ycc`), or their portable pixmaps (`rgb`).
pub fn sent_and_followed_file<B: Allocator>()
    ensures ycc { (wanted : Sending) (text : List ℕ) (format : Format) (first : Values)
        (others : List Values) (capture : List ℕ) (w : FollowAsked) (sdp : Option (List ℕ))
        (ways : List (Result Flows Refusal))
        (files : List (Side B Replayed × Side B Replayed)) (filling : Filling)
        (fill : Option (List ℕ)) (out out' : FileOutput) (report report' : Option FileOutput)
        (directory directory' : Option PictureDirectory) (printed printed' : List ℕ)
        (sent : IsSentFile wanted text format (first ∷ others) capture)
        (is : FollowsFiles w sdp ways files filling fill (outputs_of (Some out) report directory)
        (outputs_of (Some out') report' directory') printed printed') →
        BringDatagrams (SideRead replayed_gave replayed_ended) ways files sent.datagrams →
        AwaitsPictures is.follows.opening (run_sender format wanted) (first ∷ others) →
        IsInTime w is.follows.opening wanted.base is.follows.entries →
        IsYcc format.sampling →
        file_took out' ≡ file_took out ++ y4m_text format (first ∷ others) }
    ensures rgb { (wanted : Sending) (text : List ℕ) (format : Format)
        (pictures : List Values) (capture : List ℕ) (w : FollowAsked) (sdp : Option (List ℕ))
        (ways : List (Result Flows Refusal))
        (files : List (Side B Replayed × Side B Replayed)) (filling : Filling)
        (fill : Option (List ℕ)) (out out' : FileOutput) (report report' : Option FileOutput)
        (directory directory' : Option PictureDirectory) (printed printed' : List ℕ)
        (sent : IsSentFile wanted text format pictures capture)
        (is : FollowsFiles w sdp ways files filling fill (outputs_of (Some out) report directory)
        (outputs_of (Some out') report' directory') printed printed') →
        BringDatagrams (SideRead replayed_gave replayed_ended) ways files sent.datagrams →
        AwaitsPictures is.follows.opening (run_sender format wanted) pictures →
        IsInTime w is.follows.opening wanted.base is.follows.entries →
        IsRgb format.sampling →
        file_took out' ≡ file_took out ++ flat_map pixmap_text pictures }
{}

/// And of its pictures as files: the files that took their names are those of the pictures that
/// `send` was given, of any sampling, each octet for octet, by its timestamp.
pub fn sent_and_followed_pictures<B: Allocator>()
    ensures { (wanted : Sending) (text : List ℕ) (format : Format) (pictures : List Values)
        (capture : List ℕ) (w : FollowAsked) (sdp : Option (List ℕ))
        (ways : List (Result Flows Refusal))
        (files : List (Side B Replayed × Side B Replayed)) (filling : Filling)
        (fill : Option (List ℕ)) (out out' report report' : Option FileOutput)
        (directory directory' : PictureDirectory) (printed printed' : List ℕ)
        (sent : IsSentFile wanted text format pictures capture)
        (is : FollowsFiles w sdp ways files filling fill
        (outputs_of out report (Some directory)) (outputs_of out' report' (Some directory'))
        printed printed') →
        BringDatagrams (SideRead replayed_gave replayed_ended) ways files sent.datagrams →
        AwaitsPictures is.follows.opening (run_sender format wanted) pictures →
        IsInTime w is.follows.opening wanted.base is.follows.entries →
        filed_files directory'.directory ≡ filed_files directory.directory
        ++ files_for (pictures_from (run_sender format wanted) 0 pictures) pictures }
{}

/// Against what a run of `follow_files` read no refusal speaks, where it succeeds (`followed`
/// there).
pub fn follow_unrefused<A: Allocator, S: ByteSource, P: PictureSink>()
    ensures { (w : FollowAsked) (sdp : Option (List ℕ)) (ways : List (Result Flows Refusal))
        (files : List (Side A S × Side A S)) (octets : List (List ℕ)) (old new : P)
        (took took' : List ℕ) (totals : FollowTotals) (r : Refusal) →
        FollowsWhole w sdp ways (SideRead S.gave S.ended) files P.takes old new took took' totals →
        AllZip (SideRead S.gave S.ended) files octets →
        IsFollowRefusal w.frames w.ssrc.now sdp ways (SideRead S.gave S.ended) files r → ⊥ }
{}
