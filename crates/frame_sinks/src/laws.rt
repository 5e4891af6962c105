//! Laws of sinks of pictures. Each is the contract of a function that does nothing.
ghost use Rattle.std.specs.Prelude.{◌≡◌, ◌++◌, ◌∷◌, [], ℕ, List, None, Option, Result};
ghost use Rattle.std.specs.List.{AllByRecursion, flat_map};
ghost use Rattle.flow.specs.declared.flows.Flows.{Flows};
ghost use Rattle.follow_engine.specs.Events.{frames_of_events};
ghost use Rattle.follow_engine.specs.Followed.{FollowsWhole, followed_events};
ghost use Rattle.follow_engine.specs.Shown.{GrowsSome, TakesEachFrame};
ghost use Rattle.follow_engine.specs.Sides.{SideRead};
ghost use Rattle.follow_engine.specs.declared.opening.FollowAsked.{FollowAsked};
ghost use Rattle.follow_engine.specs.declared.telling.FollowTotals.{FollowTotals};
ghost use Rattle.following.specs.Following.{Handed};
ghost use Rattle.frame_sinks.specs.Files.{FilesFrame, files_for};
ghost use Rattle.frame_sinks.specs.Pictures.{form_stream, pictures_of};
ghost use Rattle.frame_sinks.specs.Sinks.{FailsFrame, FailsLines, SinkTakes, TakesBoth};
ghost use Rattle.frame_sinks.specs.Sinks.{TakesLines, frames_report};
ghost use Rattle.frame_sinks.specs.declared.both.BothSinks.{BothSinks};
ghost use Rattle.frame_sinks.specs.declared.files_sink.FilesSink.{FilesSink};
ghost use Rattle.frame_sinks.specs.declared.form_sink.FormSink.{FormSink};
ghost use Rattle.frame_sinks.specs.declared.report_sink.ReportSink.{ReportSink};
ghost use Rattle.picture_forms.specs.Layouts.{IsRgb, IsYcc, pixmap_text, y4m_text};
ghost use Rattle.run_outcome.specs.declared.refusal.Refusal.{Refusal};
ghost use Rattle.side_by_side.specs.declared.side.Side.{Side};
ghost use Rattle.st_format.specs.declared.format.Format.{Format};
ghost use Rattle.st_format.specs.Picture.{Values};

use crate::files_sink::PictureFiles;
use follow_engine::PictureSink;
use st_format::{ByteSink, ByteSource};
use std::alloc::Allocator;

/// What is written of frames that a sink takes one after the other is the stream of their pictures,
/// octet for octet.
pub fn written<K: ByteSink, A: Allocator>()
    ensures { (k l : FormSink K A) (hs : List Handed) → TakesEachFrame (SinkTakes K.took) k hs l
        → K.took l.sink ≡ K.took k.sink
        ++ form_stream k.format
        (pictures_of k.settling.filling k.settling.fill k.settling.held hs) }
{}

/// Where it failed at a last frame, what is written is a first part of the stream of the pictures
/// of all of them, that one among them.
pub fn cut<K: ByteSink, A: Allocator>()
    ensures { (k m l : FormSink K A) (hs : List Handed) (h : Handed) →
        TakesEachFrame (SinkTakes K.took) k hs m → FailsFrame K.took m h l →
        GrowsSome (K.took k.sink) (K.took l.sink) (form_stream k.format
        (pictures_of k.settling.filling k.settling.fill k.settling.held (hs ++ h ∷ []))) }
{}

/// So where files are followed: what is written is the stream of the pictures of all frames that
/// leave a follower of their records.
pub fn follows<K: ByteSink, A: Allocator, B: Allocator, S: ByteSource>()
    ensures { (w : FollowAsked) (sdp : Option (List ℕ)) (ways : List (Result Flows Refusal))
        (files : List (Side B S × Side B S)) (k l : FormSink K A) (printed printed' : List ℕ)
        (totals : FollowTotals) →
        (is : FollowsWhole w sdp ways (SideRead S.gave S.ended) files (SinkTakes K.took) k l
        printed printed' totals) → K.took l.sink ≡ K.took k.sink
        ++ form_stream k.format (pictures_of k.settling.filling k.settling.fill
        k.settling.held (frames_of_events (followed_events w is.opening is.entries))) }
{}

/// A stream of pictures of one format is a YUV4MPEG2 file of them where they are YCbCr, and where
/// they are RGB their portable pixmaps.
pub fn one_format()
    ensures ycc { (f : Format) (p : Values) (ps : List Values) → IsYcc f.sampling →
        AllByRecursion (λ q. q.format ≡ f) (p ∷ ps) →
        form_stream None (p ∷ ps) ≡ y4m_text f (p ∷ ps) }
    ensures rgb { (f : Format) (ps : List Values) → IsRgb f.sampling →
        AllByRecursion (λ q. q.format ≡ f) ps →
        form_stream None ps ≡ flat_map pixmap_text ps }
{}

/// What is written of frames that a sink of what they lack takes one after the other is what a
/// report has of each, octet for octet.
pub fn reported<K: ByteSink>()
    ensures { (k l : ReportSink K) (hs : List Handed) → TakesEachFrame (TakesLines K.took) k hs l
        → K.took l.sink ≡ K.took k.sink ++ frames_report hs }
{}

/// Where it failed at a last frame, what is written is a first part of what a report has of all of
/// them.
pub fn reported_cut<K: ByteSink>()
    ensures { (k m l : ReportSink K) (hs : List Handed) (h : Handed) →
        TakesEachFrame (TakesLines K.took) k hs m → FailsLines K.took m h l →
        GrowsSome (K.took k.sink) (K.took l.sink) (frames_report (hs ++ h ∷ [])) }
{}

/// The files that have their names of frames that a sink takes one after the other are those of the
/// frames' pictures, octet for octet, each by the name of its timestamp.
pub fn filed<F: PictureFiles + Drop, A: Allocator>()
    ensures { (k l : FilesSink F A) (hs : List Handed) → TakesEachFrame (FilesFrame F.files) k hs l
        → F.files l.files ≡ F.files k.files
        ++ files_for hs (pictures_of k.settling.filling k.settling.fill k.settling.held hs) }
{}

/// Frames that two sinks take as one are those that each of them takes.
pub fn both<P: PictureSink + Drop, Q: PictureSink + Drop>()
    ensures { (k l : BothSinks P Q) (hs : List Handed) →
        TakesEachFrame (TakesBoth P.takes Q.takes) k hs l →
        TakesEachFrame P.takes k.first hs l.first × TakesEachFrame Q.takes k.second hs l.second }
{}
