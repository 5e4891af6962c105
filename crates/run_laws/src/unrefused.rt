//! Laws on refusals of whole runs, over the definitions alone: against what a run read that ended
//! well no refusal speaks. So a run's status is a function of what it read, where no device failed
//! and memory was there. Each is the contract of a function that does nothing; a caller has the
//! first premise from the clause of the call. That octets are below 256 is wanted, as the
//! conditions of faults are told of octets.
ghost use Rattle.std.specs.Prelude.{◌≡◌, ◌∷◌, ℕ, Bool, List, Option, None, Result, Some};
ghost use Rattle.std.specs.Prelude.{false, length};
ghost use Rattle.std.specs.List.{zip};
ghost use Rattle.st_format.specs.Device.{AreOctets};
ghost use Rattle.st_format.specs.History.{IsRead, since};
ghost use Rattle.st_format.specs.Member.{IsMember};
ghost use Rattle.flow.specs.declared.flows.Flows.{Flows};
ghost use Rattle.run_outcome.specs.Moments.{WasRead};
ghost use Rattle.run_outcome.specs.Text.{GivesText};
ghost use Rattle.run_outcome.specs.TextRefusals.{SaysCaptureText, SaysText};
ghost use Rattle.run_outcome.specs.declared.refusal.Refusal.{Refusal};
ghost use Rattle.capture_engines.specs.Looped.{IsLoopRefusal};
ghost use Rattle.capture_engines.specs.Looping.{Link, Loops};
ghost use Rattle.capture_engines.specs.MigrateRefused.{IsMigrateRefusal};
ghost use Rattle.capture_engines.specs.Migrating.{PrintsMigrated};
ghost use Rattle.capture_engines.specs.Received.{IsReceiveRefusal, IsReceivingRefusal};
ghost use Rattle.capture_engines.specs.Receiving.{SavesShown};
ghost use Rattle.capture_engines.specs.Sending.{SendsAll};
ghost use Rattle.capture_engines.specs.Sent.{IsSendRefusal};
ghost use Rattle.capture_engines.specs.Taking.{Receives, ReceivesFiles};
ghost use Rattle.capture_engines.specs.Typed.{SendsTyped};
ghost use Rattle.capture_engines.specs.declared.sender.Sending.{Sending};
ghost use Rattle.stream_sending.specs.Sent.{IsSentStreamRefusal, SendsStream};
ghost use Rattle.receiver_engines.specs.MergeAllRefused.{IsMergeAllRefusal};
ghost use Rattle.receiver_engines.specs.MergeRefused.{IsMergeRefusal};
ghost use Rattle.receiver_engines.specs.MergedAll.{MergesAll};
ghost use Rattle.receiver_engines.specs.Merging.{MergesFiles};
ghost use Rattle.receiver_engines.specs.Processing.{SendsSaidFiles};
ghost use Rattle.receiver_engines.specs.Refused.{IsSaidRunRefusal};
ghost use Rattle.receiver_engines.specs.Reporting.{Reports};
ghost use Rattle.receiver_engines.specs.States.{IsStateRefusal};
ghost use Rattle.receiver_engines.specs.declared.processing.Processing.{Processing};
ghost use Rattle.recording_engines.specs.Files.{ended_by, gave_by};
ghost use Rattle.recording_engines.specs.Imported.{Imports, IsImportRefusal};
ghost use Rattle.recording_engines.specs.declared.file.ImportFile.{ImportFile};
ghost use Rattle.recording_engines.specs.declared.importing.ImportCounts.{ImportCounts as Sums};
ghost use Rattle.script_engines.specs.Described.{DescribesVideo, IsUndescribed};
ghost use Rattle.script_engines.specs.Reading.{DoesScript, IsRefusedFor};
ghost use Rattle.script_engines.specs.Rehearsed.{IsRefusedScript, Rehearses};
ghost use Rattle.script_engines.specs.Traced.{IsUntraced, Traces};
ghost use Rattle.convert_engine.specs.Converting.{Converts, IsConvertRefusal};
ghost use Rattle.convert_engine.specs.declared.converting.Conversion.{Conversion};
ghost use Rattle.picture_engine.specs.Refused.{IsShowRefusal};
ghost use Rattle.picture_engine.specs.Shown.{ShowsFrame};
ghost use Rattle.picture_engine.specs.declared.asked.PictureAsked.{PictureAsked};
ghost use Rattle.export_engine.specs.ExportRefused.{IsExportRefusal};
ghost use Rattle.export_engine.specs.Exported.{PrintsExported};
ghost use Rattle.paced_export.specs.PacedExported.{PrintsPaced};
ghost use Rattle.paced_export.specs.PacedRefused.{IsPacedRefusal};
ghost use Rattle.inspect_engine.specs.Told.{IsInspectRefusal, Tells};
ghost use Rattle.inspect_engine.specs.declared.form.Form.{Form};
ghost use Rattle.stream_inspection.specs.Told.{IsStreamsRefusal, TellsStreams};
ghost use Rattle.stream_inspection.specs.declared.target.Wanted.{Wanted as StreamWanted};
ghost use Rattle.stream_inspection.specs.declared.text.Form.{Form as StreamForm};
ghost use Rattle.run_laws.specs.Received.{all_read, read_of};
ghost use Rattle.run_laws.specs.Streams.{HaveFew};

use st_format::ByteSource;
use std::alloc::Allocator;

/// Against what a run of `report` read that ended well (`reported` there) no refusal speaks.
pub fn report_unrefused<S: ByteSource>()
    ensures { (source later : S) (old new : List ℕ) (r : Refusal)
        → Reports (IsRead (S.gave source) (S.gave later) (S.ended later)) old new
        → AreOctets (since (S.gave source) (S.gave later))
        → IsStateRefusal (IsRead (S.gave source) (S.gave later) (S.ended later)) r → ⊥ }
{}

/// The same of a run of `merge_all` (`merged` there).
pub fn merge_unrefused<S: ByteSource>()
    ensures { (first : S × S) (others : List (S × S)) (old new : List ℕ) (r : Refusal)
        → MergesAll (WasRead S.gave S.ended first) (WasRead S.gave S.ended) others old new
        → ((s : S × S) → IsMember s (first ∷ others) → AreOctets (read_of S.gave s))
        → IsMergeAllRefusal (WasRead S.gave S.ended first) (WasRead S.gave S.ended) others r
        → ⊥ }
{}

/// The same of a run of `merge`, of two receivers (`merged` there).
pub fn merge_two_unrefused<L: ByteSource, R: ByteSource>()
    ensures { (left left_later : L) (right right_later : R) (old new : List ℕ) (r : Refusal)
        → MergesFiles (IsRead (L.gave left) (L.gave left_later) (L.ended left_later))
        (IsRead (R.gave right) (R.gave right_later) (R.ended right_later)) old new
        → AreOctets (since (L.gave left) (L.gave left_later))
        → AreOctets (since (R.gave right) (R.gave right_later))
        → IsMergeRefusal (IsRead (L.gave left) (L.gave left_later) (L.ended left_later))
        (IsRead (R.gave right) (R.gave right_later) (R.ended right_later)) r → ⊥ }
{}

/// The same of a run of `process_said` (`sent` there), where an SDP text may be given; with none
/// and an empty text, of one of `process`.
pub fn process_unrefused<S: ByteSource>()
    ensures { (wanted : Processing) (sdp sdp_later : Option S) (states : List (S × S))
        (hold : Option (S × S)) (text old new : List ℕ) (count : ℕ) (r : Refusal)
        → SaysText S.gave S.ended sdp sdp_later text
        → SendsSaidFiles text (WasRead S.gave S.ended) states hold wanted.job.now
        wanted.timestamp wanted.fill.now wanted.max_octets wanted.stamp old new count
        → ((s : S × S) → IsMember s states → AreOctets (read_of S.gave s))
        → ((s : S × S) → hold ≡ Some s → AreOctets (read_of S.gave s))
        → IsSaidRunRefusal (WasRead S.gave S.ended) sdp sdp_later states hold wanted r → ⊥ }
{}

/// The same of a run of `loop` (`looped` there).
pub fn loop_unrefused<S: ByteSource>()
    ensures { (max limit : ℕ) (source later : S) (before after : Link) (old new : List ℕ)
        (r : Refusal) → Loops max limit (IsRead (S.gave source) (S.gave later) (S.ended later))
        before after old new
        → AreOctets (since (S.gave source) (S.gave later))
        → IsLoopRefusal max (IsRead (S.gave source) (S.gave later) (S.ended later)) r → ⊥ }
{}

/// The same of a run of `export` (`exported` there).
pub fn export_unrefused<S: ByteSource>()
    ensures { (a : List ℕ) (b : Option (List ℕ)) (source later : S)
        (old new shown printed : List ℕ) (r : Refusal)
        → PrintsExported a b (S.gave source) (S.gave later) (S.ended later) old new shown printed
        → AreOctets (since (S.gave source) (S.gave later))
        → IsExportRefusal a b (IsRead (S.gave source) (S.gave later) (S.ended later)) r → ⊥ }
{}

/// The same of a run of `export_paced` (`exported` there), of both readings.
pub fn export_paced_unrefused<S: ByteSource>()
    ensures { (start : ℕ) (a : List ℕ) (b : Option (List ℕ))
        (ahead ahead_later capture later : S) (old new shown printed : List ℕ) (r : Refusal)
        → PrintsPaced start a b (S.gave ahead) (S.gave ahead_later) (S.ended ahead_later)
        (S.gave capture) (S.gave later) (S.ended later) old new shown printed
        → AreOctets (since (S.gave ahead) (S.gave ahead_later))
        → AreOctets (since (S.gave capture) (S.gave later))
        → IsPacedRefusal a b (IsRead (S.gave ahead) (S.gave ahead_later) (S.ended ahead_later))
        (IsRead (S.gave capture) (S.gave later) (S.ended later)) r → ⊥ }
{}

/// The same of a run of `sdp` (`printed` of `describe`).
pub fn sdp_unrefused<S: ByteSource>()
    ensures { (source later : S) (old new : List ℕ) (r : Refusal)
        → DoesScript DescribesVideo (S.gave source) (S.gave later) (S.ended later) old new
        → IsRefusedFor IsUndescribed (S.gave source) (S.gave later) (S.ended later) r → ⊥ }
{}

/// The same of a run of `trace` (`traces` there).
pub fn trace_unrefused<S: ByteSource>()
    ensures { (source later : S) (old new : List ℕ) (r : Refusal)
        → DoesScript Traces (S.gave source) (S.gave later) (S.ended later) old new
        → IsRefusedFor IsUntraced (S.gave source) (S.gave later) (S.ended later) r → ⊥ }
{}

/// The same of a run of `rehearse` (`rehearses` there).
pub fn rehearse_unrefused<A: Allocator, S: ByteSource>()
    ensures { (source later : S) (old new : List ℕ) (r : Refusal)
        → DoesScript (Rehearses A) (S.gave source) (S.gave later) (S.ended later) old new
        → IsRefusedFor IsRefusedScript (S.gave source) (S.gave later) (S.ended later) r → ⊥ }
{}

/// The same of a run of `send` (`sent` there).
pub fn send_unrefused<S: ByteSource>()
    ensures { (wanted : Sending) (sdp sdp_later : Option S) (pictures later : List S)
        (old new shown printed : List ℕ) (r : Refusal)
        → SendsAll S.gave S.ended wanted sdp sdp_later pictures later old new shown printed
        → ((s : S × S) → IsMember s (zip pictures later) → AreOctets (read_of S.gave s))
        → IsSendRefusal wanted.max_octets (length pictures) sdp sdp_later
        (WasRead S.gave S.ended) (zip pictures later) r → ⊥ }
{}

/// The same of a run of `send_typed` (`sent` there).
pub fn send_typed_unrefused<S: ByteSource>()
    ensures { (wanted : Sending) (sdp sdp_later : Option S) (pictures later : List S)
        (old new shown printed : List ℕ) (r : Refusal)
        → SendsTyped S.gave S.ended wanted sdp sdp_later pictures later old new shown printed
        → ((s : S × S) → IsMember s (zip pictures later) → AreOctets (read_of S.gave s))
        → IsSendRefusal wanted.max_octets (length pictures) sdp sdp_later
        (WasRead S.gave S.ended) (zip pictures later) r → ⊥ }
{}

/// The same of a run of `send_stream` (`sent` there), whatever the octets.
pub fn send_stream_unrefused<S: ByteSource>()
    ensures { (by_sdp : Bool) (wanted : Sending) (sdp sdp_later : Option S) (stream later : S)
        (old new shown printed : List ℕ) (r : Refusal)
        → SendsStream S.gave S.ended by_sdp wanted sdp sdp_later
        (IsRead (S.gave stream) (S.gave later) (S.ended later)) old new shown printed
        → IsSentStreamRefusal wanted.max_octets sdp sdp_later (WasRead S.gave S.ended)
        (IsRead (S.gave stream) (S.gave later) (S.ended later)) r → ⊥ }
{}

/// The same of a run of `inspect` (`told` there), whatever the octets.
pub fn inspect_unrefused<S: ByteSource>()
    ensures { (form : Form) (recordings : List (S × S)) (shown printed : List ℕ) (r : Refusal)
        → Tells form (WasRead S.gave S.ended) recordings false shown printed
        → IsInspectRefusal form (WasRead S.gave S.ended) recordings shown printed r → ⊥ }
{}

/// The same of a run of `migrate` (`migrated` and `described` there), whatever the octets.
pub fn migrate_unrefused<D: ByteSource, S: ByteSource>()
    ensures { (sdp sdp_later : D) (source later : S) (old new shown printed : List ℕ)
        (r : Refusal) → PrintsMigrated
        (GivesText 65535 (D.gave sdp) (D.gave sdp_later) (D.ended sdp_later))
        (S.gave source) (S.gave later) (S.ended later) old new shown printed
        → SaysCaptureText (IsRead (D.gave sdp) (D.gave sdp_later) (D.ended sdp_later))
        → IsMigrateRefusal (IsRead (D.gave sdp) (D.gave sdp_later) (D.ended sdp_later))
        (IsRead (S.gave source) (S.gave later) (S.ended later)) r → ⊥ }
{}

/// The same of a run of `convert` (`converted` there).
pub fn convert_unrefused<S: ByteSource>()
    ensures { (asked : Conversion) (source later : S) (old new : List ℕ) (r : Refusal)
        → Converts asked (IsRead (S.gave source) (S.gave later) (S.ended later)) old new
        → AreOctets (since (S.gave source) (S.gave later))
        → IsConvertRefusal asked (IsRead (S.gave source) (S.gave later) (S.ended later)) r → ⊥ }
{}

/// The same of a run of `picture` (`shown` there).
pub fn picture_unrefused<S: ByteSource>()
    ensures { (asked : PictureAsked) (state later : S) (hold : Option (S × S)) (old new : List ℕ)
        (r : Refusal)
        → ShowsFrame (IsRead (S.gave state) (S.gave later) (S.ended later))
        (WasRead S.gave S.ended) hold asked old new
        → AreOctets (since (S.gave state) (S.gave later))
        → ((s : S × S) → hold ≡ Some s → AreOctets (read_of S.gave s))
        → IsShowRefusal (IsRead (S.gave state) (S.gave later) (S.ended later))
        (WasRead S.gave S.ended) hold asked r → ⊥ }
{}

/// The same of a run of `receive` (`saved` and `taken` there), whatever the octets.
pub fn receive_unrefused<S: ByteSource>()
    ensures { (window source : List ℕ) (sdp : Option (S × S)) (captures : List (S × S))
        (wanted : Bool) (shown printed old new : List ℕ) (r : Refusal)
        → SavesShown wanted shown printed old new
        → Receives window source sdp (WasRead S.gave S.ended) captures wanted shown printed old new
        → IsReceiveRefusal window source sdp (WasRead S.gave S.ended) captures r → ⊥ }
{}

/// The same of a run of `receive_files` (`saved` and `taken` there), whatever the octets.
pub fn receive_files_unrefused<S: ByteSource>()
    ensures { (window source : List ℕ) (sdp : Option (List ℕ)) (ways : List (Result Flows Refusal))
        (files : List (S × S)) (wanted : Bool) (shown printed old new : List ℕ) (r : Refusal)
        → SavesShown wanted shown printed old new
        → ReceivesFiles window source sdp ways (WasRead S.gave S.ended) files wanted shown printed
        old new → IsReceivingRefusal window source sdp ways (WasRead S.gave S.ended) files r → ⊥ }
{}

/// The same of a run of `import` (`imported` there), whatever the octets, and whatever its refusal
/// would have left written (`other`).
pub fn import_unrefused<A: Allocator, D: ByteSource, S: ByteSource>()
    ensures { (a b : Option (List ℕ)) (sdp sdp_later : D)
        (files : List (ImportFile A S × ImportFile A S))
        (took took' shown shown' other other' : List ℕ) (sums : Sums) (r : Refusal)
        → Imports a b (GivesText 65535 (D.gave sdp) (D.gave sdp_later) (D.ended sdp_later))
        (WasRead (gave_by S.gave) (ended_by S.ended)) files took took' shown shown' sums
        → IsImportRefusal a b (IsRead (D.gave sdp) (D.gave sdp_later) (D.ended sdp_later))
        (GivesText 65535 (D.gave sdp) (D.gave sdp_later) (D.ended sdp_later))
        (WasRead (gave_by S.gave) (ended_by S.ended)) files other other' r → ⊥ }
{}

/// The same of a run of `inspect_streams` (`inspected` there), whatever the octets, over files that
/// have fewer records each than `receive` takes.
pub fn inspect_streams_unrefused<S: ByteSource>()
    ensures { (wanted : StreamWanted) (form : StreamForm) (sdp : Option (List ℕ))
        (ways : List (Result Flows Refusal)) (files : List (S × S))
        (shown printed other other' : List ℕ) (r : Refusal)
        → TellsStreams wanted form sdp ways (WasRead S.gave S.ended) files None shown printed
        → HaveFew ways (all_read S.gave files)
        → IsStreamsRefusal wanted form sdp ways (WasRead S.gave S.ended) files other other' r → ⊥ }
{}
