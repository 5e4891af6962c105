//! Laws on what `export` writes, as `import` and `receive` read it, over the definitions alone:
//! each is the contract of a function that does nothing. A caller has the premises of each from the
//! clauses of the calls.
//!
//! - The recording that was written has the records of the capture of which a packet was written,
//!   each with its path, its moment and its octets: `exported_again`. So it is received as the
//!   capture: `exported_and_received`.
//! - Imported it is those records: `imported_export`. So that is received as the capture:
//!   `imported_and_received`.
ghost use Rattle.std.specs.Prelude.{◌≡◌, ◌∷◌, ◌<◌, ◌^◌, [], ℕ, List, Option, None, Some, length};
ghost use Rattle.st_format.specs.Device.{AreOctets};
ghost use Rattle.st_format.specs.History.{since};
ghost use Rattle.flow.specs.declared.flows.Flows.{Flows};
ghost use Rattle.media_file.specs.Capture.{capture_text};
ghost use Rattle.pcap_file.specs.Runs.{fault_in, most_packet};
ghost use Rattle.recording_reader.specs.Files.{records_of_file};
ghost use Rattle.run_outcome.specs.Moments.{WasRead};
ghost use Rattle.run_outcome.specs.Text.{GivesText};
ghost use Rattle.capture_engines.specs.Files.{capture_datagrams, file_datagrams};
ghost use Rattle.capture_engines.specs.declared.way.Way.TheVariants.{Flows as ByFlows};
ghost use Rattle.export_engine.specs.Exported.{Exports};
ghost use Rattle.export_engine.specs.declared.packets.ExportCounts.{ExportCounts};
ghost use Rattle.recording_engines.specs.Files.{ended_by, gave_by};
ghost use Rattle.recording_engines.specs.Imported.{AsksFlows, Imports};
ghost use Rattle.recording_engines.specs.declared.file.ImportFile.{ImportFile};
ghost use Rattle.recording_engines.specs.declared.importing.ImportCounts.{ImportCounts as Sums};
ghost use Rattle.run_laws.specs.Exported.{HaveTwoPlaces, sent_records};
ghost use Rattle.run_laws.specs.Received.{IsReceivedFile};

use st_format::ByteSource;
use std::alloc::Allocator;

/// What a run of `export` wrote (`exported` there) is a recording without a fault (`sound`), which
/// has by the flows that it was given, where they are sent to two places, the records of which a
/// packet was written: with their paths, moments and octets, in their order (`records`). Where none
/// was left out these are all of the capture (`all`).
pub fn exported_again<S: ByteSource>()
    ensures sound { (a : List ℕ) (b : Option (List ℕ)) (counts : ExportCounts) (source later : S)
        (old new : List ℕ)
        (run : Exports a b counts (S.gave source) (S.gave later) (S.ended later) old new)
        → AreOctets (since old new) → length (since old new) < 2 ^ 64
        → fault_in most_packet (since old new) ≡ None }
    ensures records { (a : List ℕ) (b : Option (List ℕ)) (counts : ExportCounts)
        (source later : S) (old new : List ℕ)
        (run : Exports a b counts (S.gave source) (S.gave later) (S.ended later) old new)
        (text : List ℕ) (flows : Flows) → AsksFlows (Some a) b text flows
        → HaveTwoPlaces run.envelopes → AreOctets (since old new)
        → length (since old new) < 2 ^ 64 → records_of_file (Some flows) (since old new)
        ≡ sent_records run.envelopes run.exported.content.records }
    ensures all { (a : List ℕ) (b : Option (List ℕ)) (counts : ExportCounts) (source later : S)
        (old new : List ℕ)
        (run : Exports a b counts (S.gave source) (S.gave later) (S.ended later) old new)
        → counts.left_out ≡ 0 → sent_records run.envelopes run.exported.content.records
        ≡ run.exported.content.records }
{}

/// So where none was left out it is received, by those flows, as the capture: its datagrams are the
/// same (`datagrams`), and so is the receiver's file with the same words and SDP text, octet for
/// octet (`file`).
pub fn exported_and_received<S: ByteSource>()
    ensures datagrams { (a : List ℕ) (b : Option (List ℕ)) (counts : ExportCounts)
        (source later : S) (old new : List ℕ)
        (run : Exports a b counts (S.gave source) (S.gave later) (S.ended later) old new)
        (text : List ℕ) (flows : Flows) → AsksFlows (Some a) b text flows
        → HaveTwoPlaces run.envelopes → AreOctets (since old new)
        → length (since old new) < 2 ^ 64 → AreOctets (since (S.gave source) (S.gave later))
        → counts.left_out ≡ 0 → file_datagrams (ByFlows flows) (since old new)
        ≡ capture_datagrams (since (S.gave source) (S.gave later)) }
    ensures file { (a : List ℕ) (b : Option (List ℕ)) (counts : ExportCounts)
        (source later : S) (old new : List ℕ)
        (run : Exports a b counts (S.gave source) (S.gave later) (S.ended later) old new)
        (text : List ℕ) (flows : Flows) (window by said file other : List ℕ)
        → AsksFlows (Some a) b text flows → HaveTwoPlaces run.envelopes
        → AreOctets (since old new) → length (since old new) < 2 ^ 64
        → AreOctets (since (S.gave source) (S.gave later)) → counts.left_out ≡ 0
        → IsReceivedFile window by said
        (capture_datagrams (since (S.gave source) (S.gave later))) file
        → IsReceivedFile window by said (file_datagrams (ByFlows flows) (since old new)) other
        → file ≡ other }
{}

/// An `import` of what `export` wrote, by the flows that it was given (`imported` there), where
/// they are sent to two places: the records of which a packet was written (`records`), in a capture
/// with the SDP text that was read (`written`).
pub fn imported_export<A: Allocator, D: ByteSource, S: ByteSource, T: ByteSource>()
    ensures records { (a : List ℕ) (b : Option (List ℕ)) (counts : ExportCounts)
        (source later : S) (old new : List ℕ)
        (run : Exports a b counts (S.gave source) (S.gave later) (S.ended later) old new)
        (sdp sdp_later : D) (file file_later : ImportFile A T)
        (took took' shown shown' : List ℕ) (sums : Sums)
        (taken : Imports (Some a) b
        (GivesText 65535 (D.gave sdp) (D.gave sdp_later) (D.ended sdp_later))
        (WasRead (gave_by T.gave) (ended_by T.ended)) ((file, file_later) ∷ []) took took' shown
        shown' sums) → since (gave_by T.gave file) (gave_by T.gave file_later) ≡ since old new
        → HaveTwoPlaces run.envelopes → AreOctets (since old new)
        → length (since old new) < 2 ^ 64
        → taken.entries ≡ sent_records run.envelopes run.exported.content.records }
    ensures written { (a : List ℕ) (b : Option (List ℕ)) (sdp sdp_later : D)
        (file file_later : ImportFile A T) (took took' shown shown' : List ℕ) (sums : Sums)
        (taken : Imports (Some a) b
        (GivesText 65535 (D.gave sdp) (D.gave sdp_later) (D.ended sdp_later))
        (WasRead (gave_by T.gave) (ended_by T.ended)) ((file, file_later) ∷ []) took took' shown
        shown' sums) → since took took' ≡ capture_text taken.text taken.entries }
{}

/// So where none was left out it is received as the capture: its datagrams are the same
/// (`datagrams`), and so is the receiver's file with the same words and SDP text, octet for octet
/// (`file`).
pub fn imported_and_received<A: Allocator, D: ByteSource, S: ByteSource, T: ByteSource>()
    ensures datagrams { (a : List ℕ) (b : Option (List ℕ)) (counts : ExportCounts)
        (source later : S) (old new : List ℕ)
        (run : Exports a b counts (S.gave source) (S.gave later) (S.ended later) old new)
        (sdp sdp_later : D) (file file_later : ImportFile A T)
        (took took' shown shown' : List ℕ) (sums : Sums)
        (taken : Imports (Some a) b
        (GivesText 65535 (D.gave sdp) (D.gave sdp_later) (D.ended sdp_later))
        (WasRead (gave_by T.gave) (ended_by T.ended)) ((file, file_later) ∷ []) took took' shown
        shown' sums) → since (gave_by T.gave file) (gave_by T.gave file_later) ≡ since old new
        → HaveTwoPlaces run.envelopes → AreOctets (since old new)
        → length (since old new) < 2 ^ 64 → AreOctets (since (S.gave source) (S.gave later))
        → counts.left_out ≡ 0 → capture_datagrams (since took took')
        ≡ capture_datagrams (since (S.gave source) (S.gave later)) }
    ensures file { (a : List ℕ) (b : Option (List ℕ)) (counts : ExportCounts)
        (source later : S) (old new : List ℕ)
        (run : Exports a b counts (S.gave source) (S.gave later) (S.ended later) old new)
        (sdp sdp_later : D) (file file_later : ImportFile A T)
        (took took' shown shown' : List ℕ) (sums : Sums)
        (taken : Imports (Some a) b
        (GivesText 65535 (D.gave sdp) (D.gave sdp_later) (D.ended sdp_later))
        (WasRead (gave_by T.gave) (ended_by T.ended)) ((file, file_later) ∷ []) took took' shown
        shown' sums) (window by said received again : List ℕ)
        → since (gave_by T.gave file) (gave_by T.gave file_later) ≡ since old new
        → HaveTwoPlaces run.envelopes → AreOctets (since old new)
        → length (since old new) < 2 ^ 64 → AreOctets (since (S.gave source) (S.gave later))
        → counts.left_out ≡ 0 → IsReceivedFile window by said
        (capture_datagrams (since (S.gave source) (S.gave later))) received
        → IsReceivedFile window by said (capture_datagrams (since took took')) again
        → received ≡ again }
{}
