//! Laws on whole runs, over the definitions alone: each is the contract of a function that does
//! nothing. A caller of `receive` or `merge` has the premises of each from that call's own clauses.
//!
//! - What a run of `receive` wrote is a received file: `received_file`, and of files of either kind
//!   `received_files`; what one of `merge` did is a merged one: `merged_file`, `merged_files`.
//! - The same datagrams, the same file, octet for octet: `one_file`.
//! - Received in pieces and merged is received at once: `received_in_pieces`; in any tree:
//!   `received_in_trees`.
ghost use Rattle.std.specs.Prelude.{◌≡◌, ◌∷◌, ◌++◌, ℕ, Bool, List, [], Option, Result, Some};
ghost use Rattle.st_format.specs.History.{since};
ghost use Rattle.st_format.specs.Member.{SameDatagrams};
ghost use Rattle.flow.specs.declared.flows.Flows.{Flows};
ghost use Rattle.run_outcome.specs.Moments.{WasRead};
ghost use Rattle.run_outcome.specs.declared.refusal.Refusal.{Refusal};
ghost use Rattle.capture_engines.specs.Files.{files_datagrams};
ghost use Rattle.capture_engines.specs.Receiving.{SavesShown};
ghost use Rattle.capture_engines.specs.Taking.{Receives, ReceivesFiles, said_behind};
ghost use Rattle.receiver_engines.specs.MergedAll.{MergesAll, behind_each_other};
ghost use Rattle.receiver_engines.specs.Merging.{MergesFiles};
ghost use Rattle.run_laws.specs.Merged.{AreFilesOf, AreReceivedFiles, IsMergedFile, Trees};
ghost use Rattle.run_laws.specs.Merged.{datagrams_below};
ghost use Rattle.run_laws.specs.Received.{IsReceivedFile, all_read, datagrams_read, read_of};
ghost use Rattle.run_laws.specs.Received.{text_read};

use st_format::ByteSource;

/// What a run of `receive` that ended well wrote (`saved` and `taken` there) is the received file
/// of its words, the SDP text by which it opened its receiver, and the datagrams of all captures.
pub fn received_file<S: ByteSource>()
    ensures { (window source text : List ℕ) (sdp : Option (S × S)) (captures : List (S × S))
        (wanted : Bool) (shown printed old new : List ℕ)
        → SavesShown wanted shown printed old new
        → Receives window source sdp (WasRead S.gave S.ended) captures wanted shown printed old new
        → text_read S.gave sdp captures ≡ Some text
        → IsReceivedFile window source text (datagrams_read S.gave captures) (since old new) }
{}

/// So it is of files of either kind, captures and recordings of other tools (`receive_files`): the
/// datagrams are those of all files, each as it is taken.
pub fn received_files<S: ByteSource>()
    ensures { (window source text : List ℕ) (sdp : Option (List ℕ))
        (ways : List (Result Flows Refusal)) (files : List (S × S)) (wanted : Bool)
        (shown printed old new : List ℕ) → SavesShown wanted shown printed old new
        → ReceivesFiles window source sdp ways (WasRead S.gave S.ended) files wanted shown printed
        old new → said_behind sdp (all_read S.gave files) ≡ Some text
        → IsReceivedFile window source text (files_datagrams ways (all_read S.gave files))
        (since old new) }
{}

/// The same words, SDP text and datagrams make one file, octet for octet: whatever files brought
/// the datagrams, in whatever order, by whatever paths and with whatever repeats (SMPTE ST 2022-7).
pub fn one_file()
    ensures { (window source text : List ℕ) (xs ys : List (List ℕ)) (file other : List ℕ)
        → IsReceivedFile window source text xs file → IsReceivedFile window source text ys other
        → SameDatagrams xs ys → file ≡ other }
{}

/// What a run of `merge` that ended well wrote (`merged` there) is the merged file of the two that
/// it read.
pub fn merged_file<L: ByteSource, R: ByteSource>()
    ensures { (left : L × L) (right : R × R) (old new : List ℕ)
        → MergesFiles (WasRead L.gave L.ended left) (WasRead R.gave R.ended right) old new
        → IsMergedFile (read_of L.gave left) (read_of R.gave right ∷ []) (since old new) }
{}

/// What a run of `merge_all` that ended well wrote (`merged` there) is the merged file of all that
/// it read.
pub fn merged_files<S: ByteSource>()
    ensures { (first : S × S) (others : List (S × S)) (old new : List ℕ)
        → MergesAll (WasRead S.gave S.ended first) (WasRead S.gave S.ended) others old new
        → IsMergedFile (read_of S.gave first) (all_read S.gave others) (since old new) }
{}

/// Received in pieces and merged is received at once: received files of the same words and SDP
/// text, merged, are the received file of all their datagrams (SMPTE ST 2022-7).
pub fn received_in_pieces()
    ensures { (window source text : List ℕ) (datagrams : List (List ℕ))
        (lists : List (List (List ℕ))) (first : List ℕ) (others : List (List ℕ)) (file : List ℕ)
        → IsReceivedFile window source text datagrams first
        → AreReceivedFiles window source text lists others → IsMergedFile first others file
        → IsReceivedFile window source text (datagrams ++ behind_each_other lists) file }
{}

/// So in any tree of merges: its file is the one that is received at once, octet for octet.
pub fn received_in_trees()
    ensures { (window source text : List ℕ) (tree : Trees) (datagrams : List (List ℕ))
        (file at_once : List ℕ) → AreFilesOf window source text tree (file ∷ [])
        → IsReceivedFile window source text datagrams at_once
        → SameDatagrams (behind_each_other (datagrams_below tree)) datagrams → file ≡ at_once }
{}
