//! A run of `merge` and one of `receive`, and the law that their files are equal.
ghost use Rattle.std.specs.Prelude.{◌≡◌, ◌++◌, List, ℕ, OnOk, Some};
ghost use Rattle.std.specs.List.{zip};
ghost use Rattle.st_format.specs.History.{since};
ghost use Rattle.st_format.specs.Member.{SameDatagrams};
ghost use Rattle.run_outcome.specs.Moments.{pair};
ghost use Rattle.run_laws.specs.Received.{IsReceivedFile, datagrams_read, read_of, text_read};

use capture_engines::{Wanted, receive};
use receiver_engines::merge;
use run_laws::{merged_file, one_file, received_file, received_in_pieces};
use run_outcome::Fault;
use st_format::{ByteSink, ByteSource};
use std::alloc::Allocator;

/// Merges two received files into `merged`, and receives captures at once into `state`.
///
/// Where both runs end well, all opened by one SDP text, and the captures have the datagrams of the
/// two files, both write the same file.
///
/// # Errors
///
/// Those of [`merge`] and of [`receive`].
pub fn merge_and_receive<A, S, K, O>(
    alloc: A,
    wanted: Wanted<'_>,
    left: &mut S,
    right: &mut S,
    merged: &mut K,
    sdp: &mut Option<S>,
    captures: &mut [S],
    state: &mut K,
    output: &mut O,
) -> Result<(), Fault>
where
    A: Allocator + Copy,
    S: ByteSource,
    K: ByteSink,
    O: ByteSink,
    ensures { OnOk result ((text : List ℕ) (xs ys : List (List ℕ))
        → IsReceivedFile wanted.entry.window.now wanted.entry.ssrc.now text xs
        (read_of S.gave (left.old, left.new))
        → IsReceivedFile wanted.entry.window.now wanted.entry.ssrc.now text ys
        (read_of S.gave (right.old, right.new))
        → text_read S.gave (pair sdp.old sdp.new) (zip captures.old captures.new) ≡ Some text
        → SameDatagrams (xs ++ ys) (datagrams_read S.gave (zip captures.old captures.new))
        → since (K.took merged.old) (K.took merged.new)
        ≡ since (K.took state.old) (K.took state.new)) }
{
    merge(alloc, left, right, merged, output)?;
    receive(alloc, wanted, sdp, captures, state, output)?;
    merged_file::<S, S>();
    received_in_pieces();
    received_file::<S>();
    one_file();
    Ok(())
}
