//! Two runs of `receive`, and the law that their files are equal.
ghost use Rattle.std.specs.Prelude.{◌≡◌, List, ℕ, OnOk, Some};
ghost use Rattle.std.specs.List.{zip};
ghost use Rattle.st_format.specs.History.{since};
ghost use Rattle.st_format.specs.Member.{SameDatagrams};
ghost use Rattle.run_outcome.specs.Moments.{pair};
ghost use Rattle.run_laws.specs.Received.{datagrams_read, text_read};

use capture_engines::{Wanted, receive};
use run_laws::{one_file, received_file};
use run_outcome::Fault;
use st_format::{ByteSink, ByteSource};
use std::alloc::Allocator;

/// Receives twice with the same words: some captures into `state`, and others into `other_state`.
///
/// Where both runs end well, opened by one SDP text, and their captures have the same datagrams,
/// both write the same file. What each run's clauses say is what the laws ask for.
///
/// # Errors
///
/// Those of [`receive`].
pub fn receive_twice<A, S, K, O>(
    alloc: A,
    wanted: Wanted<'_>,
    sdp: &mut Option<S>,
    captures: &mut [S],
    state: &mut K,
    other_sdp: &mut Option<S>,
    others: &mut [S],
    other_state: &mut K,
    output: &mut O,
) -> Result<(), Fault>
where
    A: Allocator + Copy,
    S: ByteSource,
    K: ByteSink,
    O: ByteSink,
    ensures { OnOk result ((text : List ℕ)
        → text_read S.gave (pair sdp.old sdp.new) (zip captures.old captures.new) ≡ Some text
        → text_read S.gave (pair other_sdp.old other_sdp.new) (zip others.old others.new)
        ≡ Some text
        → SameDatagrams (datagrams_read S.gave (zip captures.old captures.new))
        (datagrams_read S.gave (zip others.old others.new))
        → since (K.took state.old) (K.took state.new)
        ≡ since (K.took other_state.old) (K.took other_state.new)) }
{
    receive(alloc, wanted, sdp, captures, state, output)?;
    receive(alloc, wanted, other_sdp, others, other_state, output)?;
    received_file::<S>();
    one_file();
    Ok(())
}
