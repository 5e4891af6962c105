//! Pictures' files, whose faults are told as an engine tells them.
ghost use Rattle.std.specs.Prelude.{◌∷◌, [], IfErr, IfOk, OnOk};
ghost use Rattle.st_format.specs.History.{GrewFrom, IsRead};
ghost use Rattle.run_outcome.specs.Fault.{Accounts, counts};
ghost use Rattle.run_outcome.specs.Refusing.{OfRefusal};
ghost use Rattle.run_outcome.specs.Pictures.{IsPictureRefusal, SaysPictureOf, SaysPicture};

use crate::fault::{Fault, of_picture};
use media_file::{read_packed_picture, read_picture};
use pgroup_pack::PackedPicture;
use st_format::{ByteSource, Picture};
use std::alloc::Allocator;

/// Reads a picture.
///
/// # Errors
///
/// A refusal (`Refusal::Picture`) where the octets are no picture's file, and else that a device or
/// the allocator failed.
pub fn read_unpacked<A: Allocator, S: ByteSource>(
    alloc: A,
    source: &mut S,
) -> Result<Picture<A>, Fault>
    ensures says { IfOk result (λ p. SaysPicture
        (IsRead (S.gave source.old) (S.gave source.new) (S.ended source.new)) p) }
    ensures refusal { IfErr result (λ f. OfRefusal f (IsPictureRefusal
        (IsRead (S.gave source.old) (S.gave source.new) (S.ended source.new)))) }
    ensures ended { OnOk result (S.ended source.new) }
    ensures grown { GrewFrom (S.gave source.old) (S.gave source.new) }
    ensures failures { Accounts result (counts (S.failures source.old) (S.failures source.new)
        ∷ []) }
{
    match read_picture(alloc, source) {
        Ok(picture) => Ok(picture),
        Err(fault) => Err(of_picture(fault)),
    }
}

/// Reads a picture into this memory, its pgroups packed.
pub fn read_packed<A: Allocator, S: ByteSource>(
    source: &mut S,
    room: Vec<u8, A>,
) -> Result<PackedPicture<A>, Fault>
    ensures shows { IfOk result (λ p. SaysPicture
        (IsRead (S.gave source.old) (S.gave source.new) (S.ended source.new)) p) }
    ensures says { IfOk result (λ p. SaysPictureOf
        (IsRead (S.gave source.old) (S.gave source.new) (S.ended source.new)) p.format) }
    ensures refusal { IfErr result (λ f. OfRefusal f (IsPictureRefusal
        (IsRead (S.gave source.old) (S.gave source.new) (S.ended source.new)))) }
    ensures ended { OnOk result (S.ended source.new) }
    ensures grown { GrewFrom (S.gave source.old) (S.gave source.new) }
    ensures failures { Accounts result (counts (S.failures source.old) (S.failures source.new)
        ∷ []) }
{
    match read_packed_picture(source, room) {
        Ok(picture) => Ok(picture),
        Err(fault) => Err(of_picture(fault)),
    }
}
