//! A list of flags, kept as bits.
ghost use Rattle.std.specs.Prelude.{◌≡◌, ◌<◌, ◌≤◌, ◌+◌, ◌*◌, ◌/◌, ◌==◌, ◌||◌, ℕ, IfOk, true, false};
ghost use Rattle.std.specs.Prelude.{length, get_or, replicate, set};
ghost use Rattle.packet_numbers.specs.BitList.{flag_at, union_of_flags};

use std::alloc::{AllocError, Allocator, Global};
use std::marker::Model;

const FLAGS: usize = 64;

/// A list of flags, one bit for each, whose length stays.
#[derive(Drop)]
pub struct BitList<A: Allocator = Global> {
    count: usize,
    words: Vec<u64, A>,
}

impl<A: Allocator> Model for BitList<A> {
    ghost use Rattle.std.specs.Prelude.{◌<◌, ◌≤◌, ◌+◌, ◌*◌, Bool, List, length};
    ghost use Rattle.packet_numbers.specs.BitList.{flags_of};

    ghost Value = { List Bool };

    ghost view = { λ b. flags_of b.words.items b.count };

    ghost invariant = { λ b. (b.count ≤ 64 * length b.words.items)
        × (64 * length b.words.items < b.count + 64) };
}

impl<A: Allocator> BitList<A> {
    /// Flags of which none is set. An `Err` comes only where the allocator refused the memory.
    pub fn new(alloc: A, count: usize) -> Result<BitList<A>, AllocError>
        ensures { IfOk result (λ b. b ≡ replicate count false) }
    {
        let words = Vec::from_elem(alloc, 0, count.div_ceil(FLAGS))?;
        Ok(BitList { count, words })
    }

    /// How many flags there are: as many as it was made with.
    pub fn len(&self) -> usize
        ensures { result ≡ length self.now }
    {
        self.count
    }

    /// The flag at a place, which is below the length.
    pub fn get(&self, place: usize) -> bool
        requires { place < length self.now }
        ensures { result ≡ get_or self.now place false }
    {
        is_set(&self.words, place)
    }

    /// Sets the flag at a place, which is below the length. None is ever unset.
    pub fn set(&mut self, place: usize)
        requires { place < length self.old }
        ensures { self.new ≡ set self.old place true }
    {
        set_flag(self.words.as_mut_slice(), place);
    }

    /// Sets each flag that is set in the other list, which is as long.
    pub fn absorb<B: Allocator>(&mut self, other: &BitList<B>)
        requires { length self.old ≡ length other.now }
        ensures { self.new ≡ union_of_flags self.old other.now }
    {
        or_words(self.words.as_mut_slice(), &other.words);
    }
}

/// Whether bit `place % 64` of word `place / 64` is set.
fn is_set(words: &[u64], place: usize) -> bool
    requires { place < 64 * length words.now }
    ensures { result ≡ flag_at words.now place }
{
    (words[place / FLAGS] >> (place % FLAGS)) & 1 == 1
}

/// Sets bit `place % 64` of word `place / 64`.
fn set_flag(words: &mut [u64], place: usize)
    requires { place < 64 * length words.old }
    ensures { (k : ℕ) → flag_at words.new k ≡ (k == place || flag_at words.old k) }
{
    words[place / FLAGS] |= 1 << (place % FLAGS);
}

/// Sets each flag that is set in the other words, a word at a time.
fn or_words(words: &mut [u64], others: &[u64])
    requires { length words.old ≡ length others.now }
    ensures { (k : ℕ) → k < 64 * length words.old
        → flag_at words.new k ≡ (flag_at words.old k || flag_at others.now k) }
{
    for (i, other) in others.iter().enumerate() {
        words[i] |= *other;
    }
}
