// Sets of the bytes of a stack frame, kept as a bit for each byte, so that a word's bytes are added or looked up by
// masks. It relies on `alike` for which are the same, and on `base` for lists of sets.

ghost use Rattle.std.specs.Prelude.{◌≡◌, ◌<◌, ◌≤◌, ◌+◌, ◌-◌, ◌%◌, ◌^◌, ◌&&◌, ◌↔◌, ℕ, IsTrue, false, length, replicate, slice_index_or};
ghost use Rattle.bpf_stack_frame.specs.ByteSet.{no_bytes, with_all, HasAll};

use crate::alike::same_words;
use base::Blank;
use std::marker::Model;

/// The most bytes that are added at once.
pub const MOST_BYTES: usize = 64;

/// A set of the 512 bytes of a frame, by their offsets. Contracts see a list of 512 truth values, one for each byte.
#[derive(Clone, Copy, Debug, PartialEq, Eq)]
pub struct ByteSet {
    // a bit for each byte, 64 in a word, the lowest first
    words: [u64; 8],
}

impl Model for ByteSet {
    ghost use Rattle.std.specs.Prelude.{List, Bool};
    ghost use Rattle.bpf_stack_frame.specs.SetWords.{set_of, words_of, AreWords};

    ghost Value = { List Bool };

    ghost view = { λ s. set_of s.words };

    ghost invariant = { λ s. AreWords s.words };

    ghost inverse = { λ set. record { words = words_of set } };

    ghost inverse_ok = { λ s are i. record { words = are.same i } };
}

/// A word with `count` ones from bit `first` on, the lowest bit being 0.
#[inline(always)]
fn ones(first: usize, count: usize) -> u64
    requires { first + count ≤ 64 }
    ensures { result ≡ 2 ^ (first + count) - 2 ^ first }
{
    if count == 0 {
        0
    } else {
        (u64::MAX >> (64 - count)) << first
    }
}

impl Blank for ByteSet {
    ghost blank = { no_bytes };

    #[tactic(auto, unfolding(crate::specs::ByteSet::no_bytes))]
    fn blank() -> Self {
        ByteSet::empty()
    }

    fn is_same(&self, other: &Self) -> bool {
        same_words(&self.words, &other.words)
    }
}

impl ByteSet {
    /// No byte.
    pub fn empty() -> Self
        ensures { result ≡ replicate 512 false }
    {
        ByteSet { words: [0; 8] }
    }

    /// Whether no byte is in the set.
    pub fn is_empty(&self) -> bool
        ensures { IsTrue result ↔ (self.now ≡ replicate 512 false) }
    {
        self.is_same(&ByteSet::empty())
    }

    /// Whether the byte at that offset, from 0 to 511, is in the set.
    pub fn contains(&self, offset: usize) -> bool
        requires { offset < 512 }
        ensures { result ≡ slice_index_or self.now offset false }
    {
        (self.words[offset / 64] >> (offset % 64)) & 1 == 1
    }

    /// Whether `count` bytes from that offset on, which lie in one word, are all in the set.
    fn contains_in_word(&self, offset: usize, count: usize) -> bool
        requires inside { offset < 512 }
        requires in_word { offset % 64 + count ≤ 64 }
        ensures { IsTrue result ↔ HasAll self.now offset count }
    {
        let mask = ones(offset % 64, count);
        self.words[offset / 64] & mask == mask
    }

    /// Whether `count` bytes from that offset on, up to the frame's end, are all in the set.
    pub fn contains_all(&self, offset: usize, count: usize) -> bool
        requires { offset + count ≤ 512 }
        ensures { IsTrue result ↔ HasAll self.now offset count }
    {
        let end = offset + count;
        let mut from = offset;
        while from < end {
            let piece = (64 - from % 64).min(end - from);
            if !self.contains_in_word(from, piece) {
                return false;
            }
            from += piece;
        }
        true
    }

    /// Adds `count` bytes from that offset on, which lie in one word.
    #[inline(always)]
    fn insert_in_word(&mut self, offset: usize, count: usize)
        requires inside { offset < 512 }
        requires in_word { offset % 64 + count ≤ 64 }
        ensures { self.new ≡ with_all self.old offset count }
    {
        self.words[offset / 64] |= ones(offset % 64, count);
    }

    /// Adds `count` bytes from that offset on, at most `MOST_BYTES` and up to the frame's end.
    #[inline(always)]
    pub fn insert_all(&mut self, offset: usize, count: usize)
        requires inside { offset + count ≤ 512 }
        requires few { count ≤ MOST_BYTES }
        ensures { self.new ≡ with_all self.old offset count }
    {
        // The proof knows how many bytes there are once a field is read.
        let _words = &self.words;
        if count == 0 {
            return;
        }
        let room = 64 - offset % 64;
        if count <= room {
            self.insert_in_word(offset, count);
        } else {
            self.insert_in_word(offset, room);
            self.insert_in_word(offset + room, count - room);
        }
    }

    /// The bytes that are in both sets.
    pub fn intersection(&self, other: &Self) -> Self
        ensures bytes { (k : ℕ) → slice_index_or result k false ≡ (slice_index_or self.now k false && slice_index_or other.now k false) }
        ensures len { length result ≡ 512 }
    {
        let others = &other.words;
        let mut words = self.words;
        for k in 0..8 {
            words[k] &= others[k];
        }
        ByteSet { words }
    }
}
