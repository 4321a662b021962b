// What is known of a program's stack at a place: for each live frame a set of bytes that are written on every path to
// it. Clauses speak of the frames that a description covers. It relies on `bpf_stack_frame` for sets of bytes, and on
// `padded_list` for how they are kept.

ghost use Rattle.std.specs.Prelude.{◌≡◌, ◌<◌, ◌≤◌, ◌+◌, ◌-◌, ◌*◌, ◌↔◌, ◌⊎◌, ◌&&◌, false, ℕ, List, [], ◌∷◌, ◌++◌, Option, IsTrue, length, slice_index_or};
ghost use Rattle.bpf_stack_frame.specs.ByteSet.{Has};
ghost use Rattle.bpf_stack_frame.specs.declared.byte_set.TheConstants.{MOST_BYTES};
ghost use Rattle.stack_domain.specs.Stack.{MarksCover, Knows, AreWritten};
ghost use Rattle.stack_domain.specs.Stores.{stored};

use base::PaddedList;
use bpf_stack_frame::{ByteSet, MAX_FRAMES};
use std::marker::Model;

/// Which bytes are known to be written in each live frame, from 1 to `MAX_FRAMES` of them, the outermost being 0.
#[derive(Clone, Copy, Debug, PartialEq, Eq)]
pub struct Stack {
    sets: PaddedList<ByteSet, MAX_FRAMES>,
}

impl Model for Stack {
    ghost use Rattle.std.specs.Prelude.{List, Bool};
    ghost use Rattle.stack_domain.specs.Sets.{AreSets};

    ghost Value = { List (List Bool) };

    ghost view = { λ s. s.sets };

    ghost invariant = { λ s. AreSets s.sets };

    ghost inverse = { λ stack. record { sets = stack } };
}

impl Stack {
    /// The outermost frame, of which no byte is known to be written.
    pub fn outermost() -> Self
        ensures depth { length result ≡ 1 }
        ensures covers { (frame : List (Option ℕ)) → length frame ≡ 512 → MarksCover result (frame ∷ []) }
    {
        let mut sets = PaddedList::none();
        sets.push_blank();
        Stack { sets }
    }

    /// How many frames are live.
    pub fn depth(&self) -> usize
        ensures frames { result ≡ length self.now }
        ensures some { 1 ≤ result }
        ensures few { result ≤ MAX_FRAMES }
    {
        self.sets.len()
    }

    /// One live frame more, the innermost, of which no byte is known to be written.
    pub fn opened(&self) -> Self
        requires { length self.now < MAX_FRAMES }
        ensures depth { length result ≡ length self.now + 1 }
        ensures covers { (frames : List (List (Option ℕ))) (frame : List (Option ℕ)) → (MarksCover result (frames ++ frame ∷ []) ↔ (MarksCover self.now frames × (length frame ≡ 512))) }
    {
        let mut sets = self.sets;
        sets.push_blank();
        Stack { sets }
    }

    /// The innermost frame is gone.
    pub fn closed(&self) -> Self
        requires { 1 < length self.now }
        ensures depth { length result + 1 ≡ length self.now }
        ensures covers { (frames : List (List (Option ℕ))) (frame : List (Option ℕ)) → MarksCover self.now (frames ++ frame ∷ []) → MarksCover result frames }
        ensures knows { (k offset : ℕ) → k < length result → Knows self.now k offset → Knows result k offset }
    {
        let mut sets = self.sets;
        sets.remove_last();
        Stack { sets }
    }

    /// After a store at a known offset: `count` bytes of a frame, at most `MOST_BYTES`, are written from there on.
    pub fn mark(&mut self, frame: usize, offset: usize, count: usize)
        requires live { frame < length self.old }
        requires inside { offset + count ≤ 512 }
        requires few { count ≤ MOST_BYTES }
        ensures depth { length self.new ≡ length self.old }
        ensures stored { (frames : List (List (Option ℕ))) (bytes : List ℕ) → MarksCover self.old frames → length bytes ≡ count → MarksCover self.new (stored frames frame offset bytes) }
        ensures covers { (frames : List (List (Option ℕ))) → (MarksCover self.new frames ↔ (MarksCover self.old frames × AreWritten frames frame offset (offset + count))) }
    {
        let mut set = *self.sets.at(frame);
        set.insert_all(offset, count);
        self.sets.set(frame, set);
    }

    /// Whether a frame's bytes from `least` up to `most + count` are known to be written: all that `count` bytes may be
    /// which begin at some offset from `least` to `most`.
    pub fn is_written(&self, frame: usize, least: usize, most: usize, count: usize) -> bool
        requires live { frame < length self.now }
        requires order { least ≤ most }
        requires inside { most + count ≤ 512 }
        ensures { IsTrue result ↔ ((frames : List (List (Option ℕ))) → MarksCover self.now frames → AreWritten frames frame least (most + count)) }
    {
        self.sets
            .at(frame)
            .contains_all(least, most + count - least)
    }

    /// Eight bytes of a frame, from a multiple of 8 on, are known to be written no more.
    pub fn forget_word(&mut self, frame: usize, word: usize)
        requires live { frame < length self.old }
        requires inside { word < 64 }
        ensures depth { length self.new ≡ length self.old }
        ensures covers { (frames : List (List (Option ℕ))) → MarksCover self.old frames → MarksCover self.new frames }
        ensures knows { (k offset : ℕ) → (k ≡ frame → (offset < 8 * word) ⊎ (8 * word + 8 ≤ offset)) → Knows self.old k offset → Knows self.new k offset }
        ensures forgets { (offset : ℕ) → 8 * word ≤ offset → offset < 8 * word + 8 → Knows self.new frame offset → ⊥ }
    {
        let others = all_but(word);
        let left = self.sets.at(frame).intersection(&others);
        self.sets.set(frame, left);
    }

    /// What both know, as where two paths meet.
    pub fn join(&mut self, other: &Self)
        requires { length self.old ≡ length other.now }
        ensures depth { length self.new ≡ length self.old }
        ensures first { (frames : List (List (Option ℕ))) → MarksCover self.old frames → MarksCover self.new frames }
        ensures second { (frames : List (List (Option ℕ))) → MarksCover other.now frames → MarksCover self.new frames }
        ensures knows { (k offset : ℕ) → Knows self.old k offset → Knows other.now k offset → Knows self.new k offset }
    {
        intersect(&mut self.sets, &other.sets);
    }
}

// All bytes of a frame but eight, which begin at a multiple of 8.
fn all_but(word: usize) -> ByteSet
    ensures others { (k : ℕ) → k < 512 → ((k < 8 * word) ⊎ (8 * word + 8 ≤ k)) → Has result k }
    ensures none { (k : ℕ) → 8 * word ≤ k → k < 8 * word + 8 → slice_index_or result k false ≡ false }
{
    let mut others = ByteSet::empty();
    for other in 0..64 {
        if other != word {
            others.insert_all(8 * other, 8);
        }
    }
    others
}

// Leaves of each set what is in the other list's set at its place too.
fn intersect(sets: &mut PaddedList<ByteSet, MAX_FRAMES>, others: &PaddedList<ByteSet, MAX_FRAMES>)
    requires { length sets.old ≡ length others.now }
    ensures len { length sets.new ≡ length sets.old }
    ensures whole { (j : ℕ) → j < length sets.old → length (slice_index_or sets.new j []) ≡ 512 }
    ensures both { (j i : ℕ) → j < length sets.old → slice_index_or (slice_index_or sets.new j []) i false ≡ (slice_index_or (slice_index_or sets.old j []) i false && slice_index_or (slice_index_or others.now j []) i false) }
{
    for k in 0..sets.len() {
        let both = sets.at(k).intersection(others.at(k));
        sets.set(k, both);
    }
}
