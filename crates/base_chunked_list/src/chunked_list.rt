// The list: full chunks, the one that is filled, and one that is taken before it is needed. It relies on `iter` for a walk over it.

ghost use Rattle.std.specs.Prelude.{◌≡◌, ◌↔◌, ◌*◌, List, IsTrue, false, ◌+◌, ◌<◌, ◌≤◌, ◌++◌, ◌∷◌, [], drop, length, slice_index_or, vec_capacity, Some, None, IsSome, IsOk, IfOk, OnOk, OnErr};
ghost use Rattle.base_chunked_list.specs.ChunkedState.{no_items};
ghost use Rattle.base_chunked_list.specs.Invariant.{AreFull, IsSpare, KeepsChunks, seen, spare_room};
ghost use Rattle.base_chunked_list.specs.Chunks.{items_of};

use crate::iter::Iter;
use std::alloc::{AllocError, Global};
use std::marker::Model;
use std::ops::Index;
use std::{fmt, mem};

/// How many values a chunk has room for.
pub const CHUNK: usize = 1024;

// How many chunks there may be beside the last one.
const MOST_FULL: usize = 1 << 40;

/// A list that grows at its end, and may forget its front. It takes memory a chunk at a time, and a value stays where it was pushed.
/// Contracts see its values in the order in which they were pushed, and how many there may be before more memory is taken.
#[derive(Drop)]
pub struct ChunkedList<T> {
    // how many values of the first chunk are forgotten
    gone: usize,
    // of CHUNK values each
    full: Vec<Vec<T>>,
    // of CHUNK values at most, for which it has room
    last: Vec<T>,
    // no value yet; where it is there, `full` has room for one chunk more
    spare: Option<Vec<T>>,
}

impl<T> Model for ChunkedList<T> {
    ghost use Rattle.base_chunked_list.specs.ChunkedState.{ChunkedState};

    ghost Value = { ChunkedState T };

    ghost use Rattle.base_chunked_list.specs.Invariant.{seen_from, KeepsFrom};

    ghost view = { λ list. seen_from list.gone list.full.items list.last.items list.spare };

    ghost invariant = { λ list. KeepsFrom list.gone list.full list.last list.spare };
}

// A chunk more, of which there is none yet, and room for it among the full ones. It fails too where there are MOST_FULL of these.
fn chunk_for<T>(full: &mut Vec<Vec<T>>) -> Result<Vec<T>, AllocError>
    ensures items { full.new.items ≡ full.old.items }
    ensures chunk { IfOk result (λ chunk. IsSpare full.new chunk) }
{
    if full.len() >= MOST_FULL {
        return Err(AllocError);
    }
    full.reserve(1)?;
    let alloc = *full.allocator();
    Vec::with_capacity(alloc, CHUNK)
}

// Makes place in the last chunk for one value, for which there is room: where that chunk is full, the spare one is the last.
fn make_place<T>(full: &mut Vec<Vec<T>>, last: &mut Vec<T>, spare: &mut Option<Vec<T>>)
    requires keeps { KeepsChunks full.old last.old spare.old }
    requires room { length last.old.items < CHUNK + spare_room spare.old }
    ensures keeps { KeepsChunks full.new last.new spare.new }
    ensures place { length last.new.items < CHUNK }
    ensures same { seen full.new.items last.new.items spare.new ≡ seen full.old.items last.old.items spare.old }
{
    if last.len() == CHUNK {
        match spare.take() {
            Some(empty) => full.push_reserved(mem::replace(last, empty)),
            None => unreachable!(),
        }
    }
}

// Drops the full chunks of which all values are among the first so many: how many of these there are still.
fn drop_chunks<T: Drop>(full: &mut Vec<Vec<T>>, mut gone: usize) -> usize
    requires { AreFull full.old.items }
    ensures full { AreFull full.new.items }
    ensures items { (last : List (T)) → drop result (items_of full.new.items ++ last) ≡ drop gone (items_of full.old.items ++ last) }
    ensures count { length full.new.items * CHUNK + gone ≡ length full.old.items * CHUNK + result }
    ensures fewer { result ≤ gone }
    ensures first { 0 < length full.new.items → result < CHUNK }
    ensures capacity { vec_capacity full.new ≡ vec_capacity full.old }
{
    while gone >= CHUNK && full.len() > 0 {
        drop(full.remove(0));
        gone -= CHUNK;
    }
    gone
}

// Whether there is room after the full chunks for so many values more.
fn has_room<T>(last: &Vec<T>, spare: &Option<Vec<T>>, more: usize) -> bool
    requires last { length last.now.items ≤ CHUNK }
    requires more { more ≤ CHUNK }
    ensures value { IsTrue result ↔ (length last.now.items + more ≤ CHUNK + spare_room spare.now) }
    ensures none { result ≡ false → spare.now ≡ None }
{
    spare.is_some() || last.len() + more <= CHUNK
}

impl<T> ChunkedList<T> {
    /// No value, and room for CHUNK.
    pub fn with_room(alloc: Global) -> Result<Self, AllocError>
        ensures { IfOk result (λ list. list ≡ no_items CHUNK) }
    {
        let last = Vec::with_capacity(alloc, CHUNK)?;
        Ok(ChunkedList {
            gone: 0,
            full: Vec::new(alloc),
            last,
            spare: None,
        })
    }

    /// How many values there are.
    pub fn len(&self) -> usize
        ensures { result ≡ length self.now.items }
    {
        self.full.len() * CHUNK + self.last.len() - self.gone
    }

    /// Whether there is no value.
    pub fn is_empty(&self) -> bool
        ensures { IsTrue result ↔ (self.now.items ≡ []) }
    {
        self.len() == 0
    }

    /// Where its memory comes from.
    pub fn allocator(&self) -> &Global {
        self.full.allocator()
    }

    /// Makes room for so many values more, CHUNK at most. It takes memory only where there is no room: one chunk, and a place for it
    /// in the row of chunks. Where memory is refused nothing changes. It fails too, as if memory were refused, where 2^40 chunks are
    /// full.
    pub fn reserve(&mut self, more: usize) -> Result<(), AllocError>
        requires { more ≤ CHUNK }
        ensures items { self.new.items ≡ self.old.items }
        ensures room { OnOk result (length self.new.items + more ≤ self.new.capacity) }
        ensures kept { self.old.capacity ≤ self.new.capacity }
        ensures had_room { length self.old.items + more ≤ self.old.capacity → IsOk result × (self.new ≡ self.old) }
        ensures refused { OnErr result (self.new ≡ self.old) }
    {
        if has_room(&self.last, &self.spare, more) {
            return Ok(());
        }
        let chunk = chunk_for(&mut self.full)?;
        match mem::replace(&mut self.spare, Some(chunk)) {
            None => Ok(()),
            Some(_) => unreachable!(),
        }
    }

    /// One value more, for which there is room. It takes no memory.
    pub fn push_reserved(&mut self, value: T)
        requires { length self.old.items < self.old.capacity }
        ensures items { self.new.items ≡ self.old.items ++ value ∷ [] }
        ensures capacity { self.new.capacity ≡ self.old.capacity }
    {
        make_place(&mut self.full, &mut self.last, &mut self.spare);
        self.last.push_reserved(value);
    }

    /// Forgets so many values at the front. It gives back the memory of each chunk of which all are forgotten, but for the last one,
    /// which is filled anew.
    pub fn forget_first(&mut self, count: usize)
    where
        T: Drop,
        requires { count ≤ length self.old.items }
        ensures items { self.new.items ≡ drop count self.old.items }
        ensures capacity { self.old.capacity ≤ self.new.capacity + count }
    {
        self.gone = drop_chunks(&mut self.full, self.gone + count);
        if self.full.len() == 0 && self.gone == self.last.len() {
            self.last.clear();
            self.gone = 0;
        }
    }

    /// The values, in the order in which they were pushed.
    pub fn iter(&self) -> Iter<'_, T>
        ensures { result ≡ self.now.items }
    {
        Iter::new(&self.full, &self.last, self.gone)
    }
}

impl<T> Index<usize> for ChunkedList<T> {
    type Output = T;

    ghost can_index = { λ list place. place < length list.items };

    ghost index_gives = { λ list place value. value ≡ slice_index_or list.items place value };

    fn index(&self, place: usize) -> &T {
        let place = self.gone + place;
        let chunk = place / CHUNK;
        if chunk < self.full.len() {
            &self.full[chunk][place % CHUNK]
        } else {
            &self.last[place % CHUNK]
        }
    }
}

/// As a list of the values.
impl<T: fmt::Debug> fmt::Debug for ChunkedList<T> {
    fn fmt<W: fmt::Write>(&self, f: &mut fmt::Formatter<W>) -> fmt::Result {
        f.debug_list().entries(self.iter()).finish()
    }
}
