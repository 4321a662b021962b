// A walk over a list in chunks. It relies on nothing.

ghost use Rattle.std.specs.Prelude.{◌≡◌, ◌<◌, ◌≤◌, ◌++◌, drop, length, All};
ghost use Rattle.std.specs.Iterator.{YieldsFirstRef, item_count};
ghost use Rattle.base_chunked_list.specs.Chunks.{items_of, AreNotEmpty};
ghost use Rattle.base_chunked_list.specs.Invariant.{AreFull};
ghost use Rattle.base_chunked_list.specs.declared.chunked_list.TheConstants.{CHUNK};

use std::marker::Model;

/// The values of a list, in their order. Contracts see those that are left.
#[derive(Drop)]
pub struct Iter<'a, T> {
    // what is left of the chunk where it stands
    here: &'a [T],
    // the chunks after that one
    behind: &'a [Vec<T>],
    // and the last chunk
    last: &'a [T],
}

impl<'a, T> Model for Iter<'a, T> {
    ghost use Rattle.std.specs.Prelude.{List, ◌++◌};
    ghost use Rattle.base_chunked_list.specs.Chunks.{items_of, AreNotEmpty};

    ghost Value = { List T };

    ghost view = { λ it. it.here.now ++ (items_of it.behind.now ++ it.last.now) };

    ghost invariant = { λ it. AreNotEmpty it.behind.now };
}

impl<'a, T> Iter<'a, T> {
    // All the values of these chunks, but for so many of the first one.
    pub(crate) fn new(full: &'a [Vec<T>], last: &'a [T], gone: usize) -> Self
        requires full { AreFull full.now }
        requires all { gone ≤ length (items_of full.now ++ last.now) }
        requires first { gone < CHUNK }
        ensures { result ≡ drop gone (items_of full.now ++ last.now) }
    {
        match full.split_first() {
            Some((chunk, behind)) => Iter {
                here: &chunk[gone..],
                behind,
                last,
            },
            None => Iter {
                here: &last[gone..],
                behind: &[],
                last: &[],
            },
        }
    }
}

impl<'a, T> Iterator for Iter<'a, T> {
    type Item = &'a T;

    ghost next_gives = { YieldsFirstRef (λ rest. rest) };

    ghost remaining = { item_count (λ rest. rest) };

    fn next(&mut self) -> Option<&'a T> {
        if self.here.is_empty() {
            match self.behind.split_first() {
                Some((chunk, behind)) => {
                    self.here = chunk;
                    self.behind = behind;
                }
                None => {
                    self.here = self.last;
                    self.last = &[];
                }
            }
        }
        let (first, others) = self.here.split_first()?;
        self.here = others;
        Some(first)
    }
}
