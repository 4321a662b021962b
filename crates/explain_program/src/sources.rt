// Of which lines of a source a program's slots were made: comments before its bytes say so, as `tools/policy-from-c` writes them. It
// relies on `explain_layout` for where the bytes stand.

use bpf_insn::MAX_SLOTS;
use explain_layout::Span;
use std::alloc::{AllocError, Global};

/// With what a header of a program begins, and such a comment. After it stand a slot and a place in a source, and after `, ` the next ones.
const HEADER: &str = "[[program]]";

const COMMENT: &str = "# at ";

/// How many characters of a place are kept.
const MOST: usize = 100;

/// Places in sources, each from a slot on up to that of the next one.
#[derive(Drop)]
pub struct Sources<'a> {
    places: Vec<Since<'a>>,
}

// The slot from which on a place holds.
#[derive(Clone, Copy)]
struct Since<'a> {
    slot: usize,
    place: &'a str,
}

impl<'a> Sources<'a> {
    /// The places of the slots of a program, which comments have that stand between its header and its bytes: none if there are no such
    /// comments.
    pub fn of(alloc: Global, manifest: &'a str, value: Span) -> Result<Self, AllocError> {
        let before = manifest.get(..value.start).unwrap_or("");
        let start = before.rfind(HEADER).unwrap_or(before.len());
        let mut places = Vec::new(alloc);
        for line in before.get(start..).unwrap_or("").split('\n') {
            if let Some(entries) = line.strip_prefix(COMMENT) {
                keep(entries, &mut places)?;
            }
        }
        Ok(Sources { places })
    }

    /// The place of a slot; an empty one if it is not known.
    pub fn at(&self, slot: usize) -> &'a str {
        let behind = self.places.partition_point(|it| it.slot <= slot);
        match self.places.get(behind.wrapping_sub(1)) {
            Some(it) => it.place,
            None => "",
        }
    }
}

// Keeps the entries of a comment, of as many slots as a program has at most.
fn keep<'a>(entries: &'a str, places: &mut Vec<Since<'a>>) -> Result<(), AllocError> {
    for entry in entries.split(", ") {
        if places.len() < MAX_SLOTS {
            if let Some((slot, place)) = entry.split_once(' ') {
                if let Ok(slot) = slot.parse::<usize>() {
                    places.push(Since {
                        slot,
                        place: cut(place),
                    })?;
                }
            }
        }
    }
    Ok(())
}

// The beginning of a place that is too long.
fn cut(place: &str) -> &str {
    match place.char_indices().nth(MOST) {
        Some((end, _)) => place.get(..end).unwrap_or(""),
        None => place,
    }
}
