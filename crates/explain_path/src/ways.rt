// The ways of a pass that lead to checks which are not made yet, in a chain for each slot. It relies on `sketch` for what is known on
// each of them.

ghost use Rattle.std.specs.Prelude.{◌≡◌, ◌↔◌, IfSome, IsTrue};
ghost use Rattle.explain_path.specs.Logs.{AgreeAt};

use crate::sketch::Sketch;
use std::alloc::{AllocError, Global};

/// The place of no way.
const NONE: usize = usize::MAX;

/// A way that was shown, and leads to a check that is not made yet.
#[derive(Clone, Copy, Debug)]
pub struct Open {
    /// The slot to which it leads.
    pub slot: usize,
    /// From which check it leads.
    pub from: usize,
    /// What is known by it alone; of a return, before the exit.
    pub known: Sketch,
}

// A way, and the place of the way that was shown before it and leads to the same slot.
#[derive(Clone, Copy, Debug)]
struct Way {
    shown: Open,
    before: usize,
}

/// The ways that are open. A slot belongs to one function, and no function is open twice at a time, so that all ways which lead to a slot
/// lead to one check. The memory of ways that are open no more is used again.
#[derive(Drop)]
pub struct Ways {
    // by slots, the place of the way that was shown last of those which lead there
    last: Vec<usize>,
    ways: Vec<Way>,
    // the place of a way that is open no more, of which `before` is the next one
    unused: usize,
}

impl Ways {
    /// None.
    pub fn none(alloc: Global) -> Self {
        Ways {
            last: Vec::new(alloc),
            ways: Vec::new(alloc),
            unused: NONE,
        }
    }

    /// How many have been open at a time.
    pub fn count(&self) -> usize {
        self.ways.len()
    }

    /// One more is open.
    pub fn keep(&mut self, open: Open) -> Result<(), AllocError> {
        let slot = open.slot;
        if slot >= self.last.len() {
            self.last.resize(slot.saturating_add(1), NONE)?;
        }
        let way = Way {
            shown: open,
            before: self.last_place(slot),
        };
        let mut place = self.unused;
        match self.ways.get_mut(place) {
            Some(other) => {
                self.unused = other.before;
                *other = way;
            }
            None => {
                place = self.ways.len();
                self.ways.push(way)?;
            }
        }
        self.set_last(slot, place);
        Ok(())
    }

    // The place of the way that was shown last of those which lead to a slot.
    fn last_place(&self, slot: usize) -> usize {
        self.last.get(slot).copied().unwrap_or(NONE)
    }

    // That way is the last one now.
    fn set_last(&mut self, slot: usize, place: usize) {
        if let Some(last) = self.last.get_mut(slot) {
            *last = place;
        }
    }

    /// The way that was shown last of those which lead to a slot; it is open no more.
    pub fn take_last(&mut self, slot: usize) -> Option<Open> {
        let place = self.last_place(slot);
        let unused = self.unused;
        let way = self.ways.get_mut(place)?;
        let before = way.before;
        let shown = way.shown;
        way.before = unused;
        self.unused = place;
        self.set_last(slot, before);
        Some(shown)
    }

    /// Two ways that lead to a slot and disagree: the one that was shown last of all that lead there, after the one that was shown
    /// first of those which disagree with it.
    pub fn disagreeing(&self, slot: usize) -> Option<(Open, Open)>
        ensures slots { IfSome result (λ ways. (ways.0.slot ≡ slot) × (ways.1.slot ≡ slot)) }
        ensures disagree { IfSome result (λ ways. AgreeAt ways.0.known ways.1.known → ⊥) }
    {
        let last = self.ways.get(self.last_place(slot))?;
        let mut place = last.before;
        let mut first = None;
        for _way in 0..self.ways.len() {
            let Some(way) = self.ways.get(place) else {
                break;
            };
            if way.shown.slot == slot && !agree(&way.shown.known, &last.shown.known) {
                first = Some(way.shown);
            }
            place = way.before;
        }
        match first {
            Some(first) if last.shown.slot == slot => Some((first, last.shown)),
            _ => None,
        }
    }
}

// Whether both say the same of the freezes held and of the CCB's disposal.
fn agree(one: &Sketch, other: &Sketch) -> bool
    ensures { IsTrue result ↔ AgreeAt one.now other.now }
{
    one.held.is_same(&other.held) && one.disposed == other.disposed
}
