// Who is shown a pass and keeps what it saw. It relies on `verifier` for what is shown, and on `sketch` and `ways` for what is known.

ghost use Rattle.std.specs.Prelude.{◌≡◌, [], false, IfSome};
ghost use Rattle.explain_path.specs.Logs.{AgreeAt};

use crate::registers::Registers;
use crate::sketch::Sketch;
use crate::ways::{Open, Ways};
use check_description::Description;
use std::alloc::{AllocError, Global};
use std::marker::Model;
use verifier::Witness;

/// A check that was made, or the one that failed.
#[derive(Clone, Copy, Debug)]
pub struct Sighting {
    pub slot: usize,
    /// How many functions were open there, from 1.
    pub depth: usize,
    // which of the log's arrivals are those at this check: the first of them; they go on to those of the next check
    first: usize,
}

/// A way by which control comes to a check: from which check, of which registers that way says what all ways together say, and
/// whether it says so of the stack.
#[derive(Clone, Copy, Debug)]
pub(crate) struct Arrival {
    pub(crate) from: usize,
    pub(crate) alike: Registers,
    pub(crate) stack_alike: bool,
}

/// All that was shown of a pass, in its order: the number of a check is its place. What is known is kept of the last check and of open
/// ways alone, so that little memory is taken. Contracts see the checks, and whether memory was refused.
#[derive(Drop)]
pub struct Log {
    sightings: Vec<Sighting>,
    arrivals: Vec<Arrival>,
    ways: Ways,
    last: Option<Sketch>,
    lacks_memory: bool,
}

impl Model for Log {
    ghost use Rattle.explain_path.specs.Logs.{LogState};

    ghost Value = { LogState };

    ghost view = { λ log. record { sightings = log.sightings.items; lacks_memory = log.lacks_memory } };
}

impl Log {
    /// Nothing yet.
    pub fn new(alloc: Global) -> Self
        ensures { result ≡ record { sightings = []; lacks_memory = false } }
    {
        Log {
            sightings: Vec::new(alloc),
            arrivals: Vec::new(alloc),
            ways: Ways::none(alloc),
            last: None,
            lacks_memory: false,
        }
    }

    /// Whether memory was refused, so that the rest was not kept.
    pub fn lacks_memory(&self) -> bool
        ensures { result ≡ self.now.lacks_memory }
    {
        self.lacks_memory
    }

    /// The checks, in their order.
    pub fn sightings(&self) -> &[Sighting]
        ensures { result.now ≡ self.now.sightings }
    {
        self.sightings.as_slice()
    }

    /// What was known at the last check, by all ways together.
    pub fn last(&self) -> Option<&Sketch> {
        self.last.as_ref()
    }

    /// Two ways that lead to a slot and disagree on the freezes held or on the CCB's disposal: the last of all that lead there, after the
    /// first of those which disagree with it.
    pub fn disagreeing(&self, slot: usize) -> Option<(Open, Open)>
        ensures slots { IfSome result (λ ways. (ways.0.slot ≡ slot) × (ways.1.slot ≡ slot)) }
        ensures disagree { IfSome result (λ ways. AgreeAt ways.0.known ways.1.known → ⊥) }
    {
        self.ways.disagreeing(slot)
    }

    // The ways by which control comes to the check of that number; the one that was shown last comes first.
    pub(crate) fn arrivals_at(&self, number: usize) -> &[Arrival] {
        let all = self.arrivals.as_slice();
        let first = self.first_of(number);
        let end = self.first_of(number.saturating_add(1));
        match all.get(first..end) {
            Some(some) => some,
            None => &[],
        }
    }

    // The first arrival of a check, or the end of all of them.
    fn first_of(&self, number: usize) -> usize {
        match self.sightings.get(number) {
            Some(sighting) => sighting.first,
            None => self.arrivals.len(),
        }
    }

    // Keeps a check.
    fn keep(&mut self, slot: usize, known: &Description) -> Result<(), AllocError> {
        let first = self.arrivals.len();
        let depth = known.stack.depth();
        let known = Sketch::of(known);
        self.arrive(slot, &known)?;
        self.sightings.push(Sighting { slot, depth, first })?;
        self.last = Some(known);
        Ok(())
    }

    // The ways that stand open and lead to that check come there.
    fn arrive(&mut self, slot: usize, known: &Sketch) -> Result<(), AllocError> {
        for _way in 0..self.ways.count() {
            let Some(way) = self.ways.take_last(slot) else {
                break;
            };
            self.arrivals.push(Arrival {
                from: way.from,
                alike: Registers::alike(&way.known, known),
                stack_alike: way.known.stack == known.stack,
            })?;
        }
        Ok(())
    }

    // Keeps a way.
    fn keep_way(&mut self, number: u32, slot: usize, known: &Description) {
        if !self.lacks_memory {
            let kept = self.ways.keep(Open {
                slot,
                from: number as usize,
                known: Sketch::of(known),
            });
            self.note(kept);
        }
    }

    // What was kept was kept, or memory was refused.
    fn note(&mut self, kept: Result<(), AllocError>) {
        if kept.is_err() {
            self.lacks_memory = true;
        }
    }
}

impl Witness for Log {
    fn checks(&mut self, _number: u32, slot: usize, known: &Description) {
        if !self.lacks_memory {
            let kept = self.keep(slot, known);
            self.note(kept);
        }
    }

    fn leads(&mut self, number: u32, slot: usize, known: &Description) {
        self.keep_way(number, slot, known);
    }

    fn leaves(&mut self, number: u32, slot: usize, known: &Description) {
        self.keep_way(number, slot, known);
    }
}
