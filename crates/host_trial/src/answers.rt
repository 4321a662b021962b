// What is drawn of a start, and the CCBs that a device is at work on, each with when it is done. It relies on `rand_xoshiro` for
// SplitMix64, the generator of Steele, Lea and Flood (2014).

use ccb::CcbId;
use rand_core::{Rng, SeedableRng};
use rand_xoshiro::SplitMix64;
use std::alloc::{AllocError, Global};
use trial_disks::Span;

/// Numbers that are drawn for one start of one CCB. They are the same whatever else happens, so that policies are tried on the same devices.
#[derive(Drop)]
pub(crate) struct Draws {
    generator: SplitMix64,
}

impl Draws {
    /// Those of the CCB of this number, for the start before which it was started so often.
    pub(crate) fn of(seed: u64, ccb: CcbId, tries: u64) -> Self {
        let mut own = SplitMix64::seed_from_u64(seed ^ (u64::from(ccb.0) << 32));
        let mixed = own.next_u64();
        Draws {
            generator: SplitMix64::seed_from_u64(mixed ^ tries),
        }
    }

    /// A number below this one; 0 if there is none.
    pub(crate) fn below(&mut self, bound: u64) -> u64 {
        self.generator.next_u64().checked_rem(bound).unwrap_or(0)
    }

    /// A number within the span.
    pub(crate) fn within(&mut self, span: Span) -> u64 {
        let width = span.most.saturating_sub(span.least).saturating_add(1);
        span.least.saturating_add(self.below(width))
    }
}

/// A CCB that a device is at work on.
#[derive(Clone, Copy)]
pub(crate) struct Started {
    /// When it is done.
    pub(crate) due: u64,
    pub(crate) ccb: CcbId,
    /// The place of its device, and the failure that it met, if it met one.
    pub(crate) drive: usize,
    pub(crate) failure: Option<usize>,
}

/// The CCBs at work. The last one is done first; of those that are done at one moment, the one that was started first.
#[derive(Drop)]
pub(crate) struct Schedule {
    started: Vec<Started>,
}

impl Schedule {
    /// None.
    pub(crate) fn new(alloc: Global) -> Self {
        Schedule {
            started: Vec::new(alloc),
        }
    }

    /// One more.
    pub(crate) fn add(&mut self, one: Started) -> Result<(), AllocError> {
        let place = self.started.partition_point(|other| other.due > one.due);
        self.started.insert(place, one)?;
        Ok(())
    }

    /// When the first one is done, if there is any.
    pub(crate) fn next(&self) -> Option<u64> {
        match self.started.last() {
            Some(first) => Some(first.due),
            None => None,
        }
    }

    /// Takes out the first one that is done at that moment, if one is.
    pub(crate) fn take_due(&mut self, now: u64) -> Option<Started> {
        match self.next() {
            Some(due) if due <= now => self.started.pop(),
            _ => None,
        }
    }
}
