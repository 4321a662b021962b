// The devices, each with its queue and with what became of its failures. It relies on `rules` for failures.

use crate::answers::Draws;
use crate::rules::{Rule, Start};
use ccb::QueueId;
use std::alloc::{AllocError, Global};
use trial_disks::{Device, MILLION, Span};

/// A device of a queue.
#[derive(Drop)]
pub(crate) struct Drive<'a> {
    pub(crate) queue: QueueId,
    pub(crate) device: &'a Device,
    /// How many requests were submitted.
    pub(crate) submitted: u64,
    pub(crate) rules: Vec<Rule<'a>>,
}

/// What a device makes of a start: how long it takes, and which failure it is, if one.
#[derive(Clone, Copy)]
pub(crate) struct Reaction {
    pub(crate) time: u64,
    pub(crate) failure: Option<usize>,
}

impl<'a> Drive<'a> {
    /// A device of which nothing was asked.
    pub(crate) fn new(
        alloc: Global,
        queue: QueueId,
        device: &'a Device,
    ) -> Result<Self, AllocError> {
        let mut rules = Vec::new(alloc);
        for failure in &device.failures {
            rules.push(Rule::new(failure))?;
        }
        Ok(Drive {
            queue,
            device,
            submitted: 0,
            rules,
        })
    }

    /// What it makes of a start. If something was advised, the host does that first.
    pub(crate) fn start(&mut self, start: Start, draws: &mut Draws) -> Reaction {
        let wait = self.obey(start);
        let usual = draws.within(self.device.latency);
        match self.failure(start.later(wait), draws) {
            Some((place, latency)) => Reaction {
                time: wait.saturating_add(latency.map_or(usual, |span| draws.within(span))),
                failure: Some(place),
            },
            None => Reaction {
                time: wait.saturating_add(usual),
                failure: None,
            },
        }
    }

    // For how long the host is at what was advised.
    fn obey(&mut self, start: Start) -> u64 {
        let mut wait = 0;
        for rule in &mut self.rules {
            wait = rule.obey(start).max(wait);
        }
        wait
    }

    // The first failure that the start meets, and how long that takes if it is not as usual.
    fn failure(&mut self, start: Start, draws: &mut Draws) -> Option<(usize, Option<Span>)> {
        let mut place = 0;
        for rule in &mut self.rules {
            let is_drawn = draws.below(MILLION) < rule.failure.share;
            if is_drawn && rule.is_met(start) {
                rule.came(start.now);
                return Some((place, rule.failure.latency));
            }
            place = one_more(place);
        }
        None
    }
}

// The next place.
fn one_more(place: usize) -> usize {
    place.saturating_add(1)
}
