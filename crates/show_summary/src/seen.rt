// What the events of a trace say that records alone do not. It relies on the modules that each follow one thing.

use crate::advices::Advices;
use crate::attempts::MostTried;
use crate::durations::AllDurations;
use crate::frozen::FrozenPlaces;
use crate::openings::AllOpenings;
use crate::programs::AllInstructions;
use crate::refusals::Refused;
use crate::reports::Reports;
use crate::withdrawals::Withdrawals;
use crate::words::Words;
use engine_config::Config;
use show_events::{Event, Programs};
use std::alloc::{AllocError, Global};
use world_calls::CarriedLine;

/// All that was seen along a trace.
#[derive(Drop)]
pub(crate) struct Seen {
    pub(crate) frozen: FrozenPlaces,
    pub(crate) openings: AllOpenings,
    pub(crate) instructions: AllInstructions,
    pub(crate) tried: MostTried,
    pub(crate) refused: Refused,
    pub(crate) durations: AllDurations,
    pub(crate) reports: Reports,
    pub(crate) words: Words,
    pub(crate) withdrawals: Withdrawals,
    pub(crate) advices: Advices,
}

impl Seen {
    /// Before the first record of a trace of this configuration, which begins or is continued.
    pub(crate) fn new(alloc: Global, config: &Config, begins: bool) -> Result<Self, AllocError> {
        let durations = AllDurations::new(alloc, config.queues())?;
        let reports = Reports::new(alloc, config.queues())?;
        let mut words = Words::new(alloc, config)?;
        if begins {
            words.begin(config);
        }
        Ok(Seen {
            frozen: FrozenPlaces::new(),
            openings: AllOpenings::new(config),
            instructions: AllInstructions::new(),
            tried: MostTried::default(),
            refused: Refused::new(),
            durations,
            reports,
            words,
            withdrawals: Withdrawals::new(),
            advices: Advices::new(alloc),
        })
    }

    /// Takes what was carried over at that reading.
    pub(crate) fn carry(&mut self, lines: &[CarriedLine], clock: u64) {
        for line in lines {
            match line {
                CarriedLine::Openings { queue, openings } => {
                    self.openings.carry(*queue, *openings);
                }
                CarriedLine::Word { table, index, word } => {
                    self.words.carry(*table, *index, *word);
                }
                CarriedLine::Freeze(freeze) => self.frozen.carry(freeze, clock),
                _ => {}
            }
        }
    }

    /// Takes what an event says.
    pub(crate) fn see(&mut self, event: &Event, programs: &Programs<'_>) -> Result<(), AllocError> {
        self.frozen.see(event);
        self.openings.see(event);
        self.instructions.see(event, programs);
        self.tried.see(event);
        self.refused.see(event);
        self.words.see(event);
        self.withdrawals.see(event);
        self.advices.see(event)?;
        self.durations.see(event)?;
        self.reports.see(event)
    }
}
