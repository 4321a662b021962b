// How many runs each program had, by its name. Each run is that of a completion which started one, so it is counted by queue, and summed up here.
// It relies on `names` for names, and on `tables` for counters.

use crate::names::program_names;
use crate::tables::{at, grown};
use std::alloc::{AllocError, Global};

/// A program, and how many runs it had before the engine that is counted now.
#[derive(Drop)]
struct NamedProgram {
    name: String,
    runs: u64,
}

/// The programs of the queues by their names.
#[derive(Drop)]
pub(crate) struct Programs {
    named: Vec<NamedProgram>,
    // which of them each queue has
    of_queues: Vec<usize>,
    // how many completions of each queue's CCBs had started a run before the engine that is counted now
    recoveries: Vec<u64>,
}

impl Programs {
    /// None.
    pub(crate) fn none(alloc: Global) -> Self {
        Programs {
            named: Vec::new(alloc),
            of_queues: Vec::new(alloc),
            recoveries: Vec::new(alloc),
        }
    }

    /// Those of a manifest. The runs of a name that is among the earlier ones go on.
    pub(crate) fn following(
        alloc: Global,
        earlier: &Programs,
        manifest: &[u8],
        recoveries: &[u64],
    ) -> Result<Self, AllocError> {
        let mut programs = Programs::none(alloc);
        programs.recoveries.extend_from_slice(recoveries)?;
        for name in program_names(alloc, manifest)? {
            programs.add(name, earlier, recoveries)?;
        }
        Ok(programs)
    }

    // Adds the program of the next queue.
    fn add(
        &mut self,
        name: String,
        earlier: &Programs,
        recoveries: &[u64],
    ) -> Result<(), AllocError> {
        let place = self.place_of(name.as_str());
        self.of_queues.push(place)?;
        if place < self.named.len() {
            return Ok(());
        }
        let runs = earlier.runs(earlier.place_of(name.as_str()), recoveries);
        self.named.push(NamedProgram { name, runs })?;
        Ok(())
    }

    // Where the program of that name is; after the last if there is none.
    fn place_of(&self, name: &str) -> usize {
        for place in 0..self.named.len() {
            if self.name(place) == name {
                return place;
            }
        }
        self.named.len()
    }

    /// How many there are.
    pub(crate) fn len(&self) -> usize {
        self.named.len()
    }

    /// The name of one; nothing after the last.
    pub(crate) fn name(&self, place: usize) -> &str {
        match self.named.get(place) {
            Some(program) => program.name.as_str(),
            None => "",
        }
    }

    /// How many runs it had, where so many completions of each queue's CCBs started a run; 0 after the last.
    pub(crate) fn runs(&self, place: usize, recoveries: &[u64]) -> u64 {
        let mut runs = match self.named.get(place) {
            Some(program) => program.runs,
            None => return 0,
        };
        for queue in 0..self.of_queues.len() {
            if self.has(queue, place) {
                let before = at(&self.recoveries, queue);
                runs = grown(runs, at(recoveries, queue).saturating_sub(before));
            }
        }
        runs
    }

    // Whether the queue has that program.
    fn has(&self, queue: usize, place: usize) -> bool {
        match self.of_queues.get(queue) {
            Some(its) => *its == place,
            None => false,
        }
    }
}
