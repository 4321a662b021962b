// The counters of engines that follow one another. It relies on `told` for what a record tells, on `before` for what an engine had before it, on
// `tables` for tables of counters, and on `programs` for the runs of each program.

ghost use Rattle.std.specs.Prelude.{◌≡◌, ◌<◌, ◌↔◌, ◌∷◌, ◌*◌, ◌+◌, [], false, IfOk, slice_index_or};
ghost use Rattle.host_metrics.specs.Notes.{IsBefore, Note};
ghost use Rattle.host_metrics.specs.Counted.{CountsOn, GrowsTo, no_metrics, zero_metrics};

use crate::before::Before;
use crate::programs::Programs;
use crate::tables::{add, add_marked, at, grown, zeros};
use crate::told::{
    CODES, CONTROLLERS, QUEUES, REFUSED, cell_of, code_completed, code_finished, elapsed_told,
    instructions_told, is_recovery, is_requeue, is_start, is_submission, refusal_told, row_if,
};
use std::alloc::{AllocError, Global};
use std::marker::Model;
use world_calls::Record;

/// What the records of engines that follow one another add up to, by queue, by code and by program. It has a fixed size, whatever comes, and
/// a counter that is at its most stays there. Of a queue, a controller or a refusal beyond the tables 0 is told. Contracts see the counters.
#[derive(Drop)]
pub struct Metrics {
    records: u64,
    // by the refusal's number
    refusals: Vec<u64>,
    // by queue
    submissions: Vec<u64>,
    starts: Vec<u64>,
    recoveries: Vec<u64>,
    requeues: Vec<u64>,
    instructions: Vec<u64>,
    // by queue and code
    completions: Vec<u64>,
    finishes: Vec<u64>,
    // in milliseconds, by queue and by controller
    queues_frozen: Vec<u64>,
    controllers_frozen: Vec<u64>,
    programs: Programs,
}

impl Model for Metrics {
    ghost use Rattle.host_metrics.specs.Counted.{MetricsState};

    ghost Value = { MetricsState };

    ghost view = { λ m. record {
      records = m.records;
      refusals = m.refusals.items;
      submissions = m.submissions.items;
      starts = m.starts.items;
      completions = m.completions.items;
      recoveries = m.recoveries.items;
      requeues = m.requeues.items;
      finishes = m.finishes.items;
      instructions = m.instructions.items;
      queues_frozen = m.queues_frozen.items;
      controllers_frozen = m.controllers_frozen.items;
    } };

    ghost use Rattle.host_metrics.specs.Counted.{HaveRoom};

    ghost invariant = { λ m. HaveRoom m.queues_frozen.items m.controllers_frozen.items };
}

impl Metrics {
    /// Counters that count nothing but records: there are no tables, and no memory is taken.
    pub fn none(alloc: Global) -> Self
        ensures { result ≡ no_metrics }
    {
        Metrics {
            records: 0,
            refusals: Vec::new(alloc),
            submissions: Vec::new(alloc),
            starts: Vec::new(alloc),
            recoveries: Vec::new(alloc),
            requeues: Vec::new(alloc),
            instructions: Vec::new(alloc),
            completions: Vec::new(alloc),
            finishes: Vec::new(alloc),
            queues_frozen: Vec::new(alloc),
            controllers_frozen: Vec::new(alloc),
            programs: Programs::none(alloc),
        }
    }

    /// Counters of which each is 0.
    pub fn new(alloc: Global) -> Result<Self, AllocError>
        ensures { IfOk result (λ metrics. metrics ≡ zero_metrics) }
    {
        Ok(Metrics {
            records: 0,
            refusals: zeros(alloc, REFUSED)?,
            submissions: zeros(alloc, QUEUES)?,
            starts: zeros(alloc, QUEUES)?,
            recoveries: zeros(alloc, QUEUES)?,
            requeues: zeros(alloc, QUEUES)?,
            instructions: zeros(alloc, QUEUES)?,
            completions: zeros(alloc, QUEUES * CODES)?,
            finishes: zeros(alloc, QUEUES * CODES)?,
            queues_frozen: zeros(alloc, QUEUES)?,
            controllers_frozen: zeros(alloc, CONTROLLERS)?,
            programs: Programs::none(alloc),
        })
    }

    /// Whether more is counted than records.
    pub fn is_on(&self) -> bool
        ensures { result ≡ false ↔ (self.now.submissions ≡ []) }
    {
        !self.submissions.is_empty()
    }

    /// Counts a record, of which that was noted before it was made.
    pub fn count(&mut self, before: &Before, told: &Record)
        ensures { (note : Note) → note.told ≡ told.now → IsBefore before.now note → CountsOn (note ∷ []) self.old self.new }
    {
        let queue = before.queue;
        self.records = grown(self.records, 1);
        add(&mut self.refusals, refusal_told(told), 1);
        add(&mut self.submissions, row_if(is_submission(told), queue), 1);
        add(&mut self.starts, row_if(is_start(told), queue), 1);
        add(&mut self.recoveries, row_if(is_recovery(told), queue), 1);
        add(&mut self.requeues, row_if(is_requeue(told), queue), 1);
        add(
            &mut self.completions,
            cell_of(queue, code_completed(told)),
            1,
        );
        add(&mut self.finishes, cell_of(queue, code_finished(told)), 1);
        add(
            &mut self.instructions,
            row_if(true, queue),
            instructions_told(told),
        );
        match &before.elapsing {
            Some(elapsing) => {
                let milliseconds = elapsed_told(elapsing.clock, told);
                add_marked(&mut self.queues_frozen, &elapsing.queues, milliseconds);
                add_marked(
                    &mut self.controllers_frozen,
                    &elapsing.controllers,
                    milliseconds,
                );
            }
            None => {}
        }
    }

    /// Takes the names of the programs of the queues from the text of a manifest that was accepted, whose engine is counted from now on: what
    /// was counted of a name that stays, stays. If memory is refused, nothing changes.
    pub fn name_programs(&mut self, alloc: Global, manifest: &[u8]) -> Result<(), AllocError>
        ensures { self.new ≡ self.old }
    {
        self.programs = Programs::following(alloc, &self.programs, manifest, &self.recoveries)?;
        Ok(())
    }

    /// How many records there are.
    pub fn records(&self) -> u64
        ensures { result ≡ self.now.records }
    {
        self.records
    }

    /// How many calls were refused by the refusal of that number.
    pub fn refusals(&self, number: u8) -> u64
        ensures { result ≡ slice_index_or self.now.refusals number 0 }
    {
        at(&self.refusals, usize::from(number))
    }

    /// How many CCBs were submitted to a queue.
    pub fn submissions(&self, queue: u32) -> u64
        ensures { result ≡ slice_index_or self.now.submissions queue 0 }
    {
        at(&self.submissions, queue as usize)
    }

    /// How many CCBs a queue started.
    pub fn starts(&self, queue: u32) -> u64
        ensures { result ≡ slice_index_or self.now.starts queue 0 }
    {
        at(&self.starts, queue as usize)
    }

    /// How many completions of a queue's CCBs had that status, by its code.
    pub fn completions(&self, queue: u32, code: u8) -> u64
        requires { code < CODES }
        ensures { result ≡ slice_index_or self.now.completions (queue * CODES + code) 0 }
    {
        at(
            &self.completions,
            queue as usize * CODES + usize::from(code),
        )
    }

    /// How many completions of a queue's CCBs started a run.
    pub fn recoveries(&self, queue: u32) -> u64
        ensures { result ≡ slice_index_or self.now.recoveries queue 0 }
    {
        at(&self.recoveries, queue as usize)
    }

    /// How often a queue's runs made their CCBs wait again.
    pub fn requeues(&self, queue: u32) -> u64
        ensures { result ≡ slice_index_or self.now.requeues queue 0 }
    {
        at(&self.requeues, queue as usize)
    }

    /// How many CCBs a queue's runs finished with that final code.
    pub fn finishes(&self, queue: u32, code: u8) -> u64
        requires { code < CODES }
        ensures { result ≡ slice_index_or self.now.finishes (queue * CODES + code) 0 }
    {
        at(&self.finishes, queue as usize * CODES + usize::from(code))
    }

    /// How many instructions a queue's runs executed.
    pub fn instructions(&self, queue: u32) -> u64
        ensures { result ≡ slice_index_or self.now.instructions queue 0 }
    {
        at(&self.instructions, queue as usize)
    }

    /// For how many milliseconds a queue was frozen.
    pub fn queue_frozen(&self, queue: u32) -> u64
        ensures { result ≡ slice_index_or self.now.queues_frozen queue 0 }
    {
        at(&self.queues_frozen, queue as usize)
    }

    /// For how many milliseconds a controller was frozen.
    pub fn controller_frozen(&self, controller: u32) -> u64
        ensures { result ≡ slice_index_or self.now.controllers_frozen controller 0 }
    {
        at(&self.controllers_frozen, controller as usize)
    }

    /// The programs of the queues.
    pub(crate) fn programs(&self) -> &Programs {
        &self.programs
    }

    /// How many completions of each queue's CCBs started a run.
    pub(crate) fn all_recoveries(&self) -> &[u64] {
        &self.recoveries
    }
}
