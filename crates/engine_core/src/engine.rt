// The engine: its configuration, its parts and its history. It relies on `parts` for CCBs, freezes and runs, and on `world` for what is
// recorded.

ghost use Rattle.std.specs.Prelude.{◌≡◌, ◌↔◌, IsTrue, ◌+◌, ◌≤◌, ◌++◌, ◌∷◌, [], drop, length, false, IsNone, IfSome, IfOk, IfErr, None};
ghost use Rattle.engine_config.specs.Configured.{AreProgramsOf};
ghost use Rattle.freeze_ledger.specs.Deadlines.{some_timer};
ghost use Rattle.engine_transport.specs.Freezing.{IsNextDue};
ghost use Rattle.engine_runs.specs.Admits.{IsOutWith};
ghost use Rattle.engine_runs.specs.RunsState.{opened_runs};
ghost use Rattle.world.specs.Beginning.{Begins};
ghost use Rattle.world.specs.World.{opening, version_of};
ghost use Rattle.world.specs.Lawful.{IsLawful};
ghost use Rattle.world.specs.TotalsOf.{TotalsOf, totals_in};
ghost use Rattle.engine_core.specs.EngineState.{opened, IsRun};
ghost use Rattle.engine_core.specs.RunState.{IsReached};

use crate::parts::Parts;
use crate::run::Run;
use base_chunked_list::ChunkedList;
use bpf_accepted::Accepted;
use ccb::QueueId;
use engine_config::Config;
use engine_history::EngineHistory;
use engine_runs::{MAX_RUNS, Runs};
use engine_taken_over::TakenOver;
use engine_transport::Transport;
use interpreter::Segment;
use std::alloc::{AllocError, Global};
use std::marker::Model;
use std::sync::Arc;
use world_calls::{Record, Totals, Trace, Version};

/// The room that a call makes in the history: for its own record, and for one of each run, which may be parked after it.
pub(crate) const ROOM: usize = 1 + MAX_RUNS;

/// Device queues with their CCBs, freezes and recovery runs, and the history of the calls made on them, of which it keeps what was not
/// handed on. Contracts see the setup, the whole history, how many of its records were handed on, and the world that it leads to.
#[derive(Drop)]
pub struct Engine {
    pub(crate) config: Config,
    pub(crate) over: TakenOver,
    pub(crate) parts: Parts,
    pub(crate) history: EngineHistory,
}

impl Model for Engine {
    ghost use Rattle.engine_core.specs.EngineState.{EngineState};

    ghost Value = { EngineState };

    ghost use Rattle.engine_core.specs.EngineState.{world_of};
    ghost use Rattle.engine_core.specs.Settings.{setup_over};
    ghost use Rattle.engine_core.specs.Invariant.{KeepsEngine};

    ghost view = { λ e. record { setup = setup_over e.config e.over.world; history = e.history.records; taken = e.history.taken; world = world_of (setup_over e.config e.over.world) e.history.records e.parts.transport e.parts.runs.runs } };

    ghost use Rattle.std.specs.Prelude.{length};
    ghost use Rattle.engine_core.specs.Invariant.{HistoryHasRoom};

    ghost invariant = { λ e. KeepsEngine (setup_over e.config e.over.world) e.history.records e.parts.transport e.parts.runs × HistoryHasRoom (length e.history.records) e.history.capacity e.parts.runs.runs.list };
}

/// The queues and tables of the configuration, with no CCB, no freeze and no run.
pub(crate) fn rooms(alloc: Global, config: &Config) -> Result<Parts, AllocError>
    ensures transport { IfOk result (λ parts. parts.transport ≡ (opening config.now).transport) }
    ensures runs { IfOk result (λ parts. parts.runs ≡ opened_runs config.now.tables) }
    ensures lawful { IsLawful config.now }
    ensures alone { config.now.carried ≡ None }
    ensures begins { Begins config.now }
{
    let mut openings = Vec::with_capacity(alloc, config.queues() as usize)?;
    for queue in 0..config.queues() {
        openings.push(config.openings(queue))?;
    }
    Ok(Parts {
        transport: Transport::with_room(alloc, &openings)?,
        runs: Runs::with_words(alloc, config.table_lengths(), config.first_words())?,
    })
}

impl Engine {
    /// An engine of unfrozen queues without CCBs and with an empty history. It takes room for all the CCBs, runs and
    /// freezes that there may be, so that later only the history grows. Where memory is refused the configuration
    /// comes back.
    #[tactic(auto, using(crate::proofs::Begun::keeps_opened, crate::proofs::Begun::seen_opened))]
    pub fn open(alloc: Global, config: Config) -> Result<Self, (AllocError, Config)>
        ensures opened { IfOk result (λ engine. engine ≡ opened config) }
        ensures back { IfErr result (λ fault. fault.1 ≡ config) }
    {
        let history = match EngineHistory::with_room(alloc) {
            Ok(history) => history,
            Err(fault) => return Err((fault, config)),
        };
        match rooms(alloc, &config) {
            Ok(parts) => Ok(Engine {
                config,
                over: TakenOver::none(),
                parts,
                history,
            }),
            Err(fault) => Err((fault, config)),
        }
    }

    /// Whether the run of that number is out, of the run's program and in the machine where the segment begins.
    pub(crate) fn has_recorded(&self, run: &Run, segment: &Segment) -> bool
        ensures recorded { IsTrue result ↔ IsOutWith self.now.world.runs.list run.now.number run.now.program.program segment.now.from }
        ensures reached { IsTrue result → IsReached (record run.now { machine = segment.now.from }) }
        ensures run { IsRun self.now }
    {
        self.parts
            .runs
            .admit_run(run.number(), run.program(), None, segment.from())
            .is_some()
    }

    /// The programs of all queues, in the order of the queues' numbers: they are shared, and not copied.
    pub fn programs(&self, alloc: Global) -> Result<Vec<Arc<Accepted>>, AllocError>
        ensures { IfOk result (λ programs. AreProgramsOf self.now.setup programs.items) }
    {
        self.config.programs(alloc)
    }

    /// The vocabulary of its history.
    pub fn version(&self) -> Version
        ensures { result ≡ version_of self.now.setup }
    {
        Version::of(self.config.helpers())
    }

    /// The records of the calls so far that were not handed on, in their order: all of them where `hand_on` was never called.
    pub fn records(&self) -> &ChunkedList<Record>
        ensures items { result.now.items ≡ drop self.now.taken self.now.history }
        ensures run { IsRun self.now }
    {
        self.history.kept()
    }

    /// How many records its history has, with those that were handed on.
    pub fn recorded(&self) -> u64
        ensures { result ≡ length self.now.history }
    {
        self.history.len()
    }

    /// How many records of the history were handed on.
    pub fn taken(&self) -> u64
        ensures count { result ≡ self.now.taken }
        ensures within { self.now.taken ≤ length self.now.history }
    {
        self.history.taken()
    }

    /// Forgets so many of the records that it keeps, the first ones, which the caller has handed on. The history stays as it is, for
    /// contracts and for the sums.
    pub fn hand_on(&mut self, count: usize)
        requires { self.old.taken + count ≤ length self.old.history }
        ensures handed { self.new ≡ record self.old { taken = self.old.taken + count } }
    {
        self.history.hand_on(count);
    }

    /// When the timer is due that goes first, in milliseconds of the clock; `None` exactly where no timer holds a freeze: before
    /// that reading, no freeze goes by its timer.
    pub fn next_due(&self) -> Option<u64>
        ensures first { IfSome result (IsNextDue self.now.world.transport.freezes) }
        ensures none { IsNone result ↔ (some_timer self.now.world.transport.freezes ≡ false) }
    {
        self.parts.transport.next_due()
    }

    /// The sums so far.
    pub fn totals(&self) -> Totals
        ensures value { result ≡ totals_in self.now.history self.now.world }
        ensures of { TotalsOf self.now.setup self.now.history result }
        ensures run { IsRun self.now }
    {
        Totals {
            history: self.history.len(),
            frozen: self.parts.transport.frozen(),
            active: self.parts.transport.active(),
            runs: self.parts.runs.len(),
        }
    }

    /// What it keeps of the history, with the sums of all. What is still frozen is forfeited, by guests and by runs.
    pub fn shut(self) -> Trace
        ensures version { result.version ≡ version_of self.setup }
        ensures records { result.records.items ≡ drop self.taken self.history }
        ensures totals { TotalsOf self.setup self.history result.totals }
        ensures run { IsRun self }
    {
        let version = self.version();
        let totals = self.totals();
        let Engine {
            config: _,
            over: _,
            parts: _,
            history,
        } = self;
        Trace {
            version,
            records: history.into_kept(),
            totals,
        }
    }
}
