// The lines that were taken, as what they make of an engine that was opened. It relies on `engine_transport` and `engine_runs` for the
// parts of the engine, and on `engine_config` for its queues and controllers.

ghost use Rattle.std.specs.Prelude.{◌≡◌, ◌↔◌, ◌||◌, [], not, true, false, IfOk, IfSome, IsOk, IsSome, IsTrue, None, OnErr, OnOk};
ghost use Rattle.engine_runs.specs.RunsState.{no_runs};
ghost use Rattle.world.specs.World.{has_classes, opening};
ghost use Rattle.world.specs.Beginning.{IsBeginning};
ghost use Rattle.world.specs.FreezeSteps.{is_guest, is_timer};
ghost use Rattle.world_calls.specs.declared.carried_line.CarriedLine.TheVariants as lines;
ghost use Rattle.engine_beginning.specs.Begun.{IsComplete, IsTokenOf, MayFollow, begun, finished, has_fit_words, with_line};
ghost use Rattle.engine_beginning.specs.Lines.{IsRanged};

use ccb::QueueId;
use engine_config::Config;
use engine_runs::Runs;
use engine_transport::Transport;
use freeze_ledger::{Freeze, FreezeToken, Holder};
use std::marker::Model;
use world_calls::{CarriedCcb, CarriedLine};

/// The last clock reading that there is, in milliseconds: 2^62.
const LAST_READING: u64 = 4_611_686_018_427_387_904;

/// How many openings a queue has at most.
const MAX_OPENINGS: u32 = 255;

// The kinds of lines, in their order.
const NOTHING: u8 = 0;

const NUMBERS: u8 = 1;

const CLOCK: u8 = 2;

const OPENINGS: u8 = 3;

const WORD: u8 = 4;

const CCB: u8 = 5;

const FREEZE: u8 = 6;

/// No engine of the configuration begins with this line after those before it.
#[derive(Clone, Copy, Debug, PartialEq, Eq)]
pub struct DoesNotFit;

/// What an engine of a configuration takes over, as far as its lines were taken.
#[derive(Drop)]
pub struct Beginning<'a> {
    config: &'a Config,
    transport: Transport,
    runs: Runs,
    // the kind of the last line
    after: u8,
    // the greatest numbers that were given
    ccb: u32,
    freeze: u32,
    run: u32,
    // how many queues have their openings
    opened: u32,
    // the table and the index from which words may follow
    table: u32,
    index: u64,
}

impl<'a> Model for Beginning<'a> {
    ghost use Rattle.engine_beginning.specs.Begun.{BegunState, KeepsBegun, begun_as};

    ghost Value = { BegunState };

    ghost view = { λ b. begun_as b.config.now b.after b.ccb b.freeze b.run b.opened b.table b.index b.transport b.runs };

    ghost invariant = { λ b. KeepsBegun (begun_as b.config.now b.after b.ccb b.freeze b.run b.opened b.table b.index b.transport b.runs) };
}

impl<'a> Beginning<'a> {
    /// No line yet, over an engine of this configuration that was opened.
    #[tactic(auto, using(crate::proofs::Keeping::first_kept))]
    pub fn new(config: &'a Config, transport: Transport, runs: Runs) -> Self
        requires transport { transport ≡ (opening config.now).transport }
        requires runs { runs ≡ no_runs config.now.limits.table_lengths }
        ensures { result ≡ begun config.now }
    {
        // It is called for what it says of the configuration.
        let _ = config.queues();
        Beginning {
            config,
            transport,
            runs,
            after: NOTHING,
            ccb: 0,
            freeze: 0,
            run: 0,
            opened: 0,
            table: 0,
            index: 0,
        }
    }

    /// Takes the next line, with the right to give a guest's freeze back. Refused, which changes nothing, exactly if no engine of the
    /// configuration has it after the lines before it.
    pub fn take(&mut self, line: &CarriedLine) -> Result<Option<FreezeToken>, DoesNotFit>
        ensures may { IsOk result ↔ MayFollow self.old line.now }
        ensures taken { OnOk result (self.new ≡ with_line line.now self.old) }
        ensures token { IfOk result (IsTokenOf line.now) }
        ensures refused { OnErr result (self.new ≡ self.old) }
        ensures ranged { IsRanged line.now }
    {
        match line {
            CarriedLine::Numbers { ccb, freeze, run } => fits(self.numbers(*ccb, *freeze, *run)),
            CarriedLine::Clock { reading } => fits(self.clock(*reading)),
            CarriedLine::Openings { queue, openings } => fits(self.openings(*queue, *openings)),
            CarriedLine::Word { table, index, word } => fits(self.word(*table, *index, *word)),
            CarriedLine::Ccb(ccb) => fits(self.ccb(ccb)),
            CarriedLine::Freeze(freeze) => self.freeze(*freeze),
        }
    }

    // The greatest numbers, whether they are taken.
    #[tactic(auto, using(crate::proofs::Keeping::numbers_kept))]
    fn numbers(&mut self, ccb: u32, freeze: u32, run: u32) -> bool
        ensures may { IsTrue result ↔ MayFollow self.old (lines.Numbers ccb freeze run) }
        ensures taken { IsTrue result → self.new ≡ with_line (lines.Numbers ccb freeze run) self.old }
        ensures refused { result ≡ false → self.new ≡ self.old }
    {
        if self.after != NOTHING {
            return false;
        }
        self.after = NUMBERS;
        self.ccb = ccb;
        self.freeze = freeze;
        self.run = run;
        true
    }

    // The clock.
    #[tactic(auto, using(crate::proofs::Keeping::clock_kept))]
    fn clock(&mut self, reading: u64) -> bool
        ensures may { IsTrue result ↔ MayFollow self.old (lines.Clock reading) }
        ensures taken { IsTrue result → self.new ≡ with_line (lines.Clock reading) self.old }
        ensures refused { result ≡ false → self.new ≡ self.old }
    {
        if self.after != NUMBERS || reading > LAST_READING {
            return false;
        }
        self.after = CLOCK;
        self.transport.set_clock(reading);
        true
    }

    // The openings of the next queue.
    #[tactic(auto, using(crate::proofs::Keeping::openings_kept))]
    fn openings(&mut self, queue: u32, openings: u32) -> bool
        ensures may { IsTrue result ↔ MayFollow self.old (lines.Openings queue openings) }
        ensures taken { IsTrue result → self.new ≡ with_line (lines.Openings queue openings) self.old }
        ensures refused { result ≡ false → self.new ≡ self.old }
    {
        if self.after < CLOCK || self.after > OPENINGS {
            return false;
        }
        if queue != self.opened || queue >= self.config.queues() {
            return false;
        }
        if openings == 0 || openings > MAX_OPENINGS {
            return false;
        }
        self.after = OPENINGS;
        self.opened = queue + 1;
        self.transport.set_openings(QueueId(queue), openings as u8);
        true
    }

    // A word of a table.
    #[tactic(auto, using(crate::proofs::Keeping::word_kept))]
    fn word(&mut self, table: u32, index: u32, word: u64) -> bool
        ensures may { IsTrue result ↔ MayFollow self.old (lines.Word table index word) }
        ensures taken { IsTrue result → self.new ≡ with_line (lines.Word table index word) self.old }
        ensures refused { result ≡ false → self.new ≡ self.old }
    {
        if self.opened != self.config.queues() || self.after > WORD || word == 0 {
            return false;
        }
        let from = u64::from(index);
        if table < self.table || (table == self.table && from < self.index) {
            return false;
        }
        if !self.runs.has_word(table as usize, index as usize) {
            return false;
        }
        self.after = WORD;
        self.table = table;
        self.index = from + 1;
        self.runs.table_put(table as usize, index as usize, word);
        true
    }

    // A CCB that waits or is active.
    #[tactic(auto, using(crate::proofs::Keeping::ccb_kept))]
    fn ccb(&mut self, ccb: &CarriedCcb) -> bool
        ensures may { IsTrue result ↔ MayFollow self.old (lines.Ccb ccb.now) }
        ensures taken { IsTrue result → self.new ≡ with_line (lines.Ccb ccb.now) self.old }
        ensures refused { result ≡ false → self.new ≡ self.old }
    {
        if self.opened != self.config.queues() || self.after > CCB {
            return false;
        }
        if ccb.number.0 <= self.transport.greatest_ccb() || ccb.number.0 > self.ccb {
            return false;
        }
        if !has_fit_words(self.config, ccb) {
            return false;
        }
        match self.transport.carry(ccb) {
            Err(_) => false,
            Ok(()) => {
                self.after = CCB;
                true
            }
        }
    }

    // A freeze that a timer or a guest holds, with the right to give a guest's back.
    #[tactic(auto, using(crate::proofs::Keeping::freeze_kept))]
    fn freeze(&mut self, freeze: Freeze) -> Result<Option<FreezeToken>, DoesNotFit>
        ensures may { IsOk result ↔ MayFollow self.old (lines.Freeze freeze) }
        ensures taken { OnOk result (self.new ≡ with_line (lines.Freeze freeze) self.old) }
        ensures token { IfOk result (IsTokenOf (lines.Freeze freeze)) }
        ensures refused { OnErr result (self.new ≡ self.old) }
    {
        if self.opened != self.config.queues() || is_run(freeze.holder) {
            return Err(DoesNotFit);
        }
        if freeze.number <= self.transport.greatest_freeze() || freeze.number > self.freeze {
            return Err(DoesNotFit);
        }
        if !self
            .transport
            .has_place(freeze.place, self.config.controllers())
        {
            return Err(DoesNotFit);
        }
        match self.transport.carry_freeze(freeze) {
            Some(token) => {
                self.after = FREEZE;
                Ok(of_guest(token))
            }
            None => Err(DoesNotFit),
        }
    }

    /// What an engine takes over that begins with these lines and no others; `None` exactly if none does.
    #[tactic(auto, using(crate::proofs::Keeping::finished_is))]
    pub fn finish(self) -> Option<(Transport, Runs)>
        ensures complete { IsSome result ↔ IsComplete self.entry }
        ensures parts { IfSome result (λ parts. (parts.0 ≡ (finished self.entry).transport) × (parts.1 ≡ record { runs = (finished self.entry).runs; tokens = [] })) }
        ensures beginning { IsBeginning self.entry.setup (finished self.entry) }
    {
        let is_complete = self.opened == self.config.queues();
        let Beginning {
            config: _,
            mut transport,
            mut runs,
            after: _,
            ccb,
            freeze,
            run,
            opened: _,
            table: _,
            index: _,
        } = self;
        if !is_complete {
            return None;
        }
        transport.pass_over_ccbs(ccb);
        transport.pass_over_freezes(freeze);
        runs.pass_over(run);
        Some((transport, runs))
    }
}

// Whether a CCB of the configuration may have this class and this advice.
fn has_fit_words(config: &Config, ccb: &CarriedCcb) -> bool
    ensures { result ≡ has_fit_words (has_classes config.now) ccb.now }
{
    let has_classes = config.has_classes();
    (has_classes || ccb.class == 0) && (ccb.advice == 0 || (has_classes && !ccb.is_active))
}

// Taken without a token, or not.
fn fits(taken: bool) -> Result<Option<FreezeToken>, DoesNotFit>
    ensures taken { IsOk result ↔ IsTrue taken }
    ensures none { IfOk result (λ token. token ≡ None) }
{
    if taken { Ok(None) } else { Err(DoesNotFit) }
}

// Whether a run holds it.
fn is_run(holder: Holder) -> bool
    ensures { result ≡ not (is_timer holder || is_guest holder) }
{
    match holder {
        Holder::Run(_) => true,
        Holder::Timer(_) => false,
        Holder::Guest(_) => false,
    }
}

// The token, if it is a guest's. A timer needs none.
fn of_guest(token: FreezeToken) -> Option<FreezeToken>
    requires { (is_timer token.holder || is_guest token.holder) ≡ true }
    ensures { IsTokenOf (lines.Freeze token) result }
{
    match token.holder() {
        Holder::Guest(_) => Some(token),
        Holder::Run(_) => {
            token.forfeit();
            None
        }
        Holder::Timer(_) => {
            token.forfeit();
            None
        }
    }
}
