// The live runs, and the tables that they share. It relies on `run_record` for what is recorded of a run, on `cam_numbered_slots`
// for where its record stands, on `held_tokens` for its rights to give freezes back, on `table_store` for tables, and on
// `world` for what contracts see.

ghost use Rattle.std.specs.Prelude.{◌≡◌, ℕ, ◌+◌, ◌%◌, ◌^◌, ◌<◌, ◌≤◌, ◌++◌, ◌==◌, ◌↔◌, true, false, not, List, [], ◌∷◌, length, filter, map, slice_set, Some, None, IsTrue, IsSome, IfSome, IfNone, IfOk};
ghost use Rattle.std.specs.List.{remove};
ghost use Rattle.std.specs.Arc.{arc_value};
ghost use Rattle.std.specs.Option.{option_to_list};
ghost use Rattle.ccb.specs.Context.{context_of};
ghost use Rattle.freeze_ledger.specs.declared.freeze.Freeze.{Freeze};
ghost use Rattle.freeze_ledger.specs.Freezes.{without};
ghost use Rattle.bpf_semantics.specs.declared.bounds.TheConstants.{MAX_HELD};
ghost use Rattle.bpf_semantics.specs.MachineState.{entry};
ghost use Rattle.bpf_semantics.specs.Reached.{IsEntry};
ghost use Rattle.bpf_semantics.specs.Step.{IsAnswer, HasRoomFor, answered};
ghost use Rattle.interpreter.specs.Segments.{StandsAt};
ghost use Rattle.world.specs.World.{LiveRun, World};
ghost use Rattle.world.specs.Capacities.{most_runs};
ghost use Rattle.world.specs.Lookups.{run_of, with_run};
ghost use Rattle.world.specs.CcbSteps.{run_meets_limit};
ghost use Rattle.table_store.specs.Tables.{HasWord, tables_with, with_word, word_at};
ghost use Rattle.engine_runs.specs.Admits.{IsOutWith, IsRunRecorded, KnowsProgram};
ghost use Rattle.engine_runs.specs.LiveRuns.{live_of};
ghost use Rattle.engine_runs.specs.RunPlaces.{HasRunAt};
ghost use Rattle.engine_runs.specs.RunsState.{no_runs, opened_runs, run_for, told, tokens_at, tokens_of};
ghost use Rattle.engine_runs.specs.Tokens.{AreTokensWith};

use crate::held_tokens::{HeldTokens, hold, let_go, taken_at_start};
use crate::places::place_of;
use crate::run_place::RunPlace;
use crate::run_record::RunRecord;
use crate::started::Started;
use bpf_accepted::Accepted;
use bpf_machine::Machine;
use cam_numbered_slots::NumberedSlots;
use ccb::{CONTEXT_BYTES, Ccb, CcbId, QueueId, context};
use freeze_ledger::FreezeToken;
use helpers::{Answer, Request};
use interpreter::pass;
use std::alloc::{AllocError, Global};
use std::marker::Model;
use std::mem::replace;
use std::sync::Arc;
use table_store::TableStore;

/// How many runs can be live at a time.
pub const MAX_RUNS: usize = 256;

/// How many places of runs that ended are kept for runs to come, of machines and of tokens each.
const MAX_SPARE: usize = 64;

/// The live runs with the tokens of the freezes that they hold, in the order of their numbers, the greatest number that was
/// given, and the words of the tables.
#[derive(Drop)]
pub struct Runs {
    records: NumberedSlots<RunRecord>,
    greatest: u32,
    tables: TableStore,
    // the places of machines of runs that ended; what stands in them means nothing
    spare: Vec<Box<Machine>>,
    // so are those of their tokens
    spare_tokens: Vec<Box<HeldTokens>>,
}

impl Model for Runs {
    ghost use Rattle.engine_runs.specs.RunsState.{RunsState, seen};
    ghost use Rattle.engine_runs.specs.Invariant.{KeepsRuns};

    ghost Value = { RunsState };

    ghost view = { λ r. seen r.records.values r.greatest r.tables };

    ghost invariant = { λ r. KeepsRuns r.records r.greatest };
}

// Whether both have the same instructions.
fn is_same_program(one: &Accepted, other: &Accepted) -> bool
    ensures { IsTrue result ↔ (one.now.program ≡ other.now.program) }
{
    *one.program() == *other.program()
}

// Whether the queue that is known is that of the recorded run.
fn is_of_known(it: &RunRecord, known: Option<QueueId>) -> bool
    ensures { IsTrue result → known ≡ Some it.now.queue }
{
    match known {
        Some(queue) => queue == it.queue,
        None => false,
    }
}

// Whether the recorded run is out with that program, in that machine. A program that is its own for sure is not compared.
fn is_out_with(it: &RunRecord, program: &Accepted, is_its: bool, machine: &Machine) -> bool
    requires { IsTrue is_its → program.now.program ≡ (live_of it.now).program }
    ensures { IsTrue result ↔ IsRunRecorded (live_of it.now) program.now.program machine.now }
{
    it.out && (is_its || is_same_program(program, &it.program)) && machine.is_same(&it.machine)
}

// Keeps a place for a run to come, where there is room.
fn keep_spare<T: Drop>(spare: &mut Vec<Box<T>>, place: Box<T>) {
    if spare.len() < spare.capacity() {
        spare.push_reserved(place);
    }
}

impl Runs {
    /// No run, and tables of these lengths in words, all 0, with room for 256 live runs: no later call takes memory but
    /// `place_for_run` and `place_for_machine`.
    pub fn with_room(alloc: Global, lengths: &[u16]) -> Result<Self, AllocError>
        ensures { IfOk result (λ it. it ≡ no_runs lengths.now) }
    {
        Ok(Runs {
            records: NumberedSlots::with_room(alloc, MAX_RUNS)?,
            greatest: 0,
            tables: TableStore::with_lengths(alloc, lengths)?,
            spare: Vec::with_capacity(alloc, MAX_SPARE)?,
            spare_tokens: Vec::with_capacity(alloc, MAX_SPARE)?,
        })
    }

    /// The same, but each table begins with the words of its list, if there is one, as many as it has room for.
    pub fn with_words(
        alloc: Global,
        lengths: &[u16],
        firsts: &[Vec<u64>],
    ) -> Result<Self, AllocError>
        ensures { IfOk result (λ it. it ≡ opened_runs (tables_with lengths.now (map (λ words. words.items) firsts.now))) }
    {
        Ok(Runs {
            records: NumberedSlots::with_room(alloc, MAX_RUNS)?,
            greatest: 0,
            tables: TableStore::with_words(alloc, lengths, firsts)?,
            spare: Vec::with_capacity(alloc, MAX_SPARE)?,
            spare_tokens: Vec::with_capacity(alloc, MAX_SPARE)?,
        })
    }

    /// The word at an index, from 0, of a table.
    pub fn table_get(&self, table: usize, index: usize) -> u64
        requires { HasWord self.now.runs.tables table index }
        ensures { result ≡ word_at self.now.runs.tables table index }
    {
        self.tables.get(table, index)
    }

    /// Writes a word of a table, which is one below 2^64, and answers the one that stood there.
    pub fn table_put(&mut self, table: usize, index: usize, value: u64) -> u64
        requires { HasWord self.old.runs.tables table index }
        ensures answer { result ≡ word_at self.old.runs.tables table index }
        ensures tables { self.new ≡ record self.old { runs = record self.old.runs { tables = with_word self.old.runs.tables table index (value % 2 ^ 64) } } }
    {
        self.tables.put(table, index, value)
    }

    /// Adds to a word of a table, modulo 2^64, and answers the sum.
    pub fn table_add(&mut self, table: usize, index: usize, value: u64) -> u64
        requires { HasWord self.old.runs.tables table index }
        ensures answer { result ≡ (word_at self.old.runs.tables table index + value) % 2 ^ 64 }
        ensures tables { self.new ≡ record self.old { runs = record self.old.runs { tables = with_word self.old.runs.tables table index result } } }
    {
        self.tables.add(table, index, value)
    }

    /// Whether there is a word of this index in a table of this number.
    pub fn has_word(&self, table: usize, index: usize) -> bool
        ensures { IsTrue result ↔ HasWord self.now.runs.tables table index }
    {
        self.tables.has_word(table, index)
    }

    /// The numbers up to this one, which is at least the greatest given, are given no more: the next run bears the number after it.
    pub fn pass_over(&mut self, number: u32)
        requires { self.old.runs.greatest ≤ number }
        ensures { self.new ≡ record self.old { runs = record self.old.runs { greatest = number } } }
    {
        self.greatest = number;
    }

    /// How many runs are live, at most 256.
    pub fn len(&self) -> u32
        ensures runs { result ≡ length self.now.runs.list }
        ensures bound { result ≤ most_runs }
    {
        self.records.len() as u32
    }

    /// Whether a further run meets a limit: 256 are live, or the numbers up to 4,294,967,295 are used up.
    pub fn is_full(&self) -> bool
        ensures { (world : World) → result ≡ run_meets_limit (record world { runs = self.now.runs }) }
    {
        self.records.len() >= MAX_RUNS || self.greatest >= u32::MAX
    }

    /// The number that the next run bears, where a further one meets no limit.
    pub fn next_number(&self) -> u32
        requires { (world : World) → run_meets_limit (record world { runs = self.now.runs }) ≡ false }
        ensures { result ≡ self.now.runs.greatest + 1 }
    {
        self.greatest + 1
    }

    /// A place for a machine: that of a run that ended, or a new one where none is kept. Where memory is refused nothing
    /// changes.
    pub fn place_for_machine(&mut self) -> Result<Box<Machine>, AllocError>
        ensures { self.new ≡ self.old }
    {
        match self.spare.pop() {
            Some(machine) => Ok(machine),
            None => {
                let machine = Machine::entry(&[0; CONTEXT_BYTES], 0);
                Ok(Box::new(*self.spare.allocator(), machine)?)
            }
        }
    }

    /// Where a run that starts may be recorded: where one stood that ended, or a new place where none is kept. Where memory is refused
    /// nothing changes.
    pub fn place_for_run(&mut self) -> Result<RunPlace, AllocError>
        ensures { self.new ≡ self.old }
    {
        let tokens = match self.spare_tokens.pop() {
            Some(tokens) => tokens,
            None => Box::new(*self.spare_tokens.allocator(), HeldTokens::new())?,
        };
        let machine = self.place_for_machine()?;
        Ok(RunPlace { machine, tokens })
    }

    /// Takes the place of a machine that is needed no more, for a run to come. At most 64 are kept.
    pub fn keep_place(&mut self, machine: Box<Machine>)
        ensures { self.new ≡ self.old }
    {
        keep_spare(&mut self.spare, machine);
    }

    /// Starts a run of a program for a CCB in recovery, whose queue is under that controller, under the number after the greatest
    /// given. It has the right to give
    /// that freeze back, or none, which it is told as number 0, and begins at the program's entry over the CCB's context.
    /// That machine is written to `machine`, and to `place`, where it is recorded. It asks for room.
    pub fn start(
        &mut self,
        ccb: &Ccb,
        controller: u32,
        program: Arc<Accepted>,
        token: Option<FreezeToken>,
        place: RunPlace,
        machine: &mut Machine,
    ) -> Started
        requires { (world : World) → run_meets_limit (record world { runs = self.old.runs }) ≡ false }
        ensures run { result.run ≡ self.old.runs.greatest + 1 }
        ensures freeze { result.freeze ≡ told token }
        ensures machine { machine.new ≡ entry (context_of ccb.now) (told token) }
        ensures entry { IsEntry machine.new }
        ensures state { self.new ≡ record {
          runs = record self.old.runs { list = self.old.runs.list ++ run_for result.run ccb.now controller (arc_value program).program machine.new ∷ []; greatest = result.run };
          tokens = self.old.tokens ++ tokens_of (option_to_list token) ∷ [];
        } }
        ensures found { run_of result.run self.new.runs.list ≡ Some (run_for result.run ccb.now controller (arc_value program).program machine.new) }
    {
        let number = self.greatest + 1;
        let RunPlace {
            machine: mut recorded,
            mut tokens,
        } = place;
        let freeze = taken_at_start(&mut tokens, token);
        machine.begin(&context(ccb), freeze);
        recorded.copy_from(machine);
        let record = RunRecord {
            number,
            ccb: ccb.number,
            queue: ccb.queue,
            controller,
            program,
            machine: recorded,
            out: true,
            tokens,
        };
        self.records.push(number, record);
        self.greatest = number;
        Started {
            run: number,
            freeze,
        }
    }

    /// Where the run stands that is live and out with that program, in that machine. `None`, which is C4, exactly where there
    /// is no such run. The place is good until a run starts or ends. Where the recorded run is of the queue that is known to
    /// have this program, the two programs are not compared.
    pub fn admit_run(
        &self,
        run: u32,
        program: &Accepted,
        known: Option<QueueId>,
        machine: &Machine,
    ) -> Option<usize>
        requires { KnowsProgram self.now.runs.list run program.now.program known }
        ensures admitted { IsSome result ↔ IsOutWith self.now.runs.list run program.now.program machine.now }
        ensures place { IfSome result (λ place. (it : LiveRun) × (run_of run self.now.runs.list ≡ Some it) × HasRunAt self.now.runs.list place it) }
    {
        let place = place_of(&self.records, run)?;
        let it = &self.records[place];
        let is_its = is_of_known(it, known);
        if is_out_with(it, program, is_its, machine) {
            Some(place)
        } else {
            None
        }
    }

    /// Where the run of that number stands, out or parked; `None` exactly where no live run has it. The place is good until a
    /// run starts or ends.
    pub fn place_of(&self, run: u32) -> Option<usize>
        ensures place { IfSome result (λ place. (it : LiveRun) × (run_of run self.now.runs.list ≡ Some it) × HasRunAt self.now.runs.list place it) }
        ensures none { IfNone result (run_of run self.now.runs.list ≡ None) }
    {
        let place = place_of(&self.records, run)?;
        Some(place)
    }

    /// Where the run of that number stands, which is live and parked; `None`, which is C1, exactly where there is no such
    /// run. The place is good until a run starts or ends.
    pub fn parked(&self, run: u32) -> Option<usize>
        ensures place { IfSome result (λ place. (it : LiveRun) × (run_of run self.now.runs.list ≡ Some it) × (it.out ≡ false) × HasRunAt self.now.runs.list place it) }
        ensures none { IfNone result ((it : LiveRun) → run_of run self.now.runs.list ≡ Some it → it.out ≡ true) }
    {
        let place = place_of(&self.records, run)?;
        if self.records[place].out {
            None
        } else {
            Some(place)
        }
    }

    /// Where the run of that number stands, which is live and out; `None` exactly where there is no such run. The place is good
    /// until a run starts or ends.
    pub fn out_at(&self, run: u32) -> Option<usize>
        ensures place { IfSome result (λ place. (it : LiveRun) × (run_of run self.now.runs.list ≡ Some it) × (it.out ≡ true) × HasRunAt self.now.runs.list place it) }
        ensures none { IfNone result ((it : LiveRun) → run_of run self.now.runs.list ≡ Some it → it.out ≡ false) }
    {
        let place = place_of(&self.records, run)?;
        if self.records[place].out {
            Some(place)
        } else {
            None
        }
    }

    /// Whether the run at this place is out; else it is parked.
    pub fn is_out(&self, place: usize) -> bool
        requires { (it : LiveRun) × HasRunAt self.now.runs.list place it }
        ensures { (it : LiveRun) → HasRunAt self.now.runs.list place it → result ≡ it.out }
    {
        self.records[place].out
    }

    /// The run at this place is out from now on, or is parked.
    pub fn set_out(&mut self, place: usize, out: bool)
        requires { (it : LiveRun) × HasRunAt self.old.runs.list place it }
        ensures { (it : LiveRun) → HasRunAt self.old.runs.list place it →
            self.new ≡ record self.old { runs = record self.old.runs { list = with_run (record it { out = out }) self.old.runs.list } } }
    {
        self.records[place].out = out;
    }

    /// The CCB for which the run at this place is.
    pub fn ccb(&self, place: usize) -> CcbId
        requires { (it : LiveRun) × HasRunAt self.now.runs.list place it }
        ensures { (it : LiveRun) → HasRunAt self.now.runs.list place it → result.0 ≡ it.ccb }
    {
        self.records[place].ccb
    }

    /// The queue of the CCB for which the run at this place is.
    pub fn queue(&self, place: usize) -> QueueId
        requires { (it : LiveRun) × HasRunAt self.now.runs.list place it }
        ensures { (it : LiveRun) → HasRunAt self.now.runs.list place it → result.0 ≡ it.queue }
    {
        self.records[place].queue
    }

    /// The controller that this queue is under; 0 where there is none.
    pub fn controller(&self, place: usize) -> u32
        requires { (it : LiveRun) × HasRunAt self.now.runs.list place it }
        ensures { (it : LiveRun) → HasRunAt self.now.runs.list place it → result ≡ it.controller }
    {
        self.records[place].controller
    }

    /// The machine in which the run at this place goes on.
    pub fn machine(&self, place: usize) -> &Machine
        requires { (it : LiveRun) × HasRunAt self.now.runs.list place it }
        ensures { (it : LiveRun) → HasRunAt self.now.runs.list place it → result.now ≡ it.machine }
    {
        &self.records[place].machine
    }

    /// The number of the run at this place.
    pub fn number(&self, place: usize) -> u32
        requires { (it : LiveRun) × HasRunAt self.now.runs.list place it }
        ensures { (it : LiveRun) → HasRunAt self.now.runs.list place it → result ≡ it.number }
    {
        self.records[place].number
    }

    /// The run at this place, which holds fewer than eight freezes, has the right to give one more back: the number of that
    /// freeze.
    pub fn hold(&mut self, place: usize, token: FreezeToken) -> u32
        requires run { (it : LiveRun) × HasRunAt self.old.runs.list place it }
        requires room { length (tokens_at self.old place) < MAX_HELD }
        ensures number { result ≡ token.number }
        ensures tokens { self.new ≡ record self.old { tokens = slice_set self.old.tokens place (tokens_at self.old place ++ Some token ∷ []) } }
    {
        hold(&mut self.records[place].tokens, token)
    }

    /// Takes from the run at this place the right to give that freeze back, which it has.
    pub fn let_go(&mut self, place: usize, freeze: u32) -> FreezeToken
        requires run { (it : LiveRun) × HasRunAt self.old.runs.list place it }
        requires holds { (freezes : List Freeze) × AreTokensWith (tokens_at self.old place) freezes freeze }
        ensures { (freezes : List Freeze) (it : AreTokensWith (tokens_at self.old place) freezes freeze) →
            (result ≡ it.entry) × (self.new ≡ record self.old { tokens = slice_set self.old.tokens place (tokens_of (without freeze freezes)) }) }
    {
        let_go(&mut self.records[place].tokens, freeze)
    }

    /// The run at this place goes on after the helper call at which `to` stands, with an answer that the call may get. That
    /// machine is the recorded one from now on, and the place of the one that was comes back.
    pub fn go_on(
        &mut self,
        place: usize,
        to: Box<Machine>,
        request: &Request,
        answer: &Answer,
    ) -> Box<Machine>
        requires run { (it : LiveRun) × HasRunAt self.old.runs.list place it }
        requires stands { StandsAt to.value request.now }
        requires allowed { IsAnswer to.value request.now answer.now }
        requires room { HasRoomFor to.value request.now }
        ensures goes { (it : LiveRun) → HasRunAt self.old.runs.list place it →
            self.new ≡ record self.old { runs = record self.old.runs { list = with_run (record it { machine = answered request.now answer.now to.value }) self.old.runs.list } } }
        ensures place { (it : LiveRun) → HasRunAt self.old.runs.list place it →
            HasRunAt self.new.runs.list place (record it { machine = answered request.now answer.now to.value }) }
    {
        let mut next = to;
        pass(&mut next, request, answer);
        replace(&mut self.records[place].machine, next)
    }

    /// The run at this place is gone. It asks for one that holds no freeze.
    pub fn end(&mut self, place: usize)
        requires run { (it : LiveRun) × HasRunAt self.old.runs.list place it }
        requires nothing { tokens_at self.old place ≡ [] }
        ensures { (it : LiveRun) → HasRunAt self.old.runs.list place it →
            self.new ≡ record { runs = record self.old.runs { list = filter (λ other. not (other.number == it.number)) self.old.runs.list }; tokens = remove self.old.tokens place } }
    {
        let ended = self.records.remove(place);
        let RunRecord {
            machine,
            tokens,
            ..
        } = ended;
        keep_spare(&mut self.spare, machine);
        keep_spare(&mut self.spare_tokens, tokens);
    }
}
