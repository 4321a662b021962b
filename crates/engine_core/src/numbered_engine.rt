// An engine that keeps no history: it is asked for the calls and the advances that a history tells, by the numbers of runs and
// freezes, and has the runs and the tokens itself. It relies on `parts` for what an event does, and on `world` for what may
// happen.

ghost use Rattle.std.specs.Prelude.{◌≡◌, ◌<◌, ◌↔◌, ◌∷◌, [], ◌++◌, length, slice_index_or, Some, None, IsNone, IsSome, IsTrue, IfSome, IfNone, IfOk, OnErr, false, IsOk};
ghost use Rattle.world_calls.specs.declared.call.Call.TheVariants.{Clock, Complete, Dispatch, GuestFreeze, GuestRelease, Park, Resume, Submit, Withdraw};
ghost use Rattle.world_calls.specs.declared.record.Record.TheVariants.{Called};
ghost use Rattle.freeze_ledger.specs.Deadlines.{some_timer};
ghost use Rattle.freeze_ledger.specs.Freezes.{entry_of, holders_of};
ghost use Rattle.engine_transport.specs.Freezing.{IsNextDue};
ghost use Rattle.world.specs.Lawful.{IsLawful};
ghost use Rattle.world.specs.Lookups.{ccb_of, run_of};
ghost use Rattle.world.specs.QueueInfo.{queue_info};
ghost use Rattle.world.specs.Refusals.{is_unknown};
ghost use Rattle.world.specs.Beginning.{Begins, IsBeginning};
ghost use Rattle.world.specs.World.{World, class_fits, class_kept, has_classes};
ghost use Rattle.engine_core.specs.Settings.{setup_over};
ghost use Rattle.engine_core.specs.Looking.{AsksNext, HasRunOut, IsRunTold, first_out};
ghost use Rattle.engine_core.specs.ByNumber.{Advances, AnswersCall, HasHistory, RecordFollows, guests_of, opened_numbered, sums_behind, takes_memory};

use crate::ccb_events::{class_in, complete, dispatch, is_fit, submit, withdraw};
use crate::engine::rooms;
use crate::freeze_events::read_clock;
use crate::guest_tokens::{GuestToken, has_token, take_token};
use crate::parts::Parts;
use crate::run_events::{go_on_here, request_of, resume, to_stop};
use crate::run_info::RunInfo;
use crate::setting::Setting;
use crate::told::answer_in;
use ccb::{CcbId, Completion, Place, QueueId};
use engine_config::Config;
use engine_runs::Runs;
use engine_taken_over::TakenOver;
use engine_transport::{LiveCcb, Transport};
use freeze_ledger::Holders;
use helpers::Request;
use std::alloc::{AllocError, Global};
use std::marker::Model;
use world::QueueInfo;
use world_calls::{Call, CallAnswer, CompletionRecord, Record, Totals};

/// Device queues with their CCBs, freezes and recovery runs, of which no history is kept. It is asked by plain calls, and has all
/// runs and all guests' tokens itself. Contracts see the setup, and what it has of a world.
#[derive(Drop)]
pub struct NumberedEngine<'a> {
    config: &'a Config,
    over: TakenOver,
    parts: Parts,
    // those of all guests' freezes, in the order of their numbers
    tokens: Vec<GuestToken>,
}

impl<'a> Model for NumberedEngine<'a> {
    ghost use Rattle.engine_core.specs.ByNumber.{NumberedState, KeepsNumbered};
    ghost use Rattle.engine_core.specs.Settings.{setup_over};

    ghost Value = { NumberedState };

    ghost view = { λ u. record { setup = setup_over u.config.now u.over.world; transport = u.parts.transport; runs = u.parts.runs.runs } };

    ghost invariant = { λ u. KeepsNumbered (setup_over u.config.now u.over.world) u.parts.transport u.parts.runs u.tokens.items };
}

impl<'a> NumberedEngine<'a> {
    /// An engine of unfrozen queues without CCBs. It takes room for all the CCBs, runs and freezes that there may be.
    pub fn open(alloc: Global, config: &'a Config) -> Result<Self, AllocError>
        ensures opened { IfOk result (λ engine. engine ≡ opened_numbered config.now) }
        ensures lawful { IsLawful config.now }
        ensures begins { Begins config.now }
    {
        Ok(NumberedEngine {
            config,
            over: TakenOver::none(),
            parts: rooms(alloc, config)?,
            tokens: Vec::new(alloc),
        })
    }

    /// An engine that begins with these parts, in which no run is live, and with the tokens of all guests' freezes in them, in the order
    /// of their numbers.
    #[tactic(auto, using(crate::proofs::Numbered::keeps_beginning, crate::proofs::Numbered::seen_beginning))]
    pub fn begin(
        config: &'a Config,
        transport: Transport,
        runs: Runs,
        tokens: Vec<GuestToken>,
    ) -> Self
        requires beginning { IsBeginning config.now (record { transport = transport; runs = runs.runs; ended = [] }) }
        requires none_held { runs.tokens ≡ [] }
        requires tokens { tokens.items ≡ guests_of transport.freezes }
        ensures { result ≡ opened_numbered (setup_over config.now (Some (record { transport = transport; runs = runs.runs; ended = [] }))) }
    {
        // It is called for what it says of the configuration.
        let _ = config.queues();
        let over = TakenOver::of(&transport, &runs);
        NumberedEngine {
            config,
            over,
            parts: Parts { transport, runs },
            tokens,
        }
    }

    /// Carries a call out, or refuses it: its answer. Only a completion, a guest's freeze and a resume take memory; where it is
    /// refused nothing changes. `None`, which changes nothing, exactly where the call is no event here:
    ///
    /// - a submission that says a class though CCBs have none, or says none though they have one,
    /// - a completion that no device reports,
    /// - a park of a run that is not out,
    /// - a release of a freeze that no guest holds.
    pub fn call(&mut self, call: &Call) -> Result<Option<CallAnswer>, AllocError>
        ensures answered { IfOk result (λ answer. AnswersCall self.old call.now answer self.new) }
        ensures setup { self.new.setup ≡ self.old.setup }
        ensures refused { OnErr result (self.new ≡ self.old) }
        ensures memory { takes_memory call.now ≡ false → IsOk result }
    {
        match call {
            Call::Submit {
                queue,
                priority,
                retries,
                class,
            } => Ok(self.submitted(*queue, *priority, *retries, *class)),
            Call::Dispatch { queue } => Ok(Some(self.dispatch(*queue))),
            Call::Complete { completion } => self.complete(completion),
            Call::Withdraw { ccb } => Ok(Some(self.withdraw(*ccb))),
            Call::GuestFreeze { place, guest } => Ok(Some(self.guest_freeze(*place, *guest)?)),
            Call::GuestRelease { freeze } => Ok(self.guest_release(*freeze)),
            Call::Clock { reading } => Ok(Some(self.read_clock(*reading))),
            Call::Park { run } => Ok(self.park(*run)),
            Call::Resume { run } => Ok(Some(self.resume(*run)?)),
        }
    }

    // A submission, if it says a class where CCBs have one, and there alone.
    fn submitted(
        &mut self,
        queue: QueueId,
        priority: u32,
        retries: u32,
        class: Option<u32>,
    ) -> Option<CallAnswer>
        ensures answered { AnswersCall self.old (Submit queue priority retries class) result self.new }
        ensures setup { self.new.setup ≡ self.old.setup }
    {
        if !self.takes_class(class) {
            return None;
        }
        Some(self.submit(queue, priority, retries, class_in(class)))
    }

    // Whether a submission may have this class.
    fn takes_class(&self, class: Option<u32>) -> bool
        ensures { result ≡ class_fits (has_classes self.now.setup) class }
    {
        is_fit(self.config, class)
    }

    // One CCB more waits, or why not.
    fn submit(&mut self, queue: QueueId, priority: u32, retries: u32, class: u32) -> CallAnswer
        ensures answered { RecordFollows self.old (Called result (Submit queue priority retries (class_kept self.old.setup class))) self.new }
        ensures setup { self.new.setup ≡ self.old.setup }
    {
        let (_, told) = submit(
            &Setting {
                config: self.config,
                over: &self.over,
            },
            &mut self.parts.transport,
            queue,
            priority,
            retries,
            class,
        );
        answer_in(told)
    }

    // The least CCB that waits starts, or why not.
    fn dispatch(&mut self, queue: QueueId) -> CallAnswer
        ensures answered { RecordFollows self.old (Called result (Dispatch queue)) self.new }
        ensures setup { self.new.setup ≡ self.old.setup }
    {
        let (_, told) = dispatch(
            &Setting {
                config: self.config,
                over: &self.over,
            },
            &mut self.parts.transport,
            queue,
        );
        answer_in(told)
    }

    // A CCB that waits is gone, or why not.
    fn withdraw(&mut self, ccb: CcbId) -> CallAnswer
        ensures answered { RecordFollows self.old (Called result (Withdraw ccb)) self.new }
        ensures setup { self.new.setup ≡ self.old.setup }
    {
        let (_, told) = withdraw(
            &Setting {
                config: self.config,
                over: &self.over,
            },
            &mut self.parts.transport,
            ccb,
        );
        answer_in(told)
    }

    // The freezes go whose timers are due, or why not.
    fn read_clock(&mut self, reading: u64) -> CallAnswer
        ensures answered { RecordFollows self.old (Called result (Clock reading)) self.new }
        ensures setup { self.new.setup ≡ self.old.setup }
    {
        let (_, told) = read_clock(&mut self.parts.transport, reading);
        answer_in(told)
    }

    // A completion, if a device can report it.
    fn complete(&mut self, completion: &CompletionRecord) -> Result<Option<CallAnswer>, AllocError>
        ensures answered { IfOk result (λ answer. AnswersCall self.old (Complete completion.now) answer self.new) }
        ensures setup { self.new.setup ≡ self.old.setup }
        ensures refused { OnErr result (self.new ≡ self.old) }
    {
        match completion.completion() {
            Some(completion) => Ok(Some(self.completed(&completion)?)),
            None => Ok(None),
        }
    }

    // What a completion leads to. The right to a run that starts is not needed: the run is named by its number.
    fn completed(&mut self, completion: &Completion) -> Result<CallAnswer, AllocError>
        ensures answered { IfOk result (λ answer. RecordFollows self.old (Called answer (Complete completion.now)) self.new) }
        ensures setup { self.new.setup ≡ self.old.setup }
        ensures refused { OnErr result (self.new ≡ self.old) }
    {
        let alloc = *self.tokens.allocator();
        let (answer, told) = complete(
            alloc,
            &Setting {
                config: self.config,
                over: &self.over,
            },
            &mut self.parts.transport,
            &mut self.parts.runs,
            completion,
        )?;
        self.parts.spend_started(answer);
        Ok(answer_in(told))
    }

    // The run of that number goes on, if it is parked.
    fn resume(&mut self, run: u32) -> Result<CallAnswer, AllocError>
        ensures answered { IfOk result (λ answer. RecordFollows self.old (Called answer (Resume run)) self.new) }
        ensures setup { self.new.setup ≡ self.old.setup }
        ensures refused { OnErr result (self.new ≡ self.old) }
    {
        let (answer, told) = resume(
            &Setting {
                config: self.config,
                over: &self.over,
            },
            &mut self.parts.runs,
            run,
        )?;
        self.parts.spend_again(answer);
        Ok(answer_in(told))
    }

    // A guest's freeze, of which the token is kept.
    fn guest_freeze(&mut self, place: Place, guest: u32) -> Result<CallAnswer, AllocError>
        ensures answered { IfOk result (λ answer. RecordFollows self.old (Called answer (GuestFreeze place guest)) self.new) }
        ensures setup { self.new.setup ≡ self.old.setup }
        ensures refused { OnErr result (self.new ≡ self.old) }
    {
        self.tokens.reserve(1)?;
        match self
            .parts
            .transport
            .guest_freeze(place, self.config.controllers(), guest)
        {
            Ok(token) => {
                let number = token.number();
                self.tokens.push_reserved(GuestToken::new(token));
                Ok(CallAnswer::Freeze(number))
            }
            Err(refusal) => Ok(CallAnswer::Refused(refusal)),
        }
    }

    // A guest's release, if a guest holds the freeze of that number.
    fn guest_release(&mut self, freeze: u32) -> Option<CallAnswer>
        ensures answered { AnswersCall self.old (GuestRelease freeze) result self.new }
        ensures setup { self.new.setup ≡ self.old.setup }
    {
        let (_, token) = take_token(&mut self.tokens, freeze)?;
        let count = self.parts.transport.guest_release(token);
        Some(CallAnswer::Left(count))
    }

    // A park, if a run of that number is out.
    fn park(&mut self, run: u32) -> Option<CallAnswer>
        ensures answered { AnswersCall self.old (Park run) result self.new }
        ensures setup { self.new.setup ≡ self.old.setup }
    {
        let place = self.parts.runs.out_at(run)?;
        self.parts.runs.set_out(place, false);
        Some(CallAnswer::Ok)
    }

    /// Lets the run of that number go on to its next stop, a helper call or its exit, and takes over what it did: the record of
    /// that advance. `None`, which changes nothing, exactly where no run of that number is out. It executes as many instructions
    /// as are left of the run's budget at most. Where memory is refused nothing changes; that is never where no such run is out.
    pub fn advance(&mut self, run: u32) -> Result<Option<Record>, AllocError>
        ensures advanced { IfOk result (λ told. Advances self.old run told self.new) }
        ensures setup { self.new.setup ≡ self.old.setup }
        ensures refused { OnErr result ((self.new ≡ self.old) × HasRunOut self.old.runs.list run) }
    {
        let Some(place) = self.parts.runs.out_at(run) else {
            return Ok(None);
        };
        let alloc = *self.tokens.allocator();
        let (_, told) = go_on_here(
            alloc,
            &Setting {
                config: self.config,
                over: &self.over,
            },
            &mut self.parts.transport,
            &mut self.parts.runs,
            place,
        )?;
        Ok(Some(told))
    }

    /// What it was opened with.
    pub fn config(&self) -> &Config
        ensures { setup_over result.now self.now.setup.carried ≡ self.now.setup }
    {
        self.config
    }

    /// Its CCBs, queues, freezes and clock.
    pub fn transport(&self) -> &Transport
        ensures value { result.now ≡ self.now.transport }
        ensures run { HasHistory self.now }
    {
        &self.parts.transport
    }

    /// Its runs and tables.
    pub fn runs(&self) -> &Runs
        ensures value { result.now.runs ≡ self.now.runs }
        ensures run { HasHistory self.now }
    {
        &self.parts.runs
    }

    /// What the clock read last, in milliseconds, 0 before the first reading.
    pub fn clock(&self) -> u64
        ensures { result ≡ self.now.transport.clock }
    {
        self.parts.transport.clock()
    }

    /// The live CCB of that number, with where it is; `None` exactly where no live one has it.
    pub fn ccb(&self, ccb: CcbId) -> Option<LiveCcb>
        ensures { result ≡ ccb_of ccb.0 self.now.transport.live }
    {
        self.parts.transport.live(ccb)
    }

    /// The freezes, the active and the waiting CCBs and the openings of a queue; `None` exactly where there is no such queue.
    pub fn queue_info(&self, queue: QueueId) -> Option<QueueInfo>
        ensures there { IsSome result ↔ (queue.0 < length self.now.transport.openings) }
        ensures told { IfSome result (λ told. (world : World) → told ≡ queue_info (record world { transport = self.now.transport }) queue.0) }
    {
        if self.parts.transport.has_queue(queue) {
            Some(self.parts.transport.queue_info(queue))
        } else {
            None
        }
    }

    /// The number and the holder of each freeze of a place, by rising number; `None` exactly where there is no such place.
    pub fn holders(&self, place: Place) -> Option<Holders<'_>>
        ensures there { IsSome result ↔ (is_unknown self.now.setup place ≡ false) }
        ensures holders { IfSome result (λ holders. holders ≡ holders_of place self.now.transport.freezes) }
    {
        self.parts
            .transport
            .holders(place, self.config.controllers())
    }

    /// What is recorded of the run of that number; `None` exactly where no live run has it.
    pub fn run(&self, run: u32) -> Option<RunInfo>
        ensures told { IfSome result (IsRunTold run self.now.runs.list) }
        ensures none { IfNone result (run_of run self.now.runs.list ≡ None) }
    {
        let runs = &self.parts.runs;
        let place = runs.place_of(run)?;
        Some(RunInfo {
            ccb: runs.ccb(place),
            queue: runs.queue(place),
            controller: runs.controller(place),
            is_out: runs.is_out(place),
        })
    }

    /// What the run of that number asks where it comes to its next stop: a helper, with its arguments. `None` where no run of
    /// that number is out, or where it comes to its exit. It changes nothing, and takes memory for a run that is out alone.
    pub fn asked(&mut self, run: u32) -> Result<Option<Request>, AllocError>
        ensures asked { IfOk result (AsksNext self.old.runs.list run) }
        ensures same { self.new ≡ self.old }
        ensures refused { OnErr result (HasRunOut self.old.runs.list run) }
    {
        let Some(place) = self.parts.runs.out_at(run) else {
            return Ok(None);
        };
        let mut to = self.parts.runs.place_for_machine()?;
        let (_, stop) = to_stop(
            &Setting {
                config: self.config,
                over: &self.over,
            },
            &self.parts.runs,
            place,
            &mut to,
        );
        self.parts.runs.keep_place(to);
        Ok(request_of(stop))
    }

    /// The live CCB at this place, from 0, in the order of their numbers, with where it is; `None` exactly where fewer are live.
    pub fn ccb_at(&self, place: usize) -> Option<LiveCcb>
        ensures there { IsSome result ↔ (place < length self.now.transport.live) }
        ensures value { IfSome result (λ live. live ≡ slice_index_or self.now.transport.live place live) }
    {
        self.parts.transport.live_at(place)
    }

    /// When the timer is due that goes first, in milliseconds of the clock; `None` exactly if no timer holds a freeze: before that
    /// reading, no freeze goes by its timer.
    pub fn next_due(&self) -> Option<u64>
        ensures first { IfSome result (IsNextDue self.now.transport.freezes) }
        ensures none { IsNone result ↔ (some_timer self.now.transport.freezes ≡ false) }
    {
        self.parts.transport.next_due()
    }

    /// Whether a guest holds the freeze of that number.
    pub fn is_guests(&self, freeze: u32) -> bool
        ensures there { IsTrue result → IsSome (entry_of freeze (guests_of self.now.transport.freezes)) }
        ensures none { result ≡ false → entry_of freeze (guests_of self.now.transport.freezes) ≡ None }
    {
        has_token(&self.tokens, freeze)
    }

    /// The first run that is out, in the order of their numbers; `None` exactly if none is.
    pub fn first_out(&self) -> Option<u32>
        ensures { result ≡ first_out self.now.runs.list }
    {
        first_out(&self.parts.runs)
    }

    /// The sums, after so many records.
    pub fn totals(&self, records: u64) -> Totals
        ensures { result ≡ sums_behind records self.now }
    {
        Totals {
            history: records,
            frozen: self.parts.transport.frozen(),
            active: self.parts.transport.active(),
            runs: self.parts.runs.len(),
        }
    }
}

// The number of the first run that is out, if one is.
fn first_out(runs: &Runs) -> Option<u32>
    ensures { result ≡ first_out runs.now.runs.list }
{
    for place in 0..runs.len() as usize {
        if runs.is_out(place) {
            return Some(runs.number(place));
        }
    }
    None
}
