// What was decided: what became of the CCB, and which freezes are left. It relies on `ran` for the engine after the run.

ghost use Rattle.std.specs.Prelude.{◌≡◌, ◌++◌, ◌∷◌, [], false, IfOk, OnOk};
ghost use Rattle.ccb.specs.Places.{device};
ghost use Rattle.ccb.specs.declared.place.Place.TheVariants.{Device as TheDevice};
ghost use Rattle.world.specs.Lookups.{ccb_of};
ghost use Rattle.world.specs.Refusals.{is_unknown};
ghost use Rattle.world.specs.World.{queue_count};
ghost use Rattle.host_decision.specs.Decided.{advice_of, code_at, code_in, code_told, controller, end_of, left_at, left_below, left_in, others_of, time_at, time_of};

use crate::opening_lines::FAILED;
use crate::ran::Ran;
use ccb::{CcbId, Place, QueueId};
use freeze_ledger::{Holder, Holders};
use std::alloc::{AllocError, Global};
use world::CcbState;
use world_calls::{Record, StoppedAt};

/// What became of the CCB.
#[derive(Clone, Copy)]
pub enum End {
    /// It waits again, with so many retries.
    Requeued(u32),
    /// It is finished, with that final code.
    Finished(u8),
    /// The run ended before it disposed of the CCB, which no accepted policy does.
    Kept,
}

/// A freeze that was left to a timer, which comes so many milliseconds after the failure.
#[derive(Clone, Copy)]
pub struct LeftFreeze {
    pub place: Place,
    pub milliseconds: u64,
}

/// What a policy decided.
#[derive(Drop)]
pub struct Decision {
    pub end: End,
    /// What is advised for the CCB's next start; 0 if nothing is.
    pub advice: u32,
    /// Of the freeze that was taken for the failure: how long a timer has it still; none if it was given back.
    pub freeze: Option<u64>,
    /// All other freezes that the run left: those of controllers, and then those of queues.
    pub others: Vec<LeftFreeze>,
}

impl Decision {
    /// What a run of a queue's policy decided.
    pub fn of(alloc: Global, ran: &Ran<'_>, queue: QueueId) -> Result<Self, AllocError>
        ensures end { IfOk result (λ it. it.end ≡ end_of (ccb_of 1 ran.now.engine.transport.live) ran.now.records.items) }
        ensures advice { IfOk result (λ it. it.advice ≡ advice_of (ccb_of 1 ran.now.engine.transport.live)) }
        ensures freeze { IfOk result (λ it. is_unknown ran.now.engine.setup (TheDevice queue) ≡ false → it.freeze ≡ time_at ran.now.engine (TheDevice queue) ran.now.freeze) }
        ensures others { IfOk result (λ it. it.others.items ≡ others_of ran.now.engine ran.now.freeze) }
    {
        let mut others = Vec::new(alloc);
        add_others(&mut others, ran)?;
        Ok(Decision {
            end: end_of(ran),
            advice: advice_of(ran),
            freeze: left_for(ran, Place::Device(queue), ran.freeze),
            others,
        })
    }
}

// What became of the CCB.
fn end_of(ran: &Ran<'_>) -> End
    ensures { result ≡ end_of (ccb_of 1 ran.now.engine.transport.live) ran.now.records.items }
{
    match ran.engine.ccb(CcbId(FAILED)) {
        Some(live) => match live.state() {
            CcbState::Waiting => End::Requeued(live.ccb().retries),
            CcbState::Active | CcbState::InRecovery => End::Kept,
        },
        None => End::Finished(final_code(&ran.records)),
    }
}

// What is advised for the CCB's next start; 0 if nothing is, or the CCB is finished.
fn advice_of(ran: &Ran<'_>) -> u32
    ensures { result ≡ advice_of (ccb_of 1 ran.now.engine.transport.live) }
{
    match ran.engine.ccb(CcbId(FAILED)) {
        Some(live) => live.ccb().advice,
        None => 0,
    }
}

// The code with which a run finished its CCB; 0 if it did not.
fn final_code(records: &[Record]) -> u8
    ensures { result ≡ code_in records.now }
{
    for told in records {
        if let Some(code) = code_told(told) {
            return code;
        }
    }
    0
}

fn code_told(told: &Record) -> Option<u8>
    ensures { result ≡ code_told told.now }
{
    match told {
        Record::Advance { stop, .. } => code_at(stop),
        Record::Called { .. } => None,
    }
}

fn code_at(stop: &StoppedAt) -> Option<u8>
    ensures { result ≡ code_at stop.now }
{
    match stop {
        StoppedAt::Finish(_, code) => Some(*code),
        StoppedAt::Helper(_) | StoppedAt::Trace(..) | StoppedAt::Exit => None,
    }
}

// How long a timer has the freeze of that number still, if it is there.
fn left_for(ran: &Ran<'_>, place: Place, freeze: u32) -> Option<u64>
    ensures { is_unknown ran.now.engine.setup place ≡ false → result ≡ time_at ran.now.engine place freeze }
{
    for (number, holder) in ran.engine.holders(place)? {
        if number == freeze {
            return Some(time_of(holder, ran.engine.clock()));
        }
    }
    None
}

// How long it is until the timer comes.
fn time_of(holder: Holder, clock: u64) -> u64
    ensures { result ≡ time_of holder clock }
{
    match holder {
        Holder::Timer(due) => due.saturating_sub(clock),
        Holder::Guest(_) | Holder::Run(_) => 0,
    }
}

// Adds all freezes but that of the failure.
fn add_others(others: &mut Vec<LeftFreeze>, ran: &Ran<'_>) -> Result<(), AllocError>
    ensures { OnOk result (others.new.items ≡ others.old.items ++ others_of ran.now.engine ran.now.freeze) }
{
    add_of_controllers(others, ran)?;
    add_of_queues(others, ran)
}

// Adds those of controllers.
fn add_of_controllers(others: &mut Vec<LeftFreeze>, ran: &Ran<'_>) -> Result<(), AllocError>
    ensures { OnOk result (others.new.items ≡ others.old.items ++ left_below controller ran.now.engine ran.now.freeze ran.now.engine.setup.controllers) }
{
    for controller in 0..ran.engine.config().controllers() {
        add_at(others, ran, Place::Controller(controller))?;
    }
    Ok(())
}

// Adds those of queues.
fn add_of_queues(others: &mut Vec<LeftFreeze>, ran: &Ran<'_>) -> Result<(), AllocError>
    ensures { OnOk result (others.new.items ≡ others.old.items ++ left_below device ran.now.engine ran.now.freeze (queue_count ran.now.engine.setup)) }
{
    for queue in 0..ran.engine.config().queues() {
        add_at(others, ran, Place::Device(QueueId(queue)))?;
    }
    Ok(())
}

// Adds those of a place.
fn add_at(others: &mut Vec<LeftFreeze>, ran: &Ran<'_>, place: Place) -> Result<(), AllocError>
    requires { is_unknown ran.now.engine.setup place ≡ false }
    ensures { OnOk result (others.new.items ≡ others.old.items ++ left_at ran.now.engine ran.now.freeze place) }
{
    let clock = ran.engine.clock();
    match ran.engine.holders(place) {
        Some(holders) => add_held(others, holders, place, ran.freeze, clock),
        None => Ok(()),
    }
}

// Adds those of these holders.
fn add_held(
    others: &mut Vec<LeftFreeze>,
    holders: Holders<'_>,
    place: Place,
    own: u32,
    clock: u64,
) -> Result<(), AllocError>
    ensures { OnOk result (others.new.items ≡ others.old.items ++ left_in place own clock holders.entry) }
{
    for (number, holder) in holders {
        if number != own {
            add(others, place, time_of(holder, clock))?;
        }
    }
    Ok(())
}

// Adds one freeze.
fn add(others: &mut Vec<LeftFreeze>, place: Place, milliseconds: u64) -> Result<(), AllocError>
    ensures { OnOk result (others.new.items ≡ others.old.items ++ record { place = place; milliseconds = milliseconds } ∷ []) }
{
    others.push(LeftFreeze {
        place,
        milliseconds,
    })?;
    Ok(())
}
