// What the calls of helpers do, a function a deed. It relies on `engine_transport` for the run's CCB, its queue, the freezes and
// the clock, and on `engine_runs` for the run, its tokens and the tables.

ghost use Rattle.helpers.specs.declared.table.HelperEffect.TheVariants as effects;
ghost use Rattle.interpreter.specs.Segments.{SegmentState};
ghost use Rattle.engine_core.specs.TakingOver.{IsCalled, Asks, AsksOf, AsksToFreeze, RefinesOnRuns, RefinesHelperStep};

use ccb::{Place, QueueId};
use engine_runs::Runs;
use engine_transport::Transport;
use freeze_ledger::Holder;
use helpers::{Answer, HelperEffect, Request, Written};

/// Does what the call of a helper asks: its answer. What a call records is told by the record of the advance.
#[inline(always)]
pub(crate) fn carry_out(
    transport: &mut Transport,
    runs: &mut Runs,
    place: usize,
    request: &Request,
) -> Answer
    requires { (segment : SegmentState) × IsCalled transport.old runs.old place segment request.now }
    ensures { RefinesHelperStep place request.now result transport.old runs.old transport.new runs.new }
{
    match request.helper.row().effect {
        HelperEffect::Nothing => tell_history(runs, place, request),
        HelperEffect::Freeze => take_queue(transport, runs, place, request),
        HelperEffect::GiveBack => give_back(transport, runs, place, request),
        HelperEffect::HandOver => hand_over(transport, runs, place, request),
        HelperEffect::Requeue => requeue(transport, runs, place, request),
        HelperEffect::Finish => finish(transport, runs, place, request),
        HelperEffect::GetWord => get_word(runs, place, request),
        HelperEffect::PutWord => put_word(runs, place, request),
        HelperEffect::AddWord => add_word(runs, place, request),
        HelperEffect::TellQueue => tell_queue(transport, runs, place, request),
        HelperEffect::TellClock => tell_clock(transport, runs, place, request),
        HelperEffect::SetOpenings => set_openings(transport, runs, place, request),
        HelperEffect::FreezeController => take_controller(transport, runs, place, request),
        HelperEffect::TellController => tell_controller(transport, runs, place, request),
        HelperEffect::Advise => advise(transport, runs, place, request),
    }
}

// Nothing but what the history tells: 0.
fn tell_history(runs: &Runs, place: usize, request: &Request) -> Answer
    requires { Asks effects.Nothing runs.now place request.now }
    ensures { RefinesOnRuns place request.now result runs.now runs.now }
{
    Answer::number(0)
}

// Freezes the queue that R1 names: the new freeze's number, or 0 at a limit.
fn take_queue(transport: &mut Transport, runs: &mut Runs, place: usize, request: &Request) -> Answer
    requires { AsksOf effects.Freeze transport.old runs.old place request.now }
    ensures { RefinesHelperStep place request.now result transport.old runs.old transport.new runs.new }
{
    let queue = QueueId(request.arguments.first as u32);
    take_freeze(transport, runs, place, request, Place::Device(queue))
}

// Freezes the controller that the run's queue is under: the same.
fn take_controller(
    transport: &mut Transport,
    runs: &mut Runs,
    place: usize,
    request: &Request,
) -> Answer
    requires { AsksOf effects.FreezeController transport.old runs.old place request.now }
    ensures { RefinesHelperStep place request.now result transport.old runs.old transport.new runs.new }
{
    let controller = runs.controller(place);
    take_freeze(
        transport,
        runs,
        place,
        request,
        Place::Controller(controller),
    )
}

// Freezes what the call asks to freeze: the new freeze's number, or 0 at a limit.
fn take_freeze(
    transport: &mut Transport,
    runs: &mut Runs,
    place: usize,
    request: &Request,
    frozen: Place,
) -> Answer
    requires { AsksToFreeze frozen transport.old runs.old place request.now }
    ensures { RefinesHelperStep place request.now result transport.old runs.old transport.new runs.new }
{
    let holder = Holder::Run(runs.number(place));
    match transport.take(frozen, holder) {
        Some(token) => Answer::number(u64::from(runs.hold(place, token))),
        None => Answer::number(0),
    }
}

// Gives the freeze that R1 names back: how many its place has then.
fn give_back(transport: &mut Transport, runs: &mut Runs, place: usize, request: &Request) -> Answer
    requires { AsksOf effects.GiveBack transport.old runs.old place request.now }
    ensures { RefinesHelperStep place request.now result transport.old runs.old transport.new runs.new }
{
    let token = runs.let_go(place, request.arguments.first as u32);
    let count = transport.give_back(token);
    Answer::number(u64::from(count))
}

// Hands the freeze that R1 names over to a timer, which is due in so many milliseconds as R2 says: 0.
fn hand_over(transport: &mut Transport, runs: &mut Runs, place: usize, request: &Request) -> Answer
    requires { AsksOf effects.HandOver transport.old runs.old place request.now }
    ensures { RefinesHelperStep place request.now result transport.old runs.old transport.new runs.new }
{
    let arguments = request.arguments;
    let token = runs.let_go(place, arguments.first as u32);
    transport.hand_over(token, arguments.second as u32);
    Answer::number(0)
}

// The run's CCB waits again, with so many retries fewer as R1 says: 0.
fn requeue(transport: &mut Transport, runs: &Runs, place: usize, request: &Request) -> Answer
    requires { AsksOf effects.Requeue transport.old runs.now place request.now }
    ensures { RefinesHelperStep place request.now result transport.old runs.now transport.new runs.now }
{
    transport.requeue(runs.ccb(place), request.arguments.first as u32);
    Answer::number(0)
}

// The run's CCB advises the host to do what R1 says before its next start: 0.
fn advise(transport: &mut Transport, runs: &Runs, place: usize, request: &Request) -> Answer
    requires { AsksOf effects.Advise transport.old runs.now place request.now }
    ensures { RefinesHelperStep place request.now result transport.old runs.now transport.new runs.now }
{
    transport.advise(runs.ccb(place), request.arguments.first as u32);
    Answer::number(0)
}

// The run's CCB is gone, with the status code in R1: 0. The record of the advance tells the code.
fn finish(transport: &mut Transport, runs: &Runs, place: usize, request: &Request) -> Answer
    requires { AsksOf effects.Finish transport.old runs.now place request.now }
    ensures { RefinesHelperStep place request.now result transport.old runs.now transport.new runs.now }
{
    transport.finish(runs.ccb(place));
    Answer::number(0)
}

// The word of a table that R1 and R2 name.
fn get_word(runs: &Runs, place: usize, request: &Request) -> Answer
    requires { Asks effects.GetWord runs.now place request.now }
    ensures { RefinesOnRuns place request.now result runs.now runs.now }
{
    let arguments = request.arguments;
    Answer::number(runs.table_get(arguments.first as usize, arguments.second as usize))
}

// That word is now what R3 holds: the old word.
fn put_word(runs: &mut Runs, place: usize, request: &Request) -> Answer
    requires { Asks effects.PutWord runs.old place request.now }
    ensures { RefinesOnRuns place request.now result runs.old runs.new }
{
    let arguments = request.arguments;
    Answer::number(runs.table_put(
        arguments.first as usize,
        arguments.second as usize,
        arguments.third,
    ))
}

// What R3 holds is added to that word: the new word.
fn add_word(runs: &mut Runs, place: usize, request: &Request) -> Answer
    requires { Asks effects.AddWord runs.old place request.now }
    ensures { RefinesOnRuns place request.now result runs.old runs.new }
{
    let arguments = request.arguments;
    Answer::number(runs.table_add(
        arguments.first as usize,
        arguments.second as usize,
        arguments.third,
    ))
}

// What the run's queue has, from the address in R1 on: 0.
fn tell_queue(transport: &Transport, runs: &Runs, place: usize, request: &Request) -> Answer
    requires { AsksOf effects.TellQueue transport.now runs.now place request.now }
    ensures { RefinesHelperStep place request.now result transport.now runs.now transport.now runs.now }
{
    let info = transport.queue_info(runs.queue(place));
    let written = Written {
        address: request.arguments.first,
        bytes: info.to_bytes(),
    };
    Answer {
        r0: 0,
        written: Some(written),
    }
}

// The clock in milliseconds.
fn tell_clock(transport: &Transport, runs: &Runs, place: usize, request: &Request) -> Answer
    requires { AsksOf effects.TellClock transport.now runs.now place request.now }
    ensures { RefinesHelperStep place request.now result transport.now runs.now transport.now runs.now }
{
    Answer::number(transport.clock())
}

// The run's queue has so many openings as R1 says: how many it had.
fn set_openings(transport: &mut Transport, runs: &Runs, place: usize, request: &Request) -> Answer
    requires { AsksOf effects.SetOpenings transport.old runs.now place request.now }
    ensures { RefinesHelperStep place request.now result transport.old runs.now transport.new runs.now }
{
    let old = transport.set_openings(runs.queue(place), request.arguments.first as u8);
    Answer::number(u64::from(old))
}

// How many freezes the controller has that the run's queue is under.
fn tell_controller(transport: &Transport, runs: &Runs, place: usize, request: &Request) -> Answer
    requires { AsksOf effects.TellController transport.now runs.now place request.now }
    ensures { RefinesHelperStep place request.now result transport.now runs.now transport.now runs.now }
{
    Answer::number(u64::from(transport.controller_frozen(runs.controller(place))))
}
