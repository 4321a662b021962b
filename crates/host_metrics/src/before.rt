// What is noted of an engine before it is asked. It relies on `engine_transport` and `engine_runs` for what an engine has.

ghost use Rattle.std.specs.Prelude.{◌≡◌, ◌<◌, ℕ, false, option_map, slice_index_or};
ghost use Rattle.world.specs.World.{Runs as TheRuns, Transport as TheTransport};
ghost use Rattle.world.specs.Lookups.{ccb_of};
ghost use Rattle.world_calls.specs.declared.call.Call.TheVariants.{Clock};
ghost use Rattle.world_calls.specs.declared.call_answer.CallAnswer.{CallAnswer as TheAnswer};
ghost use Rattle.world_calls.specs.declared.record.Record.TheVariants.{Advance, Called};
ghost use Rattle.world_calls.specs.declared.record.StoppedAt.{StoppedAt as TheStop};
ghost use Rattle.host_metrics.specs.Notes.{IsBefore, KnowsElapsing, is_controller_frozen, is_queue_frozen, queue_called, queue_running};

use crate::told::{CONTROLLERS, QUEUES};
use ccb::{CcbId, QueueId};
use engine_runs::Runs;
use engine_transport::Transport;
use world_calls::Call;

/// What is noted of an engine before it is asked, so that the record of it can be counted: of which queue it is, and if the clock moves on, what
/// is frozen meanwhile.
#[derive(Clone, Copy)]
pub struct Before {
    pub(crate) queue: Option<u32>,
    pub(crate) elapsing: Option<Elapsing>,
}

/// What the clock reads before it moves on, and which queues and controllers are frozen.
#[derive(Clone, Copy)]
pub(crate) struct Elapsing {
    pub(crate) clock: u64,
    pub(crate) queues: [bool; QUEUES],
    pub(crate) controllers: [bool; CONTROLLERS],
}

impl Before {
    /// Before a call.
    pub fn of_call(transport: &Transport, call: &Call) -> Self
        ensures { (runs : TheRuns) (answer : TheAnswer) → IsBefore result (record { transport = transport.now; runs = runs; told = Called answer call.now }) }
    {
        Before {
            queue: queue_called(transport, call),
            elapsing: elapsing_in(transport, call),
        }
    }

    /// Before an advance of the run of that number.
    pub fn of_run(runs: &Runs, run: u32) -> Self
        ensures { (transport : TheTransport) (instructions : ℕ) (stop : TheStop) (r0 : ℕ) → IsBefore result (record { transport = transport; runs = runs.now.runs; told = Advance run instructions stop r0 }) }
    {
        Before {
            queue: queue_running(runs, run),
            elapsing: None,
        }
    }
}

// The queue that a call names, or that of the CCB that it names.
fn queue_called(transport: &Transport, call: &Call) -> Option<u32>
    ensures { result ≡ queue_called transport.now call.now }
{
    match call {
        Call::Submit { queue, .. } | Call::Dispatch { queue } => Some(queue.0),
        Call::Complete { completion } => queue_of_ccb(transport, completion.ccb()),
        _ => None,
    }
}

// The queue of a live CCB.
fn queue_of_ccb(transport: &Transport, ccb: CcbId) -> Option<u32>
    ensures { result ≡ option_map (λ live. live.ccb.queue.0) (ccb_of ccb.0 transport.now.live) }
{
    match transport.place_of(ccb) {
        Some(place) => Some(transport.at(place).ccb().queue.0),
        None => None,
    }
}

// The queue of a live run.
fn queue_running(runs: &Runs, run: u32) -> Option<u32>
    ensures { result ≡ queue_running runs.now.runs run }
{
    match runs.place_of(run) {
        Some(place) => Some(runs.queue(place).0),
        None => None,
    }
}

// What is noted where a call may move the clock on.
fn elapsing_in(transport: &Transport, call: &Call) -> Option<Elapsing>
    ensures { (runs : TheRuns) (answer : TheAnswer) → KnowsElapsing result (record { transport = transport.now; runs = runs; told = Called answer call.now }) }
{
    match call {
        Call::Clock { reading } => elapsing_to(transport, *reading),
        _ => None,
    }
}

fn elapsing_to(transport: &Transport, reading: u64) -> Option<Elapsing>
    ensures { (runs : TheRuns) (answer : TheAnswer) → KnowsElapsing result (record { transport = transport.now; runs = runs; told = Called answer (Clock reading) }) }
{
    if reading <= transport.clock() {
        return None;
    }
    Some(Elapsing {
        clock: transport.clock(),
        queues: queues_frozen(transport),
        controllers: controllers_frozen(transport),
    })
}

// Which queues are frozen.
fn queues_frozen(transport: &Transport) -> [bool; QUEUES]
    ensures { (queue : ℕ) → queue < 64 → slice_index_or result queue false ≡ is_queue_frozen transport.now queue }
{
    let mut frozen = [false; QUEUES];
    for queue in 0..QUEUES {
        frozen[queue] = is_queue_frozen(transport, queue as u32);
    }
    frozen
}

fn is_queue_frozen(transport: &Transport, queue: u32) -> bool
    ensures { result ≡ is_queue_frozen transport.now queue }
{
    transport.has_queue(QueueId(queue)) && transport.queue_info(QueueId(queue)).frozen > 0
}

// Which controllers are frozen.
fn controllers_frozen(transport: &Transport) -> [bool; CONTROLLERS]
    ensures { (controller : ℕ) → controller < 8 → slice_index_or result controller false ≡ is_controller_frozen transport.now controller }
{
    let mut frozen = [false; CONTROLLERS];
    for controller in 0..CONTROLLERS {
        frozen[controller] = is_controller_frozen(transport, controller as u32);
    }
    frozen
}

fn is_controller_frozen(transport: &Transport, controller: u32) -> bool
    requires { controller < 8 }
    ensures { result ≡ is_controller_frozen transport.now controller }
{
    transport.controller_frozen(controller) > 0
}
