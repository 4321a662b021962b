// The greatest numbers that an engine gave, as they are in the engine that follows it. It relies on `engine_transport` and `engine_runs` for
// them.

ghost use Rattle.std.specs.Prelude.{◌≡◌, ◌≤◌, ◌+◌, ◌<◌, ◌^◌, ◌↔◌, [], length, IsTrue};
ghost use Rattle.world.specs.Capacities.{last_number, most_ccbs};
ghost use Rattle.world_calls.specs.declared.carried_line.CarriedLine.TheVariants as lines;
ghost use Rattle.engine_carried.specs.Left.{number_under};
ghost use Rattle.engine_carried.specs.TakenOver.{greatest_under};

use crate::numbering::Numbering;
use engine_runs::Runs;
use engine_transport::Transport;
use world_calls::CarriedLine;

/// How many CCBs are live at most.
const MAX_CCBS: u32 = 4096;

/// Returns the line of the greatest numbers.
pub(crate) fn numbers_line(transport: &Transport, runs: &Runs, numbering: Numbering) -> CarriedLine
    requires few { length transport.now.live ≤ most_ccbs }
    requires none { runs.now.runs.list ≡ [] }
    requires last { runs.now.runs.greatest ≤ last_number }
    ensures { result ≡ lines.Numbers (greatest_under numbering transport.now.greatest_ccb (length transport.now.live))
        (greatest_under numbering transport.now.greatest_freeze (length transport.now.freezes)) (greatest_under numbering runs.now.runs.greatest 0) }
{
    CarriedLine::Numbers {
        ccb: greatest_under(numbering, transport.greatest_ccb(), live_count(transport)),
        freeze: greatest_under(numbering, transport.greatest_freeze(), transport.frozen()),
        run: greatest_under(numbering, greatest_run(runs), 0),
    }
}

/// Returns how many CCBs are live. It looks at each of them.
pub(crate) fn live_count(transport: &Transport) -> u32
    requires { length transport.now.live ≤ most_ccbs }
    ensures { result ≡ length transport.now.live }
{
    for place in 0..MAX_CCBS {
        if !has_live(transport, place) {
            return place;
        }
    }
    MAX_CCBS
}

// Returns whether more CCBs than this are live.
fn has_live(transport: &Transport, place: u32) -> bool
    ensures { IsTrue result ↔ (place < length transport.now.live) }
{
    transport.live_at(place as usize).is_some()
}

// Returns the greatest number that was given to a run, 0 before the first.
fn greatest_run(runs: &Runs) -> u32
    requires none { runs.now.runs.list ≡ [] }
    requires last { runs.now.runs.greatest ≤ last_number }
    ensures { result ≡ runs.now.runs.greatest }
{
    if runs.is_full() {
        u32::MAX
    } else {
        runs.next_number() - 1
    }
}

// Returns the greatest number of a kind in the engine that follows: it stays, or is how many of the kind there are.
fn greatest_under(numbering: Numbering, greatest: u32, count: u32) -> u32
    ensures { result ≡ greatest_under numbering greatest count }
{
    match numbering {
        Numbering::Same => greatest,
        Numbering::Fresh => count,
    }
}

/// Returns the number of what has its own number now, and stands at this place, from 0, in the order of these numbers.
pub(crate) fn number_under(numbering: Numbering, own: u32, place: u32) -> u32
    requires { place + 1 < 2 ^ 32 }
    ensures { result ≡ number_under numbering own place }
{
    match numbering {
        Numbering::Same => own,
        Numbering::Fresh => place + 1,
    }
}
