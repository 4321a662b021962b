// The live CCBs that another engine takes over. It relies on `engine_transport` for them.

ghost use Rattle.std.specs.Prelude.{◌≡◌, ◌<◌, ◌≤◌, ◌++◌, length, slice_index_or, OnOk};
ghost use Rattle.world.specs.Capacities.{most_ccbs};
ghost use Rattle.world_calls.specs.declared.carried_line.CarriedLine.TheVariants as lines;
ghost use Rattle.engine_beginning.specs.Lines.{ccb_in, ccb_lines};
ghost use Rattle.engine_carried.specs.TakenOver.{ccbs_under};

use crate::added::add;
use crate::carried_numbers::{live_count, number_under};
use crate::numbering::Numbering;
use ccb::CcbId;
use engine_transport::{LiveCcb, Transport};
use std::alloc::AllocError;
use world_calls::{CarriedCcb, CarriedLine};

/// Adds a line for each CCB, in the order of their numbers.
pub(crate) fn add_ccbs(
    lines: &mut Vec<CarriedLine>,
    transport: &Transport,
    numbering: Numbering,
) -> Result<(), AllocError>
    requires { length transport.now.live ≤ most_ccbs }
    ensures { OnOk result (lines.new.items ≡ lines.old.items ++ ccb_lines (ccbs_under numbering transport.now.live)) }
{
    for place in 0..live_count(transport) {
        let live = ccb_at(transport, place);
        let number = number_under(numbering, live.ccb().number.0, place);
        add(lines, ccb_line(&live, number))?;
    }
    Ok(())
}

/// Returns the CCB at this place, from 0.
pub(crate) fn ccb_at(transport: &Transport, place: u32) -> LiveCcb
    requires { place < length transport.now.live }
    ensures { result ≡ slice_index_or transport.now.live place result }
{
    match transport.live_at(place as usize) {
        Some(live) => live,
        None => unreachable!(),
    }
}

// Returns the line of a CCB under this number.
fn ccb_line(live: &LiveCcb, number: u32) -> CarriedLine
    ensures { result ≡ lines.Ccb (record (ccb_in live.now) { number = record { 0 = number } }) }
{
    let ccb = live.ccb();
    CarriedLine::Ccb(CarriedCcb {
        number: CcbId(number),
        queue: ccb.queue,
        priority: ccb.priority,
        retries: ccb.retries,
        class: ccb.class,
        attempts: ccb.attempts,
        advice: ccb.advice,
        is_active: live.is_active(),
    })
}
