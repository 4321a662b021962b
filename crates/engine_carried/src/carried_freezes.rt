// The freezes that another engine takes over. It relies on `freezes` for their order.

ghost use Rattle.std.specs.Prelude.{◌≡◌, ◌+◌, ◌<◌, ◌++◌, length, slice_index_or, OnOk};
ghost use Rattle.engine_beginning.specs.Lines.{freeze_lines};
ghost use Rattle.world_calls.specs.declared.carried_line.CarriedLine.TheVariants as lines;
ghost use Rattle.engine_carried.specs.FreezeAbove.{number_before};
ghost use Rattle.engine_carried.specs.Left.{IsLeft};
ghost use Rattle.engine_carried.specs.TakenOver.{freezes_under};

use crate::added::add;
use crate::carried_numbers::number_under;
use crate::freezes::freeze_above;
use crate::numbering::Numbering;
use engine_config::Config;
use engine_transport::Transport;
use freeze_ledger::Freeze;
use std::alloc::AllocError;
use world_calls::CarriedLine;

/// Adds a line for each freeze, in the order of their numbers. It takes time in proportion to the square of their count, which is 1024 at
/// most.
pub(crate) fn add_freezes(
    lines: &mut Vec<CarriedLine>,
    transport: &Transport,
    config: &Config,
    numbering: Numbering,
) -> Result<(), AllocError>
    requires { IsLeft config.now transport.now }
    ensures { OnOk result (lines.new.items ≡ lines.old.items ++ freeze_lines (freezes_under numbering transport.now.freezes)) }
{
    let mut last = 0;
    for place in 0..transport.frozen() {
        let freeze = freeze_after(transport, config, last, place);
        last = freeze.number;
        let number = number_under(numbering, freeze.number, place);
        add(lines, freeze_line(freeze, number))?;
    }
    Ok(())
}

// Returns the freeze at this place, from 0. `last` is the number of the freeze before it, or 0 before the first.
fn freeze_after(transport: &Transport, config: &Config, last: u32, place: u32) -> Freeze
    requires left { IsLeft config.now transport.now }
    requires there { place < length transport.now.freezes }
    requires after { last ≡ number_before place transport.now.freezes }
    ensures freeze { result ≡ slice_index_or transport.now.freezes place result }
    ensures number { result.number ≡ number_before (place + 1) transport.now.freezes }
{
    match freeze_above(transport, config, last) {
        Some(freeze) => freeze,
        None => unreachable!(),
    }
}

// Returns the line of a freeze under this number.
fn freeze_line(freeze: Freeze, number: u32) -> CarriedLine
    ensures { result ≡ lines.Freeze (record freeze { number = number }) }
{
    CarriedLine::Freeze(Freeze {
        number,
        place: freeze.place,
        holder: freeze.holder,
    })
}
