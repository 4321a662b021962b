// Which shared engine a part of a monitor belongs to, and how a monitor is made before that has a name.

ghost use Rattle.std.specs.Prelude.{◌≡◌, IfOk};
ghost use Rattle.monitor.specs.LegalHistory.{AreLegal, unshared};

use crate::keeper::Keeper;
use crate::monitor::Monitor;
use crate::rule::{Cell, Opens, Seat};
use std::alloc::{AllocError, Global};
use std::marker::{Brand, Model};

/// One shared engine, by what it was made of: its setup, the history with which it began, and the cell that shows its sums.
/// Each call of a program that shares one picks it; all that belongs to it bears it in its type.
pub trait Origin {
    ghost use Rattle.std.specs.Prelude.{List};
    ghost use Rattle.atomic_table.specs.Seated.{TableId};
    ghost use Rattle.world_calls.specs.declared.record.Record.{Record};
    ghost use Rattle.world.specs.World.{Setup};

    ghost setup: { Setup };

    ghost begun: { List Record };

    ghost table: { TableId };
}

impl Origin for Brand {
    ghost use Rattle.std.specs.Prelude.{[]};
    ghost use Rattle.monitor.specs.Nameless.{no_setup, no_table};

    ghost setup = { no_setup };

    ghost begun = { [] };

    ghost table = { no_table };
}

/// A monitor that has no name yet. Contracts see which cell it has.
#[derive(Drop)]
pub struct Opened {
    cell: Cell,
    seat: Seat,
}

impl Model for Opened {
    ghost use Rattle.std.specs.Prelude.{◌≡◌};
    ghost use Rattle.atomic_table.specs.Seated.{TableId};
    ghost use Rattle.crossbeam_utils.specs.Seq.{cell_view};
    ghost use Rattle.monitor.specs.Seats.{opening};

    ghost Value = { TableId };

    ghost view = { λ o. o.cell.table.shared.table_id };

    ghost invariant = { λ o. (o.seat.table_id ≡ o.cell.table.shared.table_id) × (cell_view o.seat ≡ opening) };
}

impl Opened {
    /// A monitor, which shows nothing yet. It takes memory for its cell.
    pub fn new(alloc: Global) -> Result<Self, AllocError> {
        let (cell, seat) = Cell::ruled(alloc, [0; 4])?;
        Ok(Opened { cell, seat })
    }

    /// The monitor under the name of an engine, and its keeper, which knows the history with which the engine begins. It takes no
    /// memory.
    pub fn named<B: Origin>(self) -> (Monitor<B>, Keeper<B>)
        requires table { self ≡ B.table }
        requires legal { AreLegal B.setup B.begun }
        ensures { result.1 ≡ record { history = unshared B.begun; callers = 0 } }
    {
        let Opened { cell, mut seat } = self;
        cell.split_pass::<Opens<B>>(&mut seat);
        (Monitor::new(cell), Keeper::new(seat))
    }
}
