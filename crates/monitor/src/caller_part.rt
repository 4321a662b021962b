// What a caller of a shared engine knows of its history. It relies on the cell's seats, which take no memory, and are split and
// joined without a step at the cell.

ghost use Rattle.std.specs.Prelude.{◌≡◌, ◌++◌};
ghost use Rattle.crossbeam_utils.specs.Seq.{cell_view};
ghost use Rattle.monitor.specs.Seats.{IsCaller, caller_state};
ghost use Rattle.monitor.specs.Telling.{known};

use crate::monitor::Monitor;
use crate::origin::Origin;
use crate::receipt::Receipt;
use crate::rule::{Seat, Tells};
use std::marker::{Model, PhantomData};

/// A caller's part of the monitor: its number, the records that it made, and what it has seen and was told of the history. It
/// takes no memory. It cannot be copied or dropped: the keeper takes it back (`Keeper::retire`).
pub struct CallerPart<B: Origin> {
    pub(crate) seat: Seat,
    pub(crate) of: PhantomData<B>,
}

impl<B: Origin> Model for CallerPart<B> {
    ghost use Rattle.std.specs.Prelude.{◌≡◌};
    ghost use Rattle.crossbeam_utils.specs.Seq.{cell_view};
    ghost use Rattle.monitor.specs.Seats.{IsCaller, caller_state};
    ghost use Rattle.monitor.specs.Telling.{CallerState};

    ghost Value = { CallerState };

    ghost view = { λ c. caller_state (cell_view c.seat) };

    ghost invariant = { λ c. (c.seat.table_id ≡ B.table) × IsCaller B.setup (cell_view c.seat) };
}

impl<B: Origin> CallerPart<B> {
    /// The part that has this seat.
    pub(crate) fn new(seat: Seat) -> Self
        requires cell { seat.table_id ≡ B.table }
        requires caller { IsCaller B.setup (cell_view seat) }
        ensures { result ≡ caller_state (cell_view seat) }
    {
        CallerPart {
            seat,
            of: PhantomData,
        }
    }

    /// A receipt of what this caller has seen and was told. The caller stays as it is. It takes no memory, and waits for nobody.
    pub fn receipt(&mut self, monitor: &Monitor<B>) -> Receipt<B>
        ensures same { self.new ≡ self.old }
        ensures told { result ≡ known self.old }
    {
        Receipt::new(monitor.cell.split_pass::<Tells>(&mut self.seat))
    }

    /// From here on what this caller sees begins with all that the receipt tells of. It takes no memory, and waits for nobody.
    pub fn learn(&mut self, monitor: &Monitor<B>, receipt: Receipt<B>)
        ensures { self.new ≡ record self.old { told = receipt ++ self.old.told } }
    {
        let cell = &monitor.cell;
        cell.join_pass::<Tells>(&mut self.seat, receipt.seat);
    }

    /// Spends the part and tells nobody: it is for one whose engine is let go.
    pub fn forfeit(self) {
        let CallerPart { seat, of: _ } = self;
        drop(seat);
    }
}
