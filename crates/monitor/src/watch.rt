// Who reads the sums of a shared engine. It relies on the cell's seats, which take no memory, and are split and joined without a
// step at the cell.

ghost use Rattle.std.specs.Prelude.{◌≡◌, ◌++◌};
ghost use Rattle.crossbeam_utils.specs.Seq.{cell_view};
ghost use Rattle.monitor.specs.Seats.{IsWatch, watch_state};

use crate::monitor::Monitor;
use crate::origin::Origin;
use crate::receipt::Receipt;
use crate::rule::{Seat, Tells};
use std::marker::{Model, PhantomData};

/// The right to read a monitor, for one thread at a time, with what was seen and told of the history. It takes no memory, and may
/// be dropped.
#[derive(Drop)]
pub struct Watch<B: Origin> {
    pub(crate) seat: Seat,
    of: PhantomData<B>,
}

impl<B: Origin> Model for Watch<B> {
    ghost use Rattle.std.specs.Prelude.{◌≡◌};
    ghost use Rattle.crossbeam_utils.specs.Seq.{cell_view};
    ghost use Rattle.monitor.specs.Seats.{IsWatch, watch_state};
    ghost use Rattle.monitor.specs.Telling.{WatchState};

    ghost Value = { WatchState };

    ghost view = { λ w. watch_state (cell_view w.seat) };

    ghost invariant = { λ w. (w.seat.table_id ≡ B.table) × IsWatch B.setup (cell_view w.seat) };
}

impl<B: Origin> Watch<B> {
    /// The watch that has this seat.
    pub(crate) fn new(seat: Seat) -> Self
        requires cell { seat.table_id ≡ B.table }
        requires watch { IsWatch B.setup (cell_view seat) }
        ensures { result ≡ watch_state (cell_view seat) }
    {
        Watch {
            seat,
            of: PhantomData,
        }
    }

    /// From here on what is read begins with all that the receipt tells of. It takes no memory, and waits for nobody.
    pub fn learn(&mut self, monitor: &Monitor<B>, receipt: Receipt<B>)
        ensures { self.new ≡ record self.old { told = receipt ++ self.old.told } }
    {
        let cell = &monitor.cell;
        cell.join_pass::<Tells>(&mut self.seat, receipt.seat);
    }
}
