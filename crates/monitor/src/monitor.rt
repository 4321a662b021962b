// The sums of a shared engine, as those see them who have no lock. It relies on the cell's rule.

ghost use Rattle.std.specs.Prelude.{◌≡◌};
ghost use Rattle.monitor.specs.Seats.{Say};
ghost use Rattle.monitor.specs.Telling.{Reads};

use crate::origin::Origin;
use crate::rule::{Cell, WatchReads};
use crate::watch::Watch;
use std::marker::PhantomData;
use std::sync::Wait;
use world_calls::Totals;

/// The sums of an engine that is shared, beside its lock. It is shared by reference.
#[derive(Drop)]
pub struct Monitor<B: Origin> {
    pub(crate) cell: Cell,
    of: PhantomData<B>,
    pub ghost named: { cell.table.shared.table_id ≡ B.table },
}

impl<B: Origin> Monitor<B> {
    /// The monitor that has this cell.
    pub(crate) fn new(cell: Cell) -> Self
        requires { cell.table.shared.table_id ≡ B.table }
    {
        Monitor {
            cell,
            of: PhantomData,
        }
    }

    /// The sums of the history at some moment of the call. The history is legal, and begins with all that the watch had seen
    /// and was told of.
    ///
    /// It takes no memory and no lock of the engine. It may wait for others that publish or read.
    pub fn read<R: Wait>(&self, rt: &R, watch: &mut Watch<B>) -> Totals
        ensures { Reads B.setup watch.old result watch.new }
    {
        let words = self.cell.load_as::<WatchReads, R>(rt, &mut watch.seat);
        Totals {
            history: words[0],
            frozen: words[1] as u32,
            active: words[2] as u32,
            runs: words[3] as u32,
        }
    }
}

/// The words that say these sums.
pub(crate) fn words_of(totals: Totals) -> [u64; 4]
    ensures { Say result totals }
{
    [
        totals.history,
        u64::from(totals.frozen),
        u64::from(totals.active),
        u64::from(totals.runs),
    ]
}
