// Who publishes: the keeper stands under the lock of the shared engine, beside the engine, and knows the whole history. It relies
// on `steps` for what happens at the cell.

ghost use Rattle.std.specs.Prelude.{◌≡◌, ◌+◌, ◌++◌};
ghost use Rattle.crossbeam_utils.specs.Seq.{cell_view};
ghost use Rattle.world.specs.TotalsOf.{TotalsOf};
ghost use Rattle.monitor.specs.LegalHistory.{all_by, records};
ghost use Rattle.monitor.specs.Seats.{IsKeeper, keeper_state};
ghost use Rattle.monitor.specs.Telling.{Agrees, Joins, Looks, new_caller, new_watch};

use crate::caller_part::CallerPart;
use crate::monitor::{Monitor, words_of};
use crate::origin::Origin;
use crate::rule::{GivesOut, LetsWatch, Seat, ShowsAgain, Told};
use crate::steps::{look_as, publish_as};
use crate::watch::Watch;
use std::marker::{Model, PhantomData};
use std::sync::Wait;
use world_calls::Totals;

/// The right to publish, one for a monitor. Contracts see the whole history, each record with its caller, and how many callers'
/// parts were given out. It takes no memory.
#[derive(Drop)]
pub struct Keeper<B: Origin> {
    seat: Seat,
    of: PhantomData<B>,
}

impl<B: Origin> Model for Keeper<B> {
    ghost use Rattle.std.specs.Prelude.{◌≡◌};
    ghost use Rattle.crossbeam_utils.specs.Seq.{cell_view};
    ghost use Rattle.monitor.specs.Seats.{IsKeeper, keeper_state};
    ghost use Rattle.monitor.specs.Telling.{KeeperState};

    ghost Value = { KeeperState };

    ghost view = { λ k. keeper_state (cell_view k.seat) };

    ghost invariant = { λ k. (k.seat.table_id ≡ B.table) × IsKeeper B.setup (cell_view k.seat) };
}

impl<B: Origin> Keeper<B> {
    /// The keeper that has this seat.
    pub(crate) fn new(seat: Seat) -> Self
        requires cell { seat.table_id ≡ B.table }
        requires keeper { IsKeeper B.setup (cell_view seat) }
        ensures { result ≡ keeper_state (cell_view seat) }
    {
        Keeper {
            seat,
            of: PhantomData,
        }
    }

    /// The part of one caller more. It has made no record, and has seen the history so far. It takes no memory, and waits for
    /// nobody.
    pub fn caller(&mut self, monitor: &Monitor<B>) -> CallerPart<B>
        ensures given { self.new ≡ record self.old { callers = self.old.callers + 1 } }
        ensures caller { result ≡ new_caller self.old }
    {
        CallerPart::new(monitor.cell.split_pass::<GivesOut>(&mut self.seat))
    }

    /// A watch, which has seen the history so far, whose sums these are: they are shown again, since a new monitor shows none.
    /// It takes no memory, and may wait for those that read.
    pub fn watch<R: Wait>(&mut self, rt: &R, monitor: &Monitor<B>, totals: Totals) -> Watch<B>
        requires totals { TotalsOf B.setup (records self.old.history) totals }
        ensures same { self.new ≡ self.old }
        ensures watch { result ≡ new_watch self.old }
    {
        let cell = &monitor.cell;
        let words = words_of(totals);
        cell.swap_as::<ShowsAgain, R>(rt, &mut self.seat, words);
        Watch::new(cell.split_pass::<LetsWatch>(&mut self.seat))
    }

    /// Records that a caller made join the history, at its end, one after the other and in one step: nobody sees some of them
    /// alone. The caller has seen the history with them, and the sums of that are shown. It takes no memory, and may wait for those
    /// that read.
    ///
    /// Only the proof knows the records: they are those of `S`.
    pub fn publish<S: Told, R: Wait>(
        &mut self,
        rt: &R,
        monitor: &Monitor<B>,
        caller: &mut CallerPart<B>,
        totals: Totals,
    )
        requires totals { TotalsOf B.setup (records self.old.history ++ S.told) totals }
        ensures history { self.new ≡ record self.old { history = self.old.history ++ all_by caller.old.number S.told } }
        ensures caller { Joins B.setup self.old.history caller.old S.told caller.new }
    {
        publish_as::<B, S, R>(rt, &monitor.cell, &mut self.seat, &mut caller.seat, totals);
    }

    /// A caller sees the whole history, without a record of its own. It takes no memory, and may wait for those that read.
    pub fn look<R: Wait>(&mut self, rt: &R, monitor: &Monitor<B>, caller: &mut CallerPart<B>)
        ensures same { self.new ≡ self.old }
        ensures caller { Looks B.setup self.old.history caller.old caller.new }
    {
        look_as::<B, R>(rt, &monitor.cell, &mut self.seat, &mut caller.seat);
    }

    /// Takes a caller's part back. The history begins with all that the caller has seen and was told of, and of this caller it
    /// has just the records that it made. It takes no memory, and may wait for those that read.
    pub fn retire<R: Wait>(&mut self, rt: &R, monitor: &Monitor<B>, mut caller: CallerPart<B>)
        ensures same { self.new ≡ self.old }
        ensures agrees { Agrees self.old.history caller }
    {
        self.look(rt, monitor, &mut caller);
        let CallerPart { seat, of: _ } = caller;
        drop(seat);
    }
}
