// What a caller has seen of the history, for others to learn. It relies on the cell's seats, which take no memory.
use crate::origin::Origin;
use crate::rule::Seat;
use std::marker::{Model, PhantomData};

/// What a caller had seen of the history when it gave the receipt, and what it was told by then. It takes no memory, and may be
/// sent to another thread or dropped; it is good for one caller or watch, and a caller may give any number.
///
/// Contracts see the histories that it tells of.
#[derive(Drop)]
pub struct Receipt<B: Origin> {
    pub(crate) seat: Seat,
    of: PhantomData<B>,
}

impl<B: Origin> Model for Receipt<B> {
    ghost use Rattle.std.specs.Prelude.{◌≡◌, List, []};
    ghost use Rattle.crossbeam_utils.specs.Seq.{cell_view};
    ghost use Rattle.monitor.specs.declared.knowledge.Pair.{Pair};

    ghost Value = { List (List Pair) };

    ghost view = { λ r. (cell_view r.seat).told };

    ghost invariant = { λ r. (r.seat.table_id ≡ B.table) × (r.seat.me.1 ≡ []) };
}

impl<B: Origin> Receipt<B> {
    ghost use Rattle.std.specs.Prelude.{◌≡◌, []};
    ghost use Rattle.crossbeam_utils.specs.Seq.{cell_view};

    /// The receipt that has this seat.
    pub(crate) fn new(seat: Seat) -> Self
        requires cell { (seat.table_id ≡ B.table) × (seat.me.1 ≡ []) }
        ensures { result ≡ (cell_view seat).told }
    {
        Receipt {
            seat,
            of: PhantomData,
        }
    }
}
