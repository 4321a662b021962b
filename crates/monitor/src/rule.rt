// The rule of the cell, and its steps: records are published, the sums are shown again, a caller looks, a watch reads. Parts of
// views go from seat to seat by splitting and joining, without a step at the words. It relies on `crossbeam_utils`, whose cell
// keeps the rule whatever its threads do.
use crate::knowledge::View;
use crate::origin::Origin;
use atomic_table::{Join, Split};
use crossbeam_utils::atomic::seq_cell::{Pass, RuledSeqCell};
use crossbeam_utils::rule::{Outcome, Protocol};
use std::marker::{Brand, PhantomData};

/// There is one legal history, and what each seat knows of it is so.
pub struct OneHistory;

impl Protocol<[u64; 4], View> for OneHistory {
    ghost use Rattle.monitor.specs.Seats.{Kept, opening};

    ghost holds = { Kept };

    ghost first = { opening };
}

/// The words are the number of records, of freezes, of active CCBs and of live runs.
pub type Cell = RuledSeqCell<[u64; 4], View, OneHistory, 4>;

pub type Seat = Pass<[u64; 4], View>;

/// The records that are published, for their proof. Whoever publishes passes `Brand` to a function over this, of whose arguments one
/// tells the records, and picks them there.
pub trait Told {
    ghost use Rattle.std.specs.Prelude.{List};
    ghost use Rattle.world_calls.specs.declared.record.Record.{Record};

    ghost told: { List Record };
}

impl Told for Brand {
    ghost use Rattle.std.specs.Prelude.{[]};

    ghost told = { [] };
}

/// A caller's records join the history, and its sums are shown.
pub struct Publishes<S: Told>(PhantomData<S>);

impl<S: Told> Outcome<[u64; 4], View> for Publishes<S> {
    ghost use Rattle.monitor.specs.Seats.{Extends};

    ghost then = { λ v x y w. Extends v S.told w };
}

/// The sums of the history are shown again.
pub struct ShowsAgain;

impl Outcome<[u64; 4], View> for ShowsAgain {
    ghost use Rattle.monitor.specs.Seats.{ShownAgain};

    ghost then = { ShownAgain };
}

/// A caller sees the whole history.
pub struct CallerLooks;

impl Outcome<[u64; 4], View> for CallerLooks {
    ghost use Rattle.monitor.specs.Seats.{HasLooked};

    ghost then = { λ v x y w. HasLooked v w };
}

/// A watch sees the history whose sums are shown.
pub struct WatchReads;

impl Outcome<[u64; 4], View> for WatchReads {
    ghost use Rattle.monitor.specs.Seats.{HasRead};

    ghost then = { λ v x y w. HasRead v y w };
}

/// The first seat becomes the keeper's, and the second is used up.
pub struct Opens<B: Origin>(PhantomData<B>);

impl<B: Origin> Split<View> for Opens<B> {
    ghost use Rattle.monitor.specs.Seats.{keeping, nothing};

    ghost left = { λ v. keeping B.setup B.begun };

    ghost right = { λ v. nothing };
}

/// The keeper gives a caller's part out.
pub struct GivesOut;

impl Split<View> for GivesOut {
    ghost use Rattle.monitor.specs.Seats.{with_caller, new_part};

    ghost left = { with_caller };

    ghost right = { new_part };
}

/// A caller's part goes to another seat.
pub struct HandsOver;

impl Split<View> for HandsOver {
    ghost use Rattle.monitor.specs.Seats.{without_part, part};

    ghost left = { without_part };

    ghost right = { part };
}

impl Join<View> for HandsOver {
    ghost use Rattle.monitor.specs.Seats.{with_part, nothing};

    ghost both = { with_part };

    ghost spent = { nothing };
}

/// The keeper gives a watch out.
pub struct LetsWatch;

impl Split<View> for LetsWatch {
    ghost use Rattle.monitor.specs.Seats.{watching};

    ghost left = { λ v. v };

    ghost right = { watching };
}

/// A caller tells what it has seen and was told, and another seat learns it.
pub struct Tells;

impl Split<View> for Tells {
    ghost use Rattle.monitor.specs.Seats.{receipt};

    ghost left = { λ v. v };

    ghost right = { receipt };
}

impl Join<View> for Tells {
    ghost use Rattle.monitor.specs.Seats.{informed, nothing};

    ghost both = { informed };

    ghost spent = { nothing };
}
