// What one pass knows of its inbox, for another pass to learn.
// It relies on the queue's seats, which take no memory.
use crate::rule::Seat;
use std::marker::Model;

/// What a pass knew of its inbox when it gave the receipt: of the lists of all that was put and all that was taken, those that it saw when it last put or took, and those that it was told of. It takes no memory, and may be sent to another thread or dropped; it is good for one pass, and a pass may give any number.
///
/// To contracts it is the queue that it is of, and what it tells.
#[derive(Drop)]
pub struct Receipt {
    pub(crate) seat: Seat,
}

impl Model for Receipt {
    ghost use Rattle.std.specs.Prelude.{◌≡◌, []};
    ghost use Rattle.inbox.specs.Seats.{known, telling};
    ghost use Rattle.inbox.specs.Views.{ReceiptView};

    ghost Value = { ReceiptView };

    ghost view = { λ r. record { queue = r.seat.table_id; told = (known r.seat).account.told } };

    ghost invariant = { λ r. (r.seat.me.1 ≡ []) × (known r.seat ≡ telling (known r.seat).account.told) };
}
