// The right to take from an inbox, one for a thread.
// It relies on the queue's seats, which take no memory, and are split and joined without a step at the queue.
ghost use Rattle.std.specs.Prelude.{◌≡◌};
ghost use Rattle.inbox.specs.InboxLists.{known_by, learned};
ghost use Rattle.inbox.specs.Views.{IsOf};

use crate::inbox::Inbox;
use crate::receipt::Receipt;
use crate::rule::{Seat, Tells};
use std::marker::Model;

/// The right to take from one inbox. It takes no memory. It cannot be copied or dropped: it is spent at the inbox's `close`.
///
/// To contracts it is the queue that it is of, and its account: its number, what it took, in its order, what of the inbox's lists it had seen when it last took, and what it was told.
pub struct TakePass {
    pub(crate) seat: Seat,
}

impl Model for TakePass {
    ghost use Rattle.std.specs.Prelude.{◌≡◌, ◌+◌, ◌<◌, ◌≤◌, []};
    ghost use Rattle.inbox.specs.Seats.{known, holding};
    ghost use Rattle.inbox.specs.Views.{PassView};

    ghost Value = { PassView };

    ghost view = { λ p. record { queue = p.seat.table_id; account = (known p.seat).account } };

    ghost invariant = { λ p. (p.seat.me.1 ≡ []) × (known p.seat ≡ holding (known p.seat).account [] []) × ((known p.seat).account.shape.puts ≤ (known p.seat).account.number) × ((known p.seat).account.number < (known p.seat).account.shape.puts + (known p.seat).account.shape.takes) };
}

impl TakePass {
    /// A receipt of what this pass took and saw, and was told. The pass stays as it is.
    ///
    /// Takes no memory, and waits for nobody.
    pub fn receipt(&mut self, inbox: &Inbox) -> Receipt
        requires { IsOf inbox.now self.old }
        ensures same { self.new ≡ self.old }
        ensures queue { result.queue ≡ inbox.now.queue }
        ensures told { result.told ≡ known_by self.old.account }
    {
        let seat = inbox.queue.another::<Tells>(&mut self.seat);
        Receipt { seat }
    }

    /// From here on this pass takes nothing only where all puts that the receipt tells of are taken.
    ///
    /// Takes no memory, and waits for nobody.
    pub fn learn(&mut self, inbox: &Inbox, receipt: Receipt)
        requires pass { IsOf inbox.now self.old }
        requires receipt { receipt.queue ≡ inbox.now.queue }
        ensures { self.new ≡ record self.old { account = learned self.old.account receipt.told } }
    {
        inbox.queue.absorb::<Tells>(&mut self.seat, receipt.seat);
    }

    /// Spends the pass and changes no inbox: it is for one whose inbox is let go.
    pub fn forfeit(self) {
        let TakePass { seat: _ } = self;
    }
}
