// A caller of a shared engine. It relies on `object` for which engine that is, and on `monitor` for what a caller knows of its
// history.

ghost use Rattle.std.specs.Prelude.{◌≡◌, ◌++◌};
ghost use Rattle.monitor.specs.Telling.{known};

use crate::object::Object;
use crate::shared::Shared;
use monitor::{CallerPart, Receipt};
use std::marker::Model;
use std::sync::ledger::Share;

/// The right to call one shared engine, for one thread at a time. It takes no memory. It cannot be copied or dropped: it is
/// spent at the engine's `close`. Contracts see its number, the records that its calls made, what it has seen of the shared
/// history, and what it was told since.
pub struct Caller<B: Object> {
    pub(crate) calls: Share<B>,
    pub(crate) part: CallerPart<B>,
}

impl<B: Object> Model for Caller<B> {
    ghost use Rattle.std.specs.Prelude.{◌≡◌, length};
    ghost use Rattle.monitor.specs.Telling.{CallerState};

    ghost Value = { CallerState };

    ghost view = { λ c. c.part };

    ghost invariant = { λ c. (c.calls.parts ≡ 1) × (c.calls.amount ≡ length c.part.mine) };
}

impl<B: Object> Caller<B> {
    /// A receipt of what this caller has seen and was told. The caller stays as it is. It takes no memory, and waits for nobody.
    pub fn receipt(&mut self, shared: &Shared<B>) -> Receipt<B>
        ensures same { self.new ≡ self.old }
        ensures told { result ≡ known self.old }
    {
        self.part.receipt(&shared.monitor)
    }

    /// From here on what this caller sees begins with all that the receipt tells of. It takes no memory, and waits for nobody.
    pub fn learn(&mut self, shared: &Shared<B>, receipt: Receipt<B>)
        ensures { self.new ≡ record self.old { told = receipt ++ self.old.told } }
    {
        self.part.learn(&shared.monitor, receipt);
    }

    /// Spends the caller and changes no engine: it is for one whose engine is let go, which cannot be closed without it.
    pub fn forfeit(self) {
        let Caller { calls: _, part } = self;
        part.forfeit();
    }
}
