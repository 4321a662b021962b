// A CCB that is not finished, with where it is. It relies on `ccb` for CCBs and on `world` for what contracts see.

ghost use Rattle.std.specs.Prelude.{◌≡◌};
ghost use Rattle.ccb.specs.Ccb.{advised, started, requeued};
ghost use Rattle.world.specs.declared.ccb_state.CcbState.TheVariants.{Active, Waiting};
ghost use Rattle.world.specs.Lookups.{is_active, is_waiting};
ghost use Rattle.engine_transport.specs.Carrying.{carried_of};

use ccb::{Ccb, CcbId};
use std::marker::Model;
use world::CcbState;
use world_calls::CarriedCcb;

/// A CCB that is not finished, with its state: it waits, is active, or is in recovery. Contracts see the world's
/// `LiveCcb`.
#[derive(Clone, Copy, Debug, PartialEq, Eq)]
pub struct LiveCcb {
    ccb: Ccb,
    state: CcbState,
}

impl Model for LiveCcb {
    ghost use Rattle.world.specs.World.{LiveCcb as WorldCcb};

    ghost Value = { WorldCcb };

    ghost view = { λ l. record { ccb = l.ccb; state = l.state } };

    ghost inverse = { λ w. record { ccb = w.ccb; state = w.state } };
}

impl LiveCcb {
    /// A CCB in this state.
    pub(crate) fn new(ccb: Ccb, state: CcbState) -> Self
        ensures { result ≡ record { ccb = ccb; state = state } }
    {
        LiveCcb { ccb, state }
    }

    /// A CCB that is taken over.
    pub(crate) fn carried(carried: &CarriedCcb) -> Self
        ensures { result ≡ carried_of carried.now }
    {
        let mut ccb = Ccb::new(
            carried.number,
            carried.queue,
            carried.priority,
            carried.retries,
            carried.class,
        );
        ccb.attempts = carried.attempts;
        ccb.advice = carried.advice;
        let state = if carried.is_active {
            CcbState::Active
        } else {
            CcbState::Waiting
        };
        LiveCcb { ccb, state }
    }

    /// The CCB.
    pub fn ccb(&self) -> Ccb
        ensures { result ≡ self.now.ccb }
    {
        self.ccb
    }

    /// The same, where it stands.
    pub(crate) fn as_ccb(&self) -> &Ccb
        ensures { result.now ≡ self.now.ccb }
    {
        &self.ccb
    }

    /// Where it is: it waits, is active, or is in recovery.
    pub fn state(&self) -> CcbState
        ensures { result ≡ self.now.state }
    {
        self.state
    }

    /// Whether a device works on it.
    pub fn is_active(&self) -> bool
        ensures { result ≡ is_active self.now.state }
    {
        match self.state {
            CcbState::Active => true,
            CcbState::Waiting | CcbState::InRecovery => false,
        }
    }

    /// Whether it waits.
    pub fn is_waiting(&self) -> bool
        ensures { result ≡ is_waiting self.now.state }
    {
        match self.state {
            CcbState::Waiting => true,
            CcbState::Active | CcbState::InRecovery => false,
        }
    }

    /// Its queue started it: a device works on it.
    pub(crate) fn start(&mut self)
        ensures { self.new ≡ record { ccb = started self.old.ccb; state = Active } }
    {
        self.ccb.start();
        self.state = CcbState::Active;
    }

    /// It waits again, with so many retries fewer, as far as it has that many.
    pub(crate) fn requeue(&mut self, used: u32)
        ensures { self.new ≡ record { ccb = requeued self.old.ccb used; state = Waiting } }
    {
        self.ccb.requeue(used);
        self.state = CcbState::Waiting;
    }

    /// This is what is advised for its next start, in place of what was advised before.
    pub(crate) fn advise(&mut self, word: u32)
        ensures { self.new ≡ record self.old { ccb = advised self.old.ccb word } }
    {
        self.ccb.advise(word);
    }

    /// The number of the CCB.
    pub(crate) fn number(&self) -> CcbId
        ensures { result ≡ self.now.ccb.number }
    {
        self.ccb.number
    }
}
