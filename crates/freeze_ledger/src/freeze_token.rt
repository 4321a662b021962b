// The right to give one freeze back. It relies on `freeze`.

ghost use Rattle.std.specs.Prelude.{◌≡◌};

use crate::freeze::{Freeze, Holder};
use ccb::Place;
use std::marker::Model;

/// Stands for one freeze that was taken. It is neither copied nor dropped: it is given back to a
/// ledger, handed over to a timer, or forfeited. Contracts see it as its freeze. It keeps the key under which
/// its entry was entered, which says where to look first and no more: keys are used again.
pub struct FreezeToken {
    freeze: Freeze,
    key: usize,
}

impl Model for FreezeToken {
    ghost use Rattle.freeze_ledger.specs.declared.freeze.Freeze.{Freeze};

    ghost Value = { Freeze };

    ghost view = { λ t. t.freeze };
}

impl FreezeToken {
    /// Only the ledger makes one, for a freeze that it has just entered.
    pub(crate) fn new(freeze: Freeze, key: usize) -> Self
        ensures { result ≡ freeze }
    {
        FreezeToken { freeze, key }
    }

    /// The number of the freeze, from 1.
    pub fn number(&self) -> u32
        ensures { result ≡ self.now.number }
    {
        self.freeze.number
    }

    /// The place that it freezes.
    pub fn place(&self) -> Place
        ensures { result ≡ self.now.place }
    {
        self.freeze.place
    }

    /// Who held it when it was taken.
    pub fn holder(&self) -> Holder
        ensures { result ≡ self.now.holder }
    {
        self.freeze.holder
    }

    /// Spends the token and leaves its entry where it is: the place stays frozen.
    pub fn forfeit(self) {
        let FreezeToken { freeze: _, key: _ } = self;
    }

    pub(crate) fn freeze(&self) -> Freeze
        ensures { result ≡ self.now }
    {
        self.freeze
    }

    /// The key under which its entry was entered.
    pub(crate) fn key(&self) -> usize {
        self.key
    }
}
