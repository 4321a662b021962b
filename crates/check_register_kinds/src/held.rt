// The freezes that a run holds, as far as is known, in a place of fixed size. It relies on `base` for how they are
// kept, and on `freeze_name`.

ghost use Rattle.std.specs.Prelude.{◌≡◌, ◌<◌, ◌≤◌, ◌↔◌, [], ◌∷◌, ◌++◌, length, IsTrue};
ghost use Rattle.check_register_kinds.specs.declared.freeze_name.FreezeName.TheVariants.{Start};
ghost use Rattle.check_register_kinds.specs.Freezes.{certainty_of, made_sure as sure_of, open_freeze, with_sure, without};

use crate::freeze_name::FreezeName;
use base::{Blank, PaddedList};
use bpf_semantics::MAX_HELD;
use std::marker::Model;

/// The greatest number of a freeze.
pub const GREATEST_FREEZE: u64 = 0xffff_ffff;

/// Whether a freeze may be 0.
#[derive(Clone, Copy, Debug, PartialEq, Eq)]
pub enum Certainty {
    /// It is 0 where the run got none.
    Open,
    /// It is not 0.
    Sure,
}

impl Certainty {
    // Whether both are as sure.
    fn is_same(self, other: Certainty) -> bool
        ensures { IsTrue result ↔ (self ≡ other) }
    {
        match self {
            Certainty::Open => match other {
                Certainty::Open => true,
                Certainty::Sure => false,
            },
            Certainty::Sure => match other {
                Certainty::Open => false,
                Certainty::Sure => true,
            },
        }
    }
}

/// A freeze that a run holds, or one that it would hold had it got it.
#[derive(Clone, Copy, Debug, PartialEq, Eq)]
pub struct HeldFreeze {
    pub name: FreezeName,
    pub certainty: Certainty,
}

impl Blank for HeldFreeze {
    ghost blank = { open_freeze Start };

    fn blank() -> Self {
        HeldFreeze {
            name: FreezeName::Start,
            certainty: Certainty::Open,
        }
    }

    fn is_same(&self, other: &Self) -> bool {
        self.name.is_same(other.name) && self.certainty.is_same(other.certainty)
    }
}

/// The freezes that a run holds, at most `MAX_HELD` of them, in the order in which it got them. Contracts see the list.
#[derive(Clone, Copy, Debug, PartialEq, Eq)]
pub struct Held {
    freezes: PaddedList<HeldFreeze, MAX_HELD>,
}

impl Model for Held {
    ghost use Rattle.std.specs.Prelude.{List};
    ghost use Rattle.check_register_kinds.specs.declared.held.HeldFreeze.{HeldFreeze};

    ghost Value = { List HeldFreeze };

    ghost view = { λ h. h.freezes };

    ghost inverse = { λ freezes. record { freezes = freezes } };
}

impl Held {
    /// No freeze.
    pub fn none() -> Self
        ensures { result ≡ [] }
    {
        Held {
            freezes: PaddedList::none(),
        }
    }

    /// The one with which a run starts, if it got one.
    pub fn at_start() -> Self
        ensures { result ≡ open_freeze Start ∷ [] }
    {
        let mut held = Held::none();
        held.push(HeldFreeze {
            name: FreezeName::Start,
            certainty: Certainty::Open,
        });
        held
    }

    /// The freezes.
    pub fn as_slice(&self) -> &[HeldFreeze]
        ensures freezes { result.now ≡ self.now }
        ensures few { length self.now ≤ MAX_HELD }
    {
        self.freezes.as_slice()
    }

    /// Whether there is none.
    pub fn is_empty(&self) -> bool
        ensures { IsTrue result ↔ (self.now ≡ []) }
    {
        self.freezes.is_empty()
    }

    /// How many there are.
    pub fn len(&self) -> usize
        ensures count { result ≡ length self.now }
        ensures few { result ≤ MAX_HELD }
    {
        self.freezes.len()
    }

    /// Whether both are the same freezes, as sure, in the same order.
    pub fn is_same(&self, other: &Self) -> bool
        ensures { IsTrue result ↔ (self.now ≡ other.now) }
    {
        self.freezes.is_same(&other.freezes)
    }

    /// One freeze more, which comes last.
    pub fn push(&mut self, freeze: HeldFreeze)
        requires { length self.old < MAX_HELD }
        ensures { self.new ≡ self.old ++ freeze ∷ [] }
    {
        self.freezes.push(freeze);
    }

    /// How sure the freeze of that name is, where it is held.
    pub fn certainty(&self, name: FreezeName) -> Option<Certainty>
        ensures { result ≡ certainty_of self.now name }
    {
        self.as_slice()
            .iter()
            .find(|freeze| freeze.name.is_same(name))
            .map(|freeze| freeze.certainty)
    }

    /// All but the freeze of that name.
    pub fn without(&self, name: FreezeName) -> Self
        ensures { result ≡ without self.now name }
    {
        let mut kept = Held::none();
        for freeze in self.as_slice() {
            if !freeze.name.is_same(name) {
                kept.push(*freeze);
            }
        }
        kept
    }

    /// All of them, where the freeze of that name is sure not to be 0.
    pub fn with_sure(&self, name: FreezeName) -> Self
        ensures { result ≡ with_sure self.now name }
    {
        let mut held = Held::none();
        for freeze in self.as_slice() {
            held.push(made_sure(*freeze, name));
        }
        held
    }
}

// The freeze, and sure not to be 0 where it has that name.
fn made_sure(freeze: HeldFreeze, name: FreezeName) -> HeldFreeze
    ensures { result ≡ sure_of name freeze }
{
    if freeze.name.is_same(name) {
        HeldFreeze {
            name: freeze.name,
            certainty: Certainty::Sure,
        }
    } else {
        freeze
    }
}
