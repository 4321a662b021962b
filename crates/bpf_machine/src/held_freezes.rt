// The freezes that a run holds, in a place of fixed size, so that a machine is copied and compared without memory. It
// relies on `base` for how they are kept, and on `bpf_semantics` for how many there may be.

ghost use Rattle.std.specs.Prelude.{◌≡◌, ◌≤◌, ◌<◌, ◌==◌, ◌↔◌, [], ◌∷◌, ◌++◌, length, nat_eq, IsTrue, not, filter, if◌then◌else◌};
ghost use Rattle.std.specs.Cmp.Lexicographic.{pointwise, nat_list_eq_equiv};
ghost use Rattle.std.specs.Cmp.{partial_equiv_from_equiv};

use base::PaddedList;
use bpf_semantics::MAX_HELD;
use std::marker::Model;

/// The numbers of the freezes that a run holds, from 0 to `MAX_HELD` of them, in the order in which it got them.
/// Contracts see the list.
#[derive(Clone, Copy, Debug)]
pub struct HeldFreezes {
    numbers: PaddedList<u32, MAX_HELD>,
}

impl Model for HeldFreezes {
    ghost use Rattle.std.specs.Prelude.{ℕ, List};

    ghost Value = { List ℕ };

    ghost view = { λ h. h.numbers };

    ghost inverse = { λ numbers. record { numbers = numbers } };
}

impl HeldFreezes {
    /// No freeze.
    pub fn none() -> Self
        ensures { result ≡ [] }
    {
        HeldFreezes {
            numbers: PaddedList::none(),
        }
    }

    /// Whether both are the same freezes in the same order. Only those that are held are looked at.
    pub fn is_same(&self, other: &Self) -> bool
        ensures { IsTrue result ↔ (self.now ≡ other.now) }
    {
        self.numbers.is_same(&other.numbers)
    }

    /// The freeze that a run was started with, or none as 0.
    pub fn at_start(freeze: u32) -> Self
        ensures { result ≡ (if freeze == 0 then [] else freeze ∷ []) }
    {
        let mut held = HeldFreezes::none();
        if freeze == 0 {
            return held;
        }
        held.push(freeze);
        held
    }

    /// The numbers.
    pub fn as_slice(&self) -> &[u32]
        ensures numbers { result.now ≡ self.now }
        ensures few { length self.now ≤ MAX_HELD }
    {
        self.numbers.as_slice()
    }

    /// One freeze more, which comes last.
    pub fn push(&mut self, freeze: u32)
        requires { length self.old < MAX_HELD }
        ensures { self.new ≡ self.old ++ freeze ∷ [] }
    {
        self.numbers.push(freeze);
    }

    /// All but that freeze.
    pub fn without(&self, freeze: u64) -> Self
        ensures { result ≡ filter (λ number. not (number == freeze)) self.now }
    {
        let mut kept = HeldFreezes::none();
        for number in self.as_slice() {
            if u64::from(*number) != freeze {
                kept.push(*number);
            }
        }
        kept
    }
}

impl PartialEq for HeldFreezes {
    ghost eq = { pointwise nat_eq };

    ghost laws = { partial_equiv_from_equiv nat_list_eq_equiv };

    /// Whether both are the same freezes in the same order.
    fn eq(&self, other: &Self) -> bool
        ensures tested { result ≡ pointwise nat_eq self.now other.now }
        ensures same { IsTrue result ↔ (self.now ≡ other.now) }
    {
        self.as_slice() == other.as_slice()
    }
}

impl Eq for HeldFreezes {
    ghost laws = { nat_list_eq_equiv };
}
