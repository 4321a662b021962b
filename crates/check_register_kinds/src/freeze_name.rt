// The names of the freezes that a run gets. It relies on nothing.

ghost use Rattle.std.specs.Prelude.{◌≡◌, ◌↔◌, IsTrue};
ghost use Rattle.check_register_kinds.specs.Freezes.{is_name};

/// Which of the freezes that a run gets. A place is here the number of a check: of one instruction under one chain of open
/// calls. A run comes to each at most once, so each name is that of one freeze.
#[derive(Clone, Copy, Debug, PartialEq, Eq)]
pub enum FreezeName {
    /// The one with which the run starts.
    Start,
    /// The one that the helper call at this place takes.
    Call(u32),
}

impl FreezeName {
    /// Whether both are one name.
    pub fn is_same(self, other: FreezeName) -> bool
        ensures tested { result ≡ is_name self other }
        ensures same { IsTrue result ↔ (self ≡ other) }
    {
        match self {
            FreezeName::Start => match other {
                FreezeName::Start => true,
                FreezeName::Call(_) => false,
            },
            FreezeName::Call(place) => match other {
                FreezeName::Start => false,
                FreezeName::Call(other) => place == other,
            },
        }
    }
}
