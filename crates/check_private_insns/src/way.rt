// Which of an instruction's two ways is gone.

ghost use Rattle.std.specs.Prelude.{◌≡◌};
ghost use Rattle.check_private_insns.specs.GoesOn.{is_taken};

/// Where an instruction leads.
#[derive(Clone, Copy, Debug, PartialEq, Eq)]
pub enum Way {
    /// To the instruction after it.
    FallThrough,
    /// To the target of its jump.
    Taken,
}

impl Way {
    /// Whether it is that of the jump.
    pub fn is_taken(self) -> bool
        ensures { result ≡ is_taken self }
    {
        matches!(self, Way::Taken)
    }
}
