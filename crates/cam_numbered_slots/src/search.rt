// The search by number. It relies on nothing.

ghost use Rattle.std.specs.Prelude.{◌≡◌, ℕ, ◌<◌, ◌≤◌, length};
ghost use Rattle.std.specs.List.{AllWithin};
ghost use Rattle.std.specs.List.Sorted.{IsNonDecreasingBy};

/// What bears a number.
pub trait Numbered {
    ghost number_of: { Self → ℕ };

    /// The number.
    fn number(&self) -> u32
        ensures { result ≡ number_of self.now };
}

/// How many of these have a lower number: where the one of this number stands, if it is there, by binary search.
pub fn place_for<T: Numbered>(all: &[T], number: u32) -> usize
    requires { IsNonDecreasingBy T.number_of all.now }
    ensures within { result ≤ length all.now }
    ensures lower { AllWithin (λ it. T.number_of it < number) all.now 0 result }
    ensures others { AllWithin (λ it. number ≤ T.number_of it) all.now result (length all.now) }
{
    all.partition_point(|it| it.number() < number)
}
