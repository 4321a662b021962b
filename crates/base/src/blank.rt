// What stands in the places of a padded list that are not in use. It relies on nothing.

ghost use Rattle.std.specs.Prelude.{◌≡◌, ◌↔◌, IsTrue};

/// A type with one value that stands in each place which is not in use, so that a list is kept in one way.
pub trait Blank: Copy {
    ghost blank: { Self };

    /// The value of a place that is not in use.
    fn blank() -> Self
        ensures { result ≡ blank };

    /// Whether both are one value.
    fn is_same(&self, other: &Self) -> bool
        ensures { IsTrue result ↔ (self.now ≡ other.now) };
}

impl Blank for u8 {
    ghost blank = { 0 };

    #[inline(always)]
    fn blank() -> Self {
        0
    }

    #[inline(always)]
    fn is_same(&self, other: &Self) -> bool {
        *self == *other
    }
}

impl Blank for u32 {
    ghost blank = { 0 };

    #[inline(always)]
    fn blank() -> Self {
        0
    }

    #[inline(always)]
    fn is_same(&self, other: &Self) -> bool {
        *self == *other
    }
}
