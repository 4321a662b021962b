// What one entry of the ledger is. It relies on `place` for what freezes.

ghost use Rattle.std.specs.Prelude.{◌≡◌, ◌↔◌, IsTrue};

use ccb::Place;

/// Who keeps a place frozen.
#[derive(Clone, Copy, Debug, PartialEq, Eq)]
pub enum Holder {
    /// The run of that number.
    Run(u32),
    /// A timer that lets the freeze go at that clock reading, in milliseconds.
    Timer(u64),
    /// A guest outside the transport, by the number that it chose.
    Guest(u32),
}

/// One freeze of a place: an entry of the ledger.
#[derive(Clone, Copy, Debug, PartialEq, Eq)]
pub struct Freeze {
    /// From 1 to 4,294,967,295, never used again.
    pub number: u32,
    pub place: Place,
    pub holder: Holder,
}

impl Freeze {
    /// Whether both are one entry, part by part.
    pub(crate) fn is_same(&self, other: &Freeze) -> bool
        ensures { IsTrue result ↔ (self.now ≡ other.now) }
    {
        self.number == other.number && self.place == other.place && self.holder == other.holder
    }
}
