// What a command shows: the bytes on its two outputs, and its status. It relies on nothing.

ghost use Rattle.std.specs.Prelude.{◌≡◌, ◌↔◌, IsTrue};

/// What a command wrote, and the status that it ended with.
#[derive(Drop)]
pub struct Outcome {
    pub out: Vec<u8>,
    pub err: Vec<u8>,
    pub status: u8,
}

impl Outcome {
    /// Whether both show the same, byte for byte.
    pub fn is_same(&self, other: &Outcome) -> bool
        ensures { IsTrue result ↔ ((self.now.out.items ≡ other.now.out.items)
            × (self.now.err.items ≡ other.now.err.items)
            × (self.now.status ≡ other.now.status)) }
    {
        self.out.as_slice() == other.out.as_slice()
            && self.err.as_slice() == other.err.as_slice()
            && self.status == other.status
    }
}
