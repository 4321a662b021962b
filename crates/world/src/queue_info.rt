// What helper 9 tells of a queue. It relies on `byteorder` for words in memory.

ghost use Rattle.std.specs.Prelude.{◌≡◌};
ghost use Rattle.world.specs.QueueInfo.{info_bytes};

use byteorder::{ByteOrder, LittleEndian};

/// What a queue has.
#[derive(Clone, Copy, Debug, PartialEq, Eq)]
pub struct QueueInfo {
    /// Its freezes, at most 255.
    pub frozen: u32,
    /// Its active CCBs, at most 256.
    pub active: u32,
    /// Its waiting CCBs, at most 256.
    pub waiting: u32,
    /// How many of its CCBs may be active for another one to start, 1 to 255.
    pub openings: u32,
}

impl QueueInfo {
    /// The four numbers in this order, as words with the lowest byte first.
    pub fn to_bytes(self) -> [u8; 16]
        ensures { result ≡ info_bytes self }
    {
        let words = [self.frozen, self.active, self.waiting, self.openings];
        let mut bytes = [0; 16];
        LittleEndian::write_u32_into(&words, &mut bytes);
        bytes
    }
}
