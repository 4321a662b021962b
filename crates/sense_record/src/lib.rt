// SCSI sense data: reads the sense key and the additional sense code out of the bytes that came with
// a CHECK CONDITION, in the two formats of the SCSI Primary Commands standard (SPC).
// It relies on nothing but the standard library.
#![tactic(auto)]

ghost use Rattle.std.specs.Prelude.{◌≡◌};
ghost use Rattle.sense_record.specs.Sense.{sense_of};

/// What sense data says of an error.
#[derive(Clone, Copy, Debug, PartialEq, Eq)]
pub struct Sense {
    /// The sense key, from 0 to 15.
    pub key: u8,
    /// The additional sense code.
    pub asc: u8,
    /// The additional sense code qualifier.
    pub ascq: u8,
    /// How many sense bytes there are, whatever their additional length field says.
    pub len: usize,
}

/// Reads sense data of the fixed format (response codes 70 and 71 hexadecimal) or the descriptor
/// format (72 and 73), for a current or a deferred error. A byte that is missing reads as 0. Under
/// any other response code, and without a byte, key and codes are 0. Takes no memory.
pub fn read(sense: &[u8]) -> Sense
    ensures { result ≡ sense_of sense.now }
{
    let byte = |place: usize| sense.get(place).copied().unwrap_or(0);
    let (key_byte, asc, ascq) = match byte(0) & 0x7f {
        0x70 | 0x71 => (byte(2), byte(12), byte(13)),
        0x72 | 0x73 => (byte(1), byte(2), byte(3)),
        _ => (0, 0, 0),
    };
    Sense {
        key: key_byte & 0x0f,
        asc,
        ascq,
        len: sense.len(),
    }
}
