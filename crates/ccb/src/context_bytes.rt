// The context: 96 bytes in which a recovery program reads what is known of the failed CCB.
// It relies on `byteorder` for little-endian words and on `sense_record` for the sense fields;
// specs/Context.antt has the layout.
ghost use Rattle.std.specs.Prelude.{◌≡◌};
ghost use Rattle.ccb.specs.Context.{context_of};

use crate::ccb::Ccb;
use byteorder::{ByteOrder, LittleEndian};

/// How many bytes a context has.
pub const CONTEXT_BYTES: usize = 96;

/// The context of a CCB. Takes no memory.
///
/// | Offset | Field |
/// |---|---|
/// | 0 | u32 CCB number |
/// | 4 | u32 queue |
/// | 8 | u32 status code with flags |
/// | 12, 13, 14, 15 | SCSI status, sense key, ASC, ASCQ |
/// | 16 | u32 retries left |
/// | 20 | u32 how many sense bytes came, 0 to 64 |
/// | 24 | u32 attempts |
/// | 28 | u32 class |
/// | 32 | 64 sense bytes, padded with zeros |
///
/// Words are little-endian. Key, ASC and ASCQ are what `sense_record::read` answers of the sense
/// bytes.
pub fn context(ccb: &Ccb) -> [u8; CONTEXT_BYTES]
    ensures { result ≡ context_of ccb.now }
{
    let sense = sense_record::read(ccb.sense.as_slice());
    let names = [ccb.number.0, ccb.queue.0, ccb.status_word()];
    let codes = [ccb.scsi, sense.key, sense.asc, sense.ascq];
    let counts = [ccb.retries, sense.len as u32, ccb.attempts, ccb.class];

    let mut bytes = [0; CONTEXT_BYTES];
    LittleEndian::write_u32_into(&names, &mut bytes[..12]);
    bytes[12..16].copy_from_slice(&codes);
    LittleEndian::write_u32_into(&counts, &mut bytes[16..32]);
    bytes[32..].copy_from_slice(ccb.sense.padded());
    bytes
}
