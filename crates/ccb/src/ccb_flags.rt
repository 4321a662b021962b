// The flags that a CCB's status word carries beside the CAM status code.
// It relies on `bitflags` for the operations of a set of bits.
ghost use Rattle.std.specs.Prelude.{⊤, [], ◌∷◌, codes};
ghost use Rattle.ccb.specs.Flags.{autosns_valid, dev_qfrzn};

use bitflags::{Flag, Flags};

/// A set of the two flags. Its bits stand above the six bits of a status code.
#[derive(Clone, Copy, Debug, PartialEq, Eq)]
pub struct CcbFlags(u8);

impl CcbFlags {
    /// The device queue was frozen for this completion.
    pub const DEV_QFRZN: CcbFlags = CcbFlags(0x40);

    /// Sense bytes came with this completion.
    pub const AUTOSNS_VALID: CcbFlags = CcbFlags(0x80);

    const TABLE: &'static [Flag<CcbFlags>] = &[
        Flag {
            name: "DEV_QFRZN",
            value: CcbFlags::DEV_QFRZN,
        },
        Flag {
            name: "AUTOSNS_VALID",
            value: CcbFlags::AUTOSNS_VALID,
        },
    ];
}

impl Flags for CcbFlags {
    type Bits = u8;

    ghost exact = { ⊤ };

    ghost table = { (codes "DEV_QFRZN", dev_qfrzn) ∷ (codes "AUTOSNS_VALID", autosns_valid) ∷ [] };

    ghost set_of = { λ flags. flags.0 };

    fn flags<'a>() -> &'a [Flag<CcbFlags>] {
        CcbFlags::TABLE
    }

    fn bits(&self) -> u8 {
        self.0
    }

    fn from_bits_retain(bits: u8) -> CcbFlags {
        CcbFlags(bits)
    }
}
