// Which fields an instruction uses. All others are zero (RFC 9669, section 3.1).

ghost use Rattle.std.specs.Prelude.{◌≡◌};
ghost use Rattle.bpf_decode.specs.FieldTests.{used, has_field_beside, has_beside_imm};
ghost use Rattle.bpf_decode.specs.Kinds.{IsKind};

use crate::fields::{Fields, LOCAL_FUNCTION};
use crate::kind::Kind;
use crate::transfer::Transfer;

/// For each field but the opcode, whether an instruction uses it.
#[derive(Clone, Copy)]
pub struct Used {
    dst: bool,
    src: bool,
    offset: bool,
    imm: bool,
}

impl Used {
    /// The fields that an instruction of this kind uses.
    pub fn by(fields: &Fields, kind: Kind) -> Self
        requires { IsKind fields.now kind }
        ensures { result ≡ used fields.now }
    {
        let register = fields.takes_register();
        let (dst, src, offset, imm) = match kind {
            Kind::Alu(..) => (true, register, fields.has_forms(), !register),
            Kind::JumpIf(..) => (true, register, true, !register),
            Kind::Neg(_) => (true, false, false, false),
            Kind::Reorder(_) => (true, false, false, true),
            Kind::SignExtend(_) => (true, true, true, false),
            Kind::JumpNear => (false, false, true, false),
            Kind::JumpFar => (false, false, false, true),
            // By `src` other calls are told from a helper's.
            Kind::Call => (false, fields.src == LOCAL_FUNCTION, false, true),
            Kind::Exit => (false, false, false, false),
            Kind::Transfer(Transfer::Constant) => (true, false, false, true),
            Kind::Transfer(Transfer::Load(_)) => (true, true, true, false),
            Kind::Transfer(Transfer::StoreImmediate(_)) => (true, false, true, true),
            Kind::Transfer(Transfer::StoreRegister(_)) => (true, true, true, false),
        };
        Used {
            dst,
            src,
            offset,
            imm,
        }
    }

    /// A field that is not used is not zero.
    pub fn has_field_beside(&self, fields: &Fields) -> bool
        ensures { result ≡ has_field_beside self.now fields.now }
    {
        !self.dst && fields.dst != 0
            || !self.src && fields.src != 0
            || !self.offset && fields.offset != 0
            || !self.imm && fields.imm != 0
    }
}

/// Of the second slot, if there is one, something beside `imm` is not zero.
pub fn has_beside_imm(behind: &Option<Fields>) -> bool
    ensures { result ≡ has_beside_imm behind.now }
{
    match behind {
        Some(second) => {
            second.opcode != 0 || second.dst != 0 || second.src != 0 || second.offset != 0
        }
        None => false,
    }
}
