// The tables of opcodes: what an instruction does, by class, code and source (RFC 9669, section 4). What
// the tables do not list is not known. It relies on `fields` for the parts of an opcode, on `bpf_insn` for
// the rows of operations and conditions, and on `transfer` for loads and stores.

ghost use Rattle.std.specs.Prelude.{◌≡◌, ◌&&◌, ◌==◌, not, nat_le, is_some, IfSome};
ghost use Rattle.bpf_insn.specs.Operations.{alu_code, alu_offset, condition_code};
ghost use Rattle.bpf_decode.specs.FieldTests.{is_known};
ghost use Rattle.bpf_decode.specs.Kinds.{IsKind, form_in};

use crate::fields::{ALU, ALU64, CALL, DIV, END, EXIT, Fields, JA, JMP, JMP32, MOD, MOV, NEG};
use crate::transfer::{Transfer, transfer_of};
use bpf_insn::{AluOp, ByteOrder, Condition, SignExtension, Width};

/// What an instruction does, without its operands and without how many bits a byte order is for.
#[derive(Clone, Copy)]
pub enum Kind {
    Alu(Width, AluOp),
    Neg(Width),
    Reorder(ByteOrder),
    SignExtend(SignExtension),
    JumpIf(Width, Condition),
    JumpNear,
    JumpFar,
    Call,
    Exit,
    Transfer(Transfer),
}

/// The offset that tells an operation from the other one of its code: 1 makes a division a signed one.
fn form(code: u8, offset: i16) -> i16
    ensures { result ≡ form_in code offset }
{
    if matches!(code, DIV | MOD) && offset == 1 {
        1
    } else {
        0
    }
}

/// The operation of a code (RFC 9669, section 4.1). With the offset 1 a division is a signed one.
#[tactic(auto, using(crate::proofs::KnownCodes::known_op))]
fn alu_op(code: u8, offset: i16) -> Option<AluOp>
    ensures code { IfSome result (λ op. code ≡ alu_code op) }
    ensures form { IfSome result (λ op. alu_offset op ≡ form_in code offset) }
    ensures known { is_some result ≡ (nat_le code 0xc && not (code == 0x8)) }
{
    AluOp::from_form(code, form(code, offset))
}

/// The condition of a code (RFC 9669, section 4.3).
#[tactic(auto, using(crate::proofs::KnownCodes::known_condition))]
fn condition(code: u8) -> Option<Condition>
    ensures code { IfSome result (λ condition. code ≡ condition_code condition) }
    ensures known { is_some result ≡ (nat_le 0x1 code && nat_le code 0xd && not (code == 0x8) && not (code == 0x9)) }
{
    Condition::from_code(code)
}

/// The kind of the instruction whose fields these are, and None where it is not known.
pub fn kind_of(fields: &Fields) -> Option<Kind>
    ensures found { IfSome result (IsKind fields.now) }
    ensures known { is_some result ≡ is_known fields.now }
{
    if let Some(extension) = fields.sign_extension() {
        return Some(Kind::SignExtend(extension));
    }
    Some(
        match (fields.class(), fields.code(), fields.takes_register()) {
            (ALU, NEG, false) => Kind::Neg(Width::Bits32),
            (ALU64, NEG, false) => Kind::Neg(Width::Bits64),
            (ALU, END, false) => Kind::Reorder(ByteOrder::Little),
            (ALU, END, true) => Kind::Reorder(ByteOrder::Big),
            (ALU64, END, false) => Kind::Reorder(ByteOrder::Swapped),
            (ALU, code, _) => Kind::Alu(Width::Bits32, alu_op(code, fields.offset)?),
            (ALU64, code, _) => Kind::Alu(Width::Bits64, alu_op(code, fields.offset)?),
            (JMP, JA, false) => Kind::JumpNear,
            (JMP32, JA, false) => Kind::JumpFar,
            (JMP, CALL, false) => Kind::Call,
            (JMP, EXIT, false) => Kind::Exit,
            (JMP, code, _) => Kind::JumpIf(Width::Bits64, condition(code)?),
            (JMP32, code, _) => Kind::JumpIf(Width::Bits32, condition(code)?),
            _ => Kind::Transfer(transfer_of(fields)?),
        },
    )
}
