// One instruction from the bytes of its slots. It relies on `kind` for what the opcode says, on `used`
// for the fields that belong to it, and on `fields` for the tests of the other fields.

ghost use Rattle.std.specs.Prelude.{◌≡◌, ◌≤◌, length, Some, None, IfOk, IfErr, false};
ghost use Rattle.bpf_insn.specs.Reg.{number_of};
ghost use Rattle.bpf_insn.specs.Program.{writes_frame_pointer};
ghost use Rattle.bpf_decode.specs.FieldTests.{has_no_form, has_unused_field, is_cut_short, fault_of};
ghost use Rattle.bpf_decode.specs.FirstFault.{fault_at};
ghost use Rattle.bpf_decode.specs.declared.kind.Kind.TheVariants.{Reorder};
ghost use Rattle.bpf_decode.specs.Kinds.{IsKind, IsTransfer, IsSpelled, operand_in, callee_in, word_of};
ghost use Rattle.bpf_decode.specs.Spells.{SpellsInsn, row};

use crate::fault::InsnFault;
use crate::fields::{Fields, LOCAL_FUNCTION};
use crate::kind::{Kind, kind_of};
use crate::transfer::Transfer;
use crate::used::{Used, has_beside_imm};
use bpf_insn::{ByteOrder, Callee, Distance, InPlaceOp, Insn, Operand, Reg};

/// A field that the instruction of this kind does not use is not zero, in its first slot or in its
/// second (E7).
fn has_unused_field(fields: &Fields, behind: &Option<Fields>, kind: Kind) -> bool
    requires { IsKind fields.now kind }
    ensures { result ≡ has_unused_field fields.now behind.now }
{
    Used::by(fields, kind).has_field_beside(fields)
        || fields.is_load_immediate() && has_beside_imm(behind)
}

/// The second slot is missing (E9).
fn is_cut_short(fields: &Fields, behind: &Option<Fields>) -> bool
    ensures { result ≡ is_cut_short fields.now behind.now }
{
    fields.is_load_immediate() && behind.is_none()
}

/// The second operand, where `src` is the register that the fields name.
fn operand(fields: &Fields, src: Reg) -> Operand
    ensures { result ≡ operand_in fields.now src }
{
    if fields.takes_register() {
        Operand::Register(src)
    } else {
        Operand::Immediate(fields.imm)
    }
}

/// The constant of 64 bits of these halves.
fn word(low: i32, high: i32) -> u64
    ensures { result ≡ word_of low high }
{
    u64::from(high.cast_unsigned()) * (1 << 32) + u64::from(low.cast_unsigned())
}

/// What a call calls. A call by BTF identifier is outside the profile.
fn callee(fields: &Fields) -> Callee
    ensures { result ≡ callee_in fields.now }
{
    if fields.src == LOCAL_FUNCTION {
        Callee::Local(fields.imm)
    } else {
        Callee::Helper(fields.imm)
    }
}

/// The byte order of a register.
fn reordered(fields: &Fields, order: ByteOrder, dst: Reg) -> Insn
    requires kind { IsKind fields.now (Reorder order) }
    requires dst { number_of dst ≡ fields.now.dst }
    requires used { has_unused_field fields.now None ≡ false }
    requires form { has_no_form fields.now ≡ false }
    ensures { fields.now ≡ row result }
{
    // A byte order of no size is a fault.
    let Some(size) = fields.word_size() else {
        unreachable!()
    };
    let op = InPlaceOp::Reorder(order, size);
    Insn::InPlace { op, dst }
}

/// The load or store of this kind, whose rows the fields are.
fn transferred(fields: &Fields, behind: &Option<Fields>, kind: Transfer, dst: Reg, src: Reg) -> Insn
    requires kind { IsTransfer fields.now kind }
    requires dst { number_of dst ≡ fields.now.dst }
    requires src { number_of src ≡ fields.now.src }
    requires used { has_unused_field fields.now behind.now ≡ false }
    requires whole { is_cut_short fields.now behind.now ≡ false }
    ensures { IsSpelled fields.now behind.now result }
{
    let (offset, imm) = (fields.offset, fields.imm);
    match kind {
        Transfer::Constant => {
            // Without a second slot it is a fault.
            let Some(second) = behind else { unreachable!() };
            Insn::LoadImmediate {
                dst,
                value: word(imm, second.imm),
            }
        }
        Transfer::Load(form) => Insn::Load {
            form,
            dst,
            src,
            offset,
        },
        Transfer::StoreImmediate(size) => Insn::Store {
            size,
            dst,
            src: Operand::Immediate(imm),
            offset,
        },
        Transfer::StoreRegister(size) => Insn::Store {
            size,
            dst,
            src: Operand::Register(src),
            offset,
        },
    }
}

/// The instruction of this kind, whose rows the fields are.
fn spelled(fields: &Fields, behind: &Option<Fields>, kind: Kind, dst: Reg, src: Reg) -> Insn
    requires kind { IsKind fields.now kind }
    requires dst { number_of dst ≡ fields.now.dst }
    requires src { number_of src ≡ fields.now.src }
    requires used { has_unused_field fields.now behind.now ≡ false }
    requires form { has_no_form fields.now ≡ false }
    requires whole { is_cut_short fields.now behind.now ≡ false }
    ensures { IsSpelled fields.now behind.now result }
{
    let operand = operand(fields, src);
    match kind {
        Kind::Alu(width, op) => Insn::Alu {
            width,
            op,
            dst,
            src: operand,
        },
        Kind::Neg(width) => {
            let op = InPlaceOp::Neg(width);
            Insn::InPlace { op, dst }
        }
        Kind::Reorder(order) => reordered(fields, order, dst),
        Kind::SignExtend(extension) => Insn::SignExtend {
            extension,
            dst,
            src,
        },
        Kind::JumpIf(width, condition) => Insn::JumpIf {
            width,
            condition,
            dst,
            src: operand,
            offset: fields.offset,
        },
        Kind::JumpNear => Insn::Jump(Distance::Near(fields.offset)),
        Kind::JumpFar => Insn::Jump(Distance::Far(fields.imm)),
        Kind::Call => Insn::Call(callee(fields)),
        Kind::Exit => Insn::Exit,
        Kind::Transfer(kind) => transferred(fields, behind, kind, dst, src),
    }
}

/// The instruction that the fields of its slots spell, or the first fault that holds of them.
fn insn_of(fields: &Fields, behind: &Option<Fields>) -> Result<Insn, InsnFault>
    ensures found { IfOk result (IsSpelled fields.now behind.now) }
    ensures spares { IfOk result (λ insn. writes_frame_pointer insn ≡ false) }
    ensures fault { IfErr result (λ fault. fault_of fields.now behind.now ≡ Some fault) }
{
    if fields.is_outside_profile() {
        return Err(InsnFault::OutsideProfile);
    }
    let Some(kind) = kind_of(fields) else {
        return Err(InsnFault::UnknownOpcode);
    };
    let (Some(dst), Some(src)) = (Reg::from_number(fields.dst), Reg::from_number(fields.src)) else {
        return Err(InsnFault::NoSuchRegister);
    };
    if has_unused_field(fields, behind, kind) {
        return Err(InsnFault::UnusedField);
    }
    if fields.has_no_form() {
        return Err(InsnFault::NoSuchForm);
    }
    if is_cut_short(fields, behind) {
        return Err(InsnFault::CutShort);
    }
    if fields.writes_frame_pointer() {
        return Err(InsnFault::FramePointer);
    }
    Ok(spelled(fields, behind, kind, dst, src))
}

/// The instruction that the bytes begin with, or the first fault that holds of it.
pub fn insn(bytes: &[u8]) -> Result<Insn, InsnFault>
    requires { 8 ≤ length bytes.now }
    ensures found { IfOk result (SpellsInsn bytes.now) }
    ensures spares { IfOk result (λ insn. writes_frame_pointer insn ≡ false) }
    ensures fault { IfErr result (λ fault. fault_at bytes.now ≡ Some fault) }
{
    insn_of(&Fields::from_bytes(bytes), &Fields::behind(bytes))
}
