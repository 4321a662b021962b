// The rows of an instruction: the fields of its slots (RFC 9669, sections 3 to 5). It relies on `opcodes`
// for the tables, and on `bpf_insn` for what an instruction is and for the rows of operations and conditions.

ghost use Rattle.std.specs.Prelude.{◌≡◌, ◌≤◌, [], ◌∷◌, IfSome, IfNone};
ghost use Rattle.bpf_insn.specs.declared.insn.Insn.TheVariants.{Alu, InPlace, SignExtend, JumpIf, Jump, Load, Store, Call};
ghost use Rattle.bpf_decode.specs.Kinds.{IsRow};
ghost use Rattle.bpf_decode.specs.Spells.{further_rows, HasWord, low_half, high_half};

use crate::fields::{
    CALL, DOUBLE_WORD, END, EXIT, Fields, IMM, JA, JMP, JMP32, LD, LDX, LOCAL_FUNCTION, MEM, MOV,
    NEG, ST, STX,
};
use crate::opcodes::{
    CONSTANT, REGISTER, alu_class, extension_form, jump_class, load_form, memory_opcode, opcode,
    operand, order_form, size_imm, store_size,
};
use bpf_insn::{
    AluOp, Callee, Condition, Distance, InPlaceOp, Insn, LoadForm, Operand, Reg, SignExtension,
    StoreSize, Width,
};

fn alu_row(width: Width, op: AluOp, dst: Reg, src: Operand) -> Fields
    ensures { IsRow result (Alu width op dst src) }
{
    let (source, src, imm) = operand(src);
    Fields {
        opcode: opcode(op.code(), source, alu_class(width)),
        dst: dst.number(),
        src,
        offset: op.offset(),
        imm,
    }
}

fn in_place_row(op: InPlaceOp, dst: Reg) -> Fields
    ensures { IsRow result (InPlace op dst) }
{
    let (opcode, imm) = match op {
        InPlaceOp::Neg(width) => (opcode(NEG, CONSTANT, alu_class(width)), 0),
        InPlaceOp::Reorder(order, size) => {
            let (source, class) = order_form(order);
            (opcode(END, source, class), size_imm(size))
        }
    };
    Fields {
        opcode,
        dst: dst.number(),
        src: 0,
        offset: 0,
        imm,
    }
}

fn extension_row(extension: SignExtension, dst: Reg, src: Reg) -> Fields
    ensures { IsRow result (SignExtend extension dst src) }
{
    let (class, offset) = extension_form(extension);
    Fields {
        opcode: opcode(MOV, REGISTER, class),
        dst: dst.number(),
        src: src.number(),
        offset,
        imm: 0,
    }
}

fn jump_if_row(width: Width, condition: Condition, dst: Reg, src: Operand, offset: i16) -> Fields
    ensures { IsRow result (JumpIf width condition dst src offset) }
{
    let (source, src, imm) = operand(src);
    Fields {
        opcode: opcode(condition.code(), source, jump_class(width)),
        dst: dst.number(),
        src,
        offset,
        imm,
    }
}

fn jump_row(distance: Distance) -> Fields
    ensures { IsRow result (Jump distance) }
{
    let (class, offset, imm) = match distance {
        Distance::Near(offset) => (JMP, offset, 0),
        Distance::Far(imm) => (JMP32, 0, imm),
    };
    Fields {
        opcode: opcode(JA, CONSTANT, class),
        dst: 0,
        src: 0,
        offset,
        imm,
    }
}

fn call_row(callee: Callee) -> Fields
    ensures { IsRow result (Call callee) }
{
    let (src, imm) = match callee {
        Callee::Helper(number) => (0, number),
        Callee::Local(distance) => (LOCAL_FUNCTION, distance),
    };
    Fields {
        opcode: opcode(CALL, CONSTANT, JMP),
        dst: 0,
        src,
        offset: 0,
        imm,
    }
}

fn load_row(form: LoadForm, dst: Reg, src: Reg, offset: i16) -> Fields
    ensures { IsRow result (Load form dst src offset) }
{
    let (mode, size) = load_form(form);
    Fields {
        opcode: memory_opcode(mode, size, LDX),
        dst: dst.number(),
        src: src.number(),
        offset,
        imm: 0,
    }
}

fn store_row(size: StoreSize, dst: Reg, src: Operand, offset: i16) -> Fields
    ensures { IsRow result (Store size dst src offset) }
{
    let class = match src {
        Operand::Immediate(_) => ST,
        Operand::Register(_) => STX,
    };
    let (_, src, imm) = operand(src);
    Fields {
        opcode: memory_opcode(MEM, store_size(size), class),
        dst: dst.number(),
        src,
        offset,
        imm,
    }
}

/// The low half of a constant of 64 bits.
fn low_half(value: u64) -> i32
    ensures { result ≡ low_half value }
{
    ((value % (1 << 32)) as u32).cast_signed()
}

/// The high half of a constant of 64 bits.
fn high_half(value: u64) -> i32
    ensures { result ≡ high_half value }
{
    ((value / (1 << 32)) as u32).cast_signed()
}

/// The row of the first slot of an instruction.
pub fn row(insn: Insn) -> Fields
    ensures { IsRow result insn }
{
    match insn {
        Insn::Alu {
            width,
            op,
            dst,
            src,
        } => alu_row(width, op, dst, src),
        Insn::InPlace { op, dst } => in_place_row(op, dst),
        Insn::SignExtend {
            extension,
            dst,
            src,
        } => extension_row(extension, dst, src),
        Insn::JumpIf {
            width,
            condition,
            dst,
            src,
            offset,
        } => { jump_if_row(width, condition, dst, src, offset) }
        Insn::Jump(distance) => jump_row(distance),
        Insn::LoadImmediate { dst, value } => Fields {
            opcode: memory_opcode(IMM, DOUBLE_WORD, LD),
            dst: dst.number(),
            src: 0,
            offset: 0,
            imm: low_half(value),
        },
        Insn::Load {
            form,
            dst,
            src,
            offset,
        } => load_row(form, dst, src, offset),
        Insn::Store {
            size,
            dst,
            src,
            offset,
        } => store_row(size, dst, src, offset),
        Insn::Call(callee) => call_row(callee),
        Insn::Exit => Fields {
            opcode: opcode(EXIT, CONSTANT, JMP),
            dst: 0,
            src: 0,
            offset: 0,
            imm: 0,
        },
    }
}

/// The row of the second slot, if the instruction has one.
pub fn second_row(insn: Insn) -> Option<Fields>
    ensures some { IfSome result (λ second. further_rows insn ≡ second ∷ []) }
    ensures none { IfNone result (further_rows insn ≡ []) }
    ensures word { HasWord insn }
{
    match insn {
        Insn::LoadImmediate { value, .. } => Some(Fields {
            opcode: 0,
            dst: 0,
            src: 0,
            offset: 0,
            imm: high_half(value),
        }),
        _ => None,
    }
}
