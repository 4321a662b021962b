// The words of an instruction, by which programs are compared: two, and a third where a constant has 64 bits. Words of
// 32 bits, since slices of them are compared by vectors. It relies on `insn` and `reg`.

ghost use Rattle.std.specs.Prelude.{◌≡◌, ◌+◌, ◌^◌, ◌<◌, ◌≤◌, ◌++◌, ◌∷◌, length, vec_capacity};
ghost use Rattle.std.specs.Option.{option_to_list};
ghost use Rattle.bpf_insn.specs.declared.words.TheConstants.{MAX_WORDS_OF_INSN};
ghost use Rattle.std.specs.Int.{w16, w32, cast_unsigned};
ghost use Rattle.bpf_insn.specs.declared.insn.Insn.TheVariants.{Alu, JumpIf, Jump, LoadImmediate, Load, Store, Call};
ghost use Rattle.bpf_insn.specs.Reg.{number_of};
ghost use Rattle.bpf_insn.specs.Words.{packed, in_width, in_place_number, source_number, constant_word, words_of, IsOfWidth, HasConstant, HasNumbers};

use crate::insn::{
    AluOp, Callee, Condition, Distance, InPlaceOp, Insn, LoadForm, Operand, StoreSize, Width,
};
use crate::reg::Reg;

/// The most words of one instruction.
pub(crate) const MAX_WORDS_OF_INSN: usize = 3;

// The first word of its parts.
fn packed(kind: u32, operation: u32, dst: Reg, src: u32, offset: u32) -> u32
    requires kind { kind < 10 }
    requires operation { operation < 28 }
    requires src { src < 12 }
    requires offset { offset < 2 ^ 16 }
    ensures { result ≡ packed kind operation dst src offset }
{
    kind + 10 * (operation + 28 * (register_number(dst) + 11 * (src + 12 * offset)))
}

// The bits of an offset.
fn offset_bits(offset: i16) -> u32
    ensures value { result ≡ cast_unsigned w16 offset }
    ensures few { result < 2 ^ 16 }
    ensures number { IsOfWidth w16 offset }
{
    u32::from(offset.cast_unsigned())
}

// The bits of a constant.
fn constant_bits(value: i32) -> u32
    ensures value { result ≡ cast_unsigned w32 value }
    ensures number { IsOfWidth w32 value }
{
    value.cast_unsigned()
}

// The number of an operation in a width.
fn in_width(operation: u32, width: Width) -> u32
    requires { operation < 14 }
    ensures value { result ≡ in_width operation width }
    ensures few { result < 28 }
{
    2 * operation + width as u32
}

fn in_place_number(op: InPlaceOp) -> u32
    ensures value { result ≡ in_place_number op }
    ensures few { result < 28 }
{
    match op {
        InPlaceOp::Neg(width) => width as u32,
        InPlaceOp::Reorder(order, size) => 2 + (3 * (order as u32) + size as u32),
    }
}

fn register_number(reg: Reg) -> u32
    ensures value { result ≡ number_of reg }
    ensures few { result ≤ 10 }
{
    u32::from(reg.number())
}

// A register's number, or 11 for a constant.
fn source_number(src: Operand) -> u32
    ensures value { result ≡ source_number src }
    ensures few { result < 12 }
{
    match src {
        Operand::Register(reg) => register_number(reg),
        Operand::Immediate(_) => 11,
    }
}

fn constant_word(src: Operand) -> u32
    ensures value { result ≡ constant_word src }
    ensures constant { HasConstant src }
{
    match src {
        Operand::Register(_) => 0,
        Operand::Immediate(value) => constant_bits(value),
    }
}

// The words of an instruction: the third is there for a constant of 64 bits alone.
type Words = (u32, u32, Option<u32>);

fn words_of(insn: Insn) -> Words
    ensures words { result.0 ∷ result.1 ∷ option_to_list result.2 ≡ words_of insn }
    ensures numbers { HasNumbers insn }
{
    match insn {
        Insn::Alu {
            width,
            op,
            dst,
            src,
        } => alu_words(width, op, dst, src),
        Insn::InPlace { op, dst } => (packed(1, in_place_number(op), dst, 0, 0), 0, None),
        Insn::SignExtend {
            extension,
            dst,
            src,
        } => (
            packed(2, extension as u32, dst, register_number(src), 0),
            0,
            None,
        ),
        Insn::JumpIf {
            width,
            condition,
            dst,
            src,
            offset,
        } => jump_if_words(width, condition, dst, src, offset),
        Insn::Jump(distance) => jump_words(distance),
        Insn::LoadImmediate { dst, value } => constant_words(dst, value),
        Insn::Load {
            form,
            dst,
            src,
            offset,
        } => load_words(form, dst, src, offset),
        Insn::Store {
            size,
            dst,
            src,
            offset,
        } => store_words(size, dst, src, offset),
        Insn::Call(callee) => call_words(callee),
        Insn::Exit => (packed(9, 0, Reg::R0, 0, 0), 0, None),
    }
}

fn alu_words(width: Width, op: AluOp, dst: Reg, src: Operand) -> Words
    ensures words { result.0 ∷ result.1 ∷ option_to_list result.2 ≡ words_of (Alu width op dst src) }
    ensures numbers { HasConstant src }
{
    let operation = in_width(op as u32, width);
    let first = packed(0, operation, dst, source_number(src), 0);
    (first, constant_word(src), None)
}

fn jump_if_words(width: Width, condition: Condition, dst: Reg, src: Operand, offset: i16) -> Words
    ensures words { result.0 ∷ result.1 ∷ option_to_list result.2 ≡ words_of (JumpIf width condition dst src offset) }
    ensures constant { HasConstant src }
    ensures offset { IsOfWidth w16 offset }
{
    let operation = in_width(condition as u32, width);
    let first = packed(3, operation, dst, source_number(src), offset_bits(offset));
    (first, constant_word(src), None)
}

fn jump_words(distance: Distance) -> Words
    ensures words { result.0 ∷ result.1 ∷ option_to_list result.2 ≡ words_of (Jump distance) }
    ensures numbers { HasNumbers (Jump distance) }
{
    match distance {
        Distance::Near(offset) => (packed(4, 0, Reg::R0, 0, offset_bits(offset)), 0, None),
        Distance::Far(imm) => (packed(4, 1, Reg::R0, 0, 0), constant_bits(imm), None),
    }
}

fn constant_words(dst: Reg, value: u64) -> Words
    ensures { result.0 ∷ result.1 ∷ option_to_list result.2 ≡ words_of (LoadImmediate dst value) }
{
    let low = (value % (1 << 32)) as u32;
    let high = (value >> 32) as u32;
    (packed(5, 0, dst, 0, 0), low, Some(high))
}

fn load_words(form: LoadForm, dst: Reg, src: Reg, offset: i16) -> Words
    ensures words { result.0 ∷ result.1 ∷ option_to_list result.2 ≡ words_of (Load form dst src offset) }
    ensures offset { IsOfWidth w16 offset }
{
    let bits = offset_bits(offset);
    let first = packed(6, form as u32, dst, register_number(src), bits);
    (first, 0, None)
}

fn store_words(size: StoreSize, dst: Reg, src: Operand, offset: i16) -> Words
    ensures words { result.0 ∷ result.1 ∷ option_to_list result.2 ≡ words_of (Store size dst src offset) }
    ensures constant { HasConstant src }
    ensures offset { IsOfWidth w16 offset }
{
    let bits = offset_bits(offset);
    let first = packed(7, size as u32, dst, source_number(src), bits);
    (first, constant_word(src), None)
}

fn call_words(callee: Callee) -> Words
    ensures words { result.0 ∷ result.1 ∷ option_to_list result.2 ≡ words_of (Call callee) }
    ensures numbers { HasNumbers (Call callee) }
{
    match callee {
        Callee::Helper(number) => (packed(8, 0, Reg::R0, 0, 0), constant_bits(number), None),
        Callee::Local(distance) => (packed(8, 1, Reg::R0, 0, 0), constant_bits(distance), None),
    }
}

/// Adds the words of an instruction, for which there is room.
pub(crate) fn add_words(words: &mut Vec<u32>, insn: Insn)
    requires { length words.old.items + MAX_WORDS_OF_INSN ≤ vec_capacity words.old }
    ensures words { words.new.items ≡ words.old.items ++ words_of insn }
    ensures numbers { HasNumbers insn }
{
    let (first, second, third) = words_of(insn);
    words.push_reserved(first);
    words.push_reserved(second);
    if let Some(third) = third {
        words.push_reserved(third);
    }
}
