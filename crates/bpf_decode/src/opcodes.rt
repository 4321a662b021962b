// What a width, a byte order or a form is in the fields of a slot: the tables of `kind` and `transfer`
// the other way (RFC 9669, sections 4 and 5). It relies on `fields` for the parts of an opcode.

ghost use Rattle.std.specs.Prelude.{◌≡◌, ◌<◌, ◌≤◌};
ghost use Rattle.bpf_decode.specs.Spells.{opcode_of, memory_opcode, alu_class, jump_class, order_source, order_class, size_imm, extension_offset, extension_class, load_mode, load_size, store_size, source_of, src_of, imm_of};

use crate::fields::{ALU, ALU64, BYTE, DOUBLE_WORD, HALF_WORD, JMP, JMP32, MEM, MEMSX, WORD};
use bpf_insn::{ByteOrder, LoadForm, Operand, SignExtension, StoreSize, Width, WordSize};

/// The source of a constant, in imm.
pub const CONSTANT: u8 = 0;

/// The source of a register, in src.
pub const REGISTER: u8 = 1;

/// The opcode of an arithmetic or jump instruction.
pub fn opcode(code: u8, source: u8, class: u8) -> u8
    requires code { code < 16 }
    requires source { source < 2 }
    requires class { class < 8 }
    ensures { result ≡ opcode_of code source class }
{
    16 * code + 8 * source + class
}

/// The opcode of a load or store.
pub fn memory_opcode(mode: u8, size: u8, class: u8) -> u8
    requires mode { mode < 8 }
    requires size { size < 4 }
    requires class { class < 8 }
    ensures { result ≡ memory_opcode mode size class }
{
    32 * mode + 8 * size + class
}

/// The class of arithmetic.
pub fn alu_class(width: Width) -> u8
    ensures class { result ≡ alu_class width }
    ensures in_range { result < 8 }
{
    match width {
        Width::Bits32 => ALU,
        Width::Bits64 => ALU64,
    }
}

/// The class of a jump.
pub fn jump_class(width: Width) -> u8
    ensures class { result ≡ jump_class width }
    ensures in_range { result < 8 }
{
    match width {
        Width::Bits32 => JMP32,
        Width::Bits64 => JMP,
    }
}

/// Source and class of a byte order.
pub fn order_form(order: ByteOrder) -> (u8, u8)
    ensures source { result.0 ≡ order_source order }
    ensures class { result.1 ≡ order_class order }
    ensures source_in_range { result.0 < 2 }
    ensures class_in_range { result.1 < 8 }
{
    match order {
        ByteOrder::Little => (CONSTANT, ALU),
        ByteOrder::Big => (REGISTER, ALU),
        ByteOrder::Swapped => (CONSTANT, ALU64),
    }
}

/// The imm of a byte order: how many bits it is for.
pub fn size_imm(size: WordSize) -> i32
    ensures { result ≡ size_imm size }
{
    match size {
        WordSize::Word16 => 16,
        WordSize::Word32 => 32,
        WordSize::Word64 => 64,
    }
}

/// Class and offset of a sign extension.
pub fn extension_form(extension: SignExtension) -> (u8, i16)
    ensures class { result.0 ≡ extension_class extension }
    ensures offset { result.1 ≡ extension_offset extension }
    ensures in_range { result.0 < 8 }
{
    match extension {
        SignExtension::From8To32 => (ALU, 8),
        SignExtension::From16To32 => (ALU, 16),
        SignExtension::From8To64 => (ALU64, 8),
        SignExtension::From16To64 => (ALU64, 16),
        SignExtension::From32To64 => (ALU64, 32),
    }
}

/// Mode and size of a load.
pub fn load_form(form: LoadForm) -> (u8, u8)
    ensures mode { result.0 ≡ load_mode form }
    ensures size { result.1 ≡ load_size form }
    ensures mode_in_range { result.0 < 8 }
    ensures size_in_range { result.1 < 4 }
{
    match form {
        LoadForm::Word => (MEM, WORD),
        LoadForm::HalfWord => (MEM, HALF_WORD),
        LoadForm::Byte => (MEM, BYTE),
        LoadForm::DoubleWord => (MEM, DOUBLE_WORD),
        LoadForm::SignedWord => (MEMSX, WORD),
        LoadForm::SignedHalfWord => (MEMSX, HALF_WORD),
        LoadForm::SignedByte => (MEMSX, BYTE),
    }
}

/// The size of a store.
pub fn store_size(size: StoreSize) -> u8
    ensures size { result ≡ store_size size }
    ensures in_range { result < 4 }
{
    match size {
        StoreSize::Word => WORD,
        StoreSize::HalfWord => HALF_WORD,
        StoreSize::Byte => BYTE,
        StoreSize::DoubleWord => DOUBLE_WORD,
    }
}

/// Source, src and imm of a second operand.
pub fn operand(src: Operand) -> (u8, u8, i32)
    ensures source { result.0 ≡ source_of src }
    ensures src { result.1 ≡ src_of src }
    ensures imm { result.2 ≡ imm_of src }
    ensures source_in_range { result.0 < 2 }
    ensures src_in_range { result.1 ≤ 10 }
{
    match src {
        Operand::Immediate(value) => (CONSTANT, 0, value),
        Operand::Register(reg) => (REGISTER, reg.number(), 0),
    }
}
