// The fields of a slot, and which of the faults of one instruction hold of them. The tables of
// opcodes are in `kind`. It relies on `byteorder` for little-endian words, and on `bpf_insn` for the
// forms that offset and imm select.

ghost use Rattle.std.specs.Prelude.{◌≡◌, ◌<◌, ◌≤◌, ◌||◌, length, is_some, IfSome};
ghost use Rattle.bpf_decode.specs.Fields.{fields_of, fields_behind};
ghost use Rattle.bpf_decode.specs.FieldTests.{class_in, code_in, size_in, mode_in, takes_register, is_division, is_register_move, is_sign_extension, is_byte_order, is_call, is_load_immediate, has_word_size, is_outside_profile, has_no_form, writes_frame_pointer};
ghost use Rattle.bpf_decode.specs.Kinds.{IsExtension};
ghost use Rattle.bpf_decode.specs.Spells.{size_imm};

use bpf_insn::{SignExtension, WordSize};
use byteorder::{ByteOrder, LittleEndian};

/// How many bytes a slot has (RFC 9669, section 3.1).
pub const SLOT_BYTES: usize = 8;

/// The class of loads that are not from memory.
pub const LD: u8 = 0;

/// The class of loads from memory.
pub const LDX: u8 = 1;

/// The class of stores of a constant.
pub const ST: u8 = 2;

/// The class of stores of a register.
pub const STX: u8 = 3;

/// The class of arithmetic of 32 bits.
pub const ALU: u8 = 4;

/// The class of arithmetic of 64 bits.
pub const ALU64: u8 = 7;

/// The class of jumps, which compare 64 bits.
pub const JMP: u8 = 5;

/// The class of jumps that compare 32 bits.
pub const JMP32: u8 = 6;

/// The code of a jump without a condition.
pub const JA: u8 = 0x0;

/// The code of a division.
pub const DIV: u8 = 0x3;

/// The code of a call.
pub const CALL: u8 = 0x8;

/// The code of a negation.
pub const NEG: u8 = 0x8;

/// The code of a remainder.
pub const MOD: u8 = 0x9;

/// The code of a function's end.
pub const EXIT: u8 = 0x9;

/// The code of a move.
pub const MOV: u8 = 0xb;

/// The code of a byte order.
pub const END: u8 = 0xd;

/// The mode of a constant.
pub const IMM: u8 = 0;

/// The mode of memory.
pub const MEM: u8 = 3;

/// The mode of memory whose sign is extended.
pub const MEMSX: u8 = 4;

/// The size of 4 bytes.
pub const WORD: u8 = 0;

/// The size of 2 bytes.
pub const HALF_WORD: u8 = 1;

/// The size of 1 byte.
pub const BYTE: u8 = 2;

/// The size of 8 bytes.
pub const DOUBLE_WORD: u8 = 3;

/// `src` of a call of a local function.
pub const LOCAL_FUNCTION: u8 = 1;

/// `src` of a call by BTF identifier.
const BTF_IDENTIFIER: u8 = 2;

/// The number of R10.
const FRAME_POINTER: u8 = 10;

/// The fields of the 8 bytes of a slot (RFC 9669, section 3.1).
#[derive(Clone, Copy)]
pub struct Fields {
    pub opcode: u8,
    pub dst: u8,
    pub src: u8,
    pub offset: i16,
    pub imm: i32,
}

impl Fields {
    /// The fields of the slot with which the bytes begin.
    pub fn from_bytes(bytes: &[u8]) -> Self
        requires { 8 ≤ length bytes.now }
        ensures { result ≡ fields_of bytes.now }
    {
        Fields {
            opcode: bytes[0],
            dst: bytes[1] % 16,
            src: bytes[1] / 16,
            offset: LittleEndian::read_i16(&bytes[2..4]),
            imm: LittleEndian::read_i32(&bytes[4..8]),
        }
    }

    /// The fields of the slot after that one, if there is one.
    pub fn behind(bytes: &[u8]) -> Option<Self>
        ensures { result ≡ fields_behind bytes.now }
    {
        if bytes.len() < 2 * SLOT_BYTES {
            return None;
        }
        Some(Fields::from_bytes(&bytes[SLOT_BYTES..]))
    }

    /// The 8 bytes of a slot with these fields.
    pub fn to_bytes(&self) -> [u8; SLOT_BYTES]
        requires dst { self.now.dst < 16 }
        requires src { self.now.src < 16 }
        ensures fields { fields_of result ≡ self.now }
        ensures slot { length result ≡ 8 }
    {
        let mut bytes = [0; SLOT_BYTES];
        bytes[0] = self.opcode;
        bytes[1] = 16 * self.src + self.dst;
        LittleEndian::write_i16(&mut bytes[2..4], self.offset);
        LittleEndian::write_i32(&mut bytes[4..8], self.imm);
        bytes
    }

    /// The instruction's class (RFC 9669, section 3.3).
    pub fn class(&self) -> u8
        ensures { result ≡ class_in self.now }
    {
        self.opcode % 8
    }

    /// The code of an arithmetic or jump instruction (RFC 9669, section 4).
    pub fn code(&self) -> u8
        ensures { result ≡ code_in self.now }
    {
        self.opcode / 16
    }

    /// The second operand is the register `src` and not `imm`.
    pub fn takes_register(&self) -> bool
        ensures { result ≡ takes_register self.now }
    {
        self.opcode / 8 % 2 == 1
    }

    /// The size of a load or store (RFC 9669, section 5).
    pub fn size(&self) -> u8
        ensures { result ≡ size_in self.now }
    {
        self.opcode / 8 % 4
    }

    /// The mode of a load or store (RFC 9669, section 5).
    pub fn mode(&self) -> u8
        ensures { result ≡ mode_in self.now }
    {
        self.opcode / 32
    }

    /// A division or a remainder: the offset says whether it is a signed one.
    fn is_division(&self) -> bool
        ensures { result ≡ is_division self.now }
    {
        matches!(self.class(), ALU | ALU64) && matches!(self.code(), DIV | MOD)
    }

    /// A move of a register: the offset says whether it extends a sign.
    fn is_register_move(&self) -> bool
        ensures { result ≡ is_register_move self.now }
    {
        matches!(self.class(), ALU | ALU64) && self.code() == MOV && self.takes_register()
    }

    /// An arithmetic instruction whose offset selects a form of it.
    pub fn has_forms(&self) -> bool
        ensures { result ≡ (is_division self.now || is_register_move self.now) }
    {
        self.is_division() || self.is_register_move()
    }

    /// The sign extension that a move of a register is, by its class and offset.
    pub fn sign_extension(&self) -> Option<SignExtension>
        ensures found { IfSome result (IsExtension self.now) }
        ensures known { is_some result ≡ is_sign_extension self.now }
    {
        if !self.is_register_move() {
            return None;
        }
        let is_wide = self.class() == ALU64;
        Some(match self.offset {
            8 if is_wide => SignExtension::From8To64,
            8 => SignExtension::From8To32,
            16 if is_wide => SignExtension::From16To64,
            16 => SignExtension::From16To32,
            32 if is_wide => SignExtension::From32To64,
            _ => return None,
        })
    }

    /// The bytes of a register in an order: `imm` says of how many bits.
    fn is_byte_order(&self) -> bool
        ensures { result ≡ is_byte_order self.now }
    {
        self.code() == END
            && match self.class() {
                ALU => true,
                ALU64 => !self.takes_register(),
                _ => false,
            }
    }

    /// How many bits a byte order is for.
    pub fn word_size(&self) -> Option<WordSize>
        ensures found { IfSome result (λ size. self.now.imm ≡ size_imm size) }
        ensures known { is_some result ≡ has_word_size self.now }
    {
        Some(match self.imm {
            16 => WordSize::Word16,
            32 => WordSize::Word32,
            64 => WordSize::Word64,
            _ => return None,
        })
    }

    /// A call of a helper, a local function or a BTF function, by `src`.
    fn is_call(&self) -> bool
        ensures { result ≡ is_call self.now }
    {
        self.class() == JMP && self.code() == CALL && !self.takes_register()
    }

    /// A 64-bit immediate, which takes two slots.
    pub fn is_load_immediate(&self) -> bool
        ensures { result ≡ is_load_immediate self.now }
    {
        self.class() == LD && self.mode() == IMM && self.size() == DOUBLE_WORD
    }

    /// The instruction is one that this project's profile leaves out (E5).
    pub fn is_outside_profile(&self) -> bool
        ensures { result ≡ is_outside_profile self.now }
    {
        match self.opcode {
            0xc3 | 0xdb | 0x20 | 0x28 | 0x30 | 0x40 | 0x48 | 0x50 => true,
            _ if self.is_load_immediate() => 1 <= self.src && self.src <= 6,
            _ => self.is_call() && self.src == BTF_IDENTIFIER,
        }
    }

    /// The offset of a division, a remainder or a move of a register, or the imm of a byte order,
    /// selects no form of it (E8).
    pub fn has_no_form(&self) -> bool
        ensures { result ≡ has_no_form self.now }
    {
        if self.is_division() {
            self.offset != 0 && self.offset != 1
        } else if self.is_register_move() {
            self.offset != 0 && self.sign_extension().is_none()
        } else {
            self.is_byte_order() && self.word_size().is_none()
        }
    }

    /// R10 is the destination of an instruction of class LD, LDX, ALU or ALU64 (E10).
    pub fn writes_frame_pointer(&self) -> bool
        ensures { result ≡ writes_frame_pointer self.now }
    {
        matches!(self.class(), 0 | 1 | ALU | ALU64) && self.dst == FRAME_POINTER
    }
}
