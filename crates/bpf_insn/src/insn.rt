// Instructions by their meaning: what each does, and not how it stands in bytes.

use crate::reg::Reg;

/// How many bits of its operands an arithmetic instruction or a comparison takes.
#[derive(Clone, Copy, Debug, PartialEq, Eq)]
pub enum Width {
    /// The low 32 (class ALU or JMP32). A result's upper half is 0.
    Bits32,
    /// All 64 (class ALU64 or JMP).
    Bits64,
}

/// What an arithmetic instruction computes (RFC 9669, section 4.1).
#[derive(Clone, Copy, Debug, PartialEq, Eq)]
pub enum AluOp {
    /// `dst + src`.
    Add,
    /// `dst - src`.
    Sub,
    /// `dst * src`.
    Mul,
    /// `dst / src`, and 0 where `src` is 0.
    Div,
    /// The same of signed words, rounded towards zero.
    SignedDiv,
    /// What is left of `dst` by `src`, and `dst` where `src` is 0.
    Mod,
    /// The same of signed words, with the sign of `dst`.
    SignedMod,
    /// The bits of either.
    Or,
    /// The bits of both.
    And,
    /// The bits of just one.
    Xor,
    /// `dst << src`, by `src` modulo the width.
    Lsh,
    /// `dst >> src`, by `src` modulo the width.
    Rsh,
    /// The same of a signed word.
    Arsh,
    /// `src`.
    Mov,
}

/// In which order the bytes of a word come to stand (RFC 9669, section 4.2). The machine is little-endian.
#[derive(Clone, Copy, Debug, PartialEq, Eq)]
pub enum ByteOrder {
    /// Little-endian: as they stand.
    Little,
    /// Big-endian: reversed.
    Big,
    /// Reversed, whatever the machine's order is.
    Swapped,
}

/// How many of the low bits a byte order is for.
#[derive(Clone, Copy, Debug, PartialEq, Eq)]
pub enum WordSize {
    Word16,
    Word32,
    Word64,
}

/// What an instruction makes of one register in its place.
#[derive(Clone, Copy, Debug, PartialEq, Eq)]
pub enum InPlaceOp {
    /// `-dst` (RFC 9669, section 4.1, NEG).
    Neg(Width),
    /// The bytes of the low bits in an order; the bits above become 0 (section 4.2, END).
    Reorder(ByteOrder, WordSize),
}

/// How many low bits are extended by their sign, and to how many (RFC 9669, section 4.1, MOVSX). To 32 bits the upper
/// half is 0.
#[derive(Clone, Copy, Debug, PartialEq, Eq)]
pub enum SignExtension {
    From8To32,
    From16To32,
    From8To64,
    From16To64,
    From32To64,
}

/// When a conditional jump is taken (RFC 9669, section 4.3).
#[derive(Clone, Copy, Debug, PartialEq, Eq)]
pub enum Condition {
    /// `dst == src`.
    Equal,
    /// `dst != src`.
    NotEqual,
    /// `dst > src`.
    Greater,
    /// `dst >= src`.
    GreaterOrEqual,
    /// `dst < src`.
    Less,
    /// `dst <= src`.
    LessOrEqual,
    /// `dst & src` is not 0.
    AnyBit,
    /// `dst > src` of signed words.
    SignedGreater,
    /// `dst >= src` of signed words.
    SignedGreaterOrEqual,
    /// `dst < src` of signed words.
    SignedLess,
    /// `dst <= src` of signed words.
    SignedLessOrEqual,
}

/// The second operand (RFC 9669, section 4, source bit).
#[derive(Clone, Copy, Debug, PartialEq, Eq)]
pub enum Operand {
    /// A constant, which is sign-extended to 64 bits.
    Immediate(i32),
    /// What a register holds.
    Register(Reg),
}

/// How far an unconditional jump leads, in slots from the next instruction (RFC 9669, section 4.3, JA). Both forms are
/// instructions of their own, also where they lead equally far.
#[derive(Clone, Copy, Debug, PartialEq, Eq)]
pub enum Distance {
    /// Class JMP: the offset.
    Near(i16),
    /// Class JMP32: the imm.
    Far(i32),
}

impl Distance {
    ghost use Rattle.std.specs.Prelude.{◌≡◌};
    ghost use Rattle.bpf_insn.specs.Target.{distance_of};

    /// The number of slots.
    pub fn slots(self) -> i32
        ensures { result ≡ distance_of self }
    {
        match self {
            Distance::Near(offset) => i32::from(offset),
            Distance::Far(imm) => imm,
        }
    }
}

/// What a call calls (RFC 9669, section 4.3.1).
#[derive(Clone, Copy, Debug, PartialEq, Eq)]
pub enum Callee {
    /// The helper function of this number. Which numbers have a helper is the verifier's concern.
    Helper(i32),
    /// The function of the program that begins so many slots from the next instruction.
    Local(i32),
}

/// How many bytes of memory a load reads, and how they become 64 bits (RFC 9669, section 5.1, MEM, and section 5.2,
/// MEMSX).
#[derive(Clone, Copy, Debug, PartialEq, Eq)]
pub enum LoadForm {
    Byte,
    HalfWord,
    Word,
    DoubleWord,
    /// Extended by its sign, as the two that follow.
    SignedByte,
    SignedHalfWord,
    SignedWord,
}

/// How many bytes of memory a store writes (RFC 9669, section 5.1): 1, 2, 4 or 8.
#[derive(Clone, Copy, Debug, PartialEq, Eq)]
pub enum StoreSize {
    Byte,
    HalfWord,
    Word,
    DoubleWord,
}

/// An instruction.
#[derive(Clone, Copy, Debug, PartialEq, Eq)]
pub enum Insn {
    /// Computes `dst` from `dst` and `src`.
    Alu {
        width: Width,
        op: AluOp,
        dst: Reg,
        src: Operand,
    },
    /// Computes `dst` from itself.
    InPlace {
        op: InPlaceOp,
        dst: Reg,
    },
    /// `dst` is the low bits of `src`, extended by their sign.
    SignExtend {
        extension: SignExtension,
        dst: Reg,
        src: Reg,
    },
    /// Where the condition holds of `dst` and `src`, goes on `offset` slots after the next
    /// instruction, and else at the next instruction.
    JumpIf {
        width: Width,
        condition: Condition,
        dst: Reg,
        src: Operand,
        offset: i16,
    },
    /// Goes on that far after the next instruction.
    Jump(Distance),
    /// `dst` is a constant of 64 bits. It takes two slots (RFC 9669, section 5.4).
    LoadImmediate {
        dst: Reg,
        value: u64,
    },
    /// `dst` is what stands in memory at `src + offset`.
    Load {
        form: LoadForm,
        dst: Reg,
        src: Reg,
        offset: i16,
    },
    /// Writes the low bytes of `src` to memory at `dst + offset`.
    Store {
        size: StoreSize,
        dst: Reg,
        src: Operand,
        offset: i16,
    },
    /// Calls a function with arguments in R1 to R5, whose answer comes in R0.
    Call(Callee),
    /// Ends the function, and with the outermost one the program, whose result is R0.
    Exit,
}

impl Insn {
    ghost use Rattle.std.specs.Prelude.{◌≡◌, length};
    ghost use Rattle.bpf_insn.specs.Program.{is_wide, slots_of, writes_frame_pointer};

    /// Whether the instruction takes two slots (RFC 9669, section 3.2).
    pub fn is_wide(self) -> bool
        ensures { result ≡ is_wide self }
    {
        matches!(self, Insn::LoadImmediate { .. })
    }

    /// How many slots the instruction takes: 1 or 2.
    pub fn slots(self) -> usize
        ensures { result ≡ length (slots_of self) }
    {
        if self.is_wide() { 2 } else { 1 }
    }

    /// Whether the instruction writes R10, which is only read.
    pub fn writes_frame_pointer(self) -> bool
        ensures { result ≡ writes_frame_pointer self }
    {
        match self {
            Insn::Alu { dst, .. }
            | Insn::InPlace { dst, .. }
            | Insn::SignExtend { dst, .. }
            | Insn::LoadImmediate { dst, .. }
            | Insn::Load { dst, .. } => dst == Reg::R10,
            Insn::JumpIf { .. } | Insn::Jump(_) | Insn::Store { .. } | Insn::Call(_) | Insn::Exit =>
                false,
        }
    }
}
