// What is known of each arithmetic operation and of each condition, a row each: code and offset (RFC 9669, sections 4.1 and
// 4.3) and the assembler's mnemonics. The decoder, the encoder, the assembler and the disassembler read these rows. It
// relies on `insn` for the operations.

ghost use Rattle.std.specs.Prelude.{◌≡◌, ◌<◌, ◌&&◌, ◌==◌, Some, bytes_eq, IfSome};
ghost use Rattle.std.specs.Ordering.{int_eq};
ghost use Rattle.bpf_insn.specs.declared.insn.Width.TheVariants.{Bits32, Bits64};
ghost use Rattle.bpf_insn.specs.declared.insn.AluOp.{AluOp};
ghost use Rattle.bpf_insn.specs.declared.insn.Condition.{Condition};
ghost use Rattle.bpf_insn.specs.Operations.{alu_code, alu_offset, alu_name, condition_code, jump_name, alu_of_form, alu_of_name, condition_of_code, condition_of_name};

use crate::insn::{AluOp, Condition, Width};

/// Each operation once.
pub const ALU_OPS: [AluOp; 14] = [
    AluOp::Add,
    AluOp::Sub,
    AluOp::Mul,
    AluOp::Div,
    AluOp::SignedDiv,
    AluOp::Or,
    AluOp::And,
    AluOp::Lsh,
    AluOp::Rsh,
    AluOp::Mod,
    AluOp::SignedMod,
    AluOp::Xor,
    AluOp::Mov,
    AluOp::Arsh,
];

/// Each condition once.
pub const CONDITIONS: [Condition; 11] = [
    Condition::Equal,
    Condition::Greater,
    Condition::GreaterOrEqual,
    Condition::AnyBit,
    Condition::NotEqual,
    Condition::SignedGreater,
    Condition::SignedGreaterOrEqual,
    Condition::Less,
    Condition::LessOrEqual,
    Condition::SignedLess,
    Condition::SignedLessOrEqual,
];

/// Code, offset, and the mnemonics at 32 bits and at 64.
type AluRow = (u8, i16, &'static str, &'static str);

/// Code, and the mnemonics of a jump that compares 32 bits and of one that compares 64.
type ConditionRow = (u8, &'static str, &'static str);

impl AluOp {
    fn row(self) -> AluRow
        ensures code { result.0 ≡ alu_code self }
        ensures in_range { result.0 < 16 }
        ensures offset { result.1 ≡ alu_offset self }
        ensures name32 { result.2.now ≡ alu_name Bits32 self }
        ensures name64 { result.3.now ≡ alu_name Bits64 self }
    {
        match self {
            AluOp::Add => (0x0, 0, "add32", "add64"),
            AluOp::Sub => (0x1, 0, "sub32", "sub64"),
            AluOp::Mul => (0x2, 0, "mul32", "mul64"),
            AluOp::Div => (0x3, 0, "div32", "div64"),
            AluOp::SignedDiv => (0x3, 1, "sdiv32", "sdiv64"),
            AluOp::Or => (0x4, 0, "or32", "or64"),
            AluOp::And => (0x5, 0, "and32", "and64"),
            AluOp::Lsh => (0x6, 0, "lsh32", "lsh64"),
            AluOp::Rsh => (0x7, 0, "rsh32", "rsh64"),
            AluOp::Mod => (0x9, 0, "mod32", "mod64"),
            AluOp::SignedMod => (0x9, 1, "smod32", "smod64"),
            AluOp::Xor => (0xa, 0, "xor32", "xor64"),
            AluOp::Mov => (0xb, 0, "mov32", "mov64"),
            AluOp::Arsh => (0xc, 0, "arsh32", "arsh64"),
        }
    }

    /// Its code in an opcode.
    pub fn code(self) -> u8
        ensures code { result ≡ alu_code self }
        ensures in_range { result < 16 }
    {
        self.row().0
    }

    /// The offset that tells it from the other operation of its code.
    pub fn offset(self) -> i16
        ensures { result ≡ alu_offset self }
    {
        self.row().1
    }

    /// Its mnemonic in a width.
    pub fn name(self, width: Width) -> &'static str
        ensures { result.now ≡ alu_name width self }
    {
        match width {
            Width::Bits32 => self.row().2,
            Width::Bits64 => self.row().3,
        }
    }

    // Whether its row has this code and this offset.
    fn has_form(self, code: u8, offset: i16) -> bool
        ensures { result ≡ (code == alu_code self && int_eq offset (alu_offset self)) }
    {
        code == self.code() && offset == self.offset()
    }

    // Whether this is its mnemonic in a width.
    fn is_called(self, width: Width, word: &[u8]) -> bool
        ensures { result ≡ bytes_eq (alu_name width self) word.now }
    {
        self.name(width).as_bytes() == word
    }

    // The first operation whose row has this code and this offset.
    #[tactic(auto, unfolding(crate::specs::Operations::alu_of_form))]
    fn first_of_form(code: u8, offset: i16) -> Option<Self>
        ensures { result ≡ alu_of_form code offset }
    {
        ALU_OPS.iter().copied().find(|op| op.has_form(code, offset))
    }

    // The first operation that is called so in a width.
    #[tactic(auto, unfolding(crate::specs::Operations::alu_of_name))]
    fn first_of_name(width: Width, word: &[u8]) -> Option<Self>
        ensures { result ≡ alu_of_name width word.now }
    {
        ALU_OPS.iter().copied().find(|op| op.is_called(width, word))
    }

    /// The operation of a code and an offset, if there is one.
    pub fn from_form(code: u8, offset: i16) -> Option<Self>
        ensures row { result ≡ alu_of_form code offset }
        // It has that row, and no other operation has.
        ensures found { IfSome result (λ op. (alu_code op ≡ code) × (alu_offset op ≡ offset)) }
        ensures only { (op : AluOp) → alu_code op ≡ code → alu_offset op ≡ offset → result ≡ Some op }
    {
        AluOp::first_of_form(code, offset)
    }

    /// The operation of a mnemonic in a width, if there is one.
    pub fn from_name(width: Width, word: &[u8]) -> Option<Self>
        ensures row { result ≡ alu_of_name width word.now }
        // It is called so, and no other operation is.
        ensures found { IfSome result (λ op. alu_name width op ≡ word.now) }
        ensures only { (op : AluOp) → alu_name width op ≡ word.now → result ≡ Some op }
    {
        AluOp::first_of_name(width, word)
    }
}

impl Condition {
    fn row(self) -> ConditionRow
        ensures code { result.0 ≡ condition_code self }
        ensures in_range { result.0 < 16 }
        ensures name32 { result.1.now ≡ jump_name Bits32 self }
        ensures name64 { result.2.now ≡ jump_name Bits64 self }
    {
        match self {
            Condition::Equal => (0x1, "jeq32", "jeq"),
            Condition::Greater => (0x2, "jgt32", "jgt"),
            Condition::GreaterOrEqual => (0x3, "jge32", "jge"),
            Condition::AnyBit => (0x4, "jset32", "jset"),
            Condition::NotEqual => (0x5, "jne32", "jne"),
            Condition::SignedGreater => (0x6, "jsgt32", "jsgt"),
            Condition::SignedGreaterOrEqual => (0x7, "jsge32", "jsge"),
            Condition::Less => (0xa, "jlt32", "jlt"),
            Condition::LessOrEqual => (0xb, "jle32", "jle"),
            Condition::SignedLess => (0xc, "jslt32", "jslt"),
            Condition::SignedLessOrEqual => (0xd, "jsle32", "jsle"),
        }
    }

    /// Its code in an opcode.
    pub fn code(self) -> u8
        ensures code { result ≡ condition_code self }
        ensures in_range { result < 16 }
    {
        self.row().0
    }

    /// The mnemonic of the jump that compares in a width.
    pub fn name(self, width: Width) -> &'static str
        ensures { result.now ≡ jump_name width self }
    {
        match width {
            Width::Bits32 => self.row().1,
            Width::Bits64 => self.row().2,
        }
    }

    // Whether its row has this code.
    fn has_code(self, code: u8) -> bool
        ensures { result ≡ (code == condition_code self) }
    {
        code == self.code()
    }

    // Whether this is the mnemonic of its jump in a width.
    fn is_called(self, width: Width, word: &[u8]) -> bool
        ensures { result ≡ bytes_eq (jump_name width self) word.now }
    {
        self.name(width).as_bytes() == word
    }

    // The first condition whose row has this code.
    #[tactic(auto, unfolding(crate::specs::Operations::condition_of_code))]
    fn first_of_code(code: u8) -> Option<Self>
        ensures { result ≡ condition_of_code code }
    {
        CONDITIONS
            .iter()
            .copied()
            .find(|condition| condition.has_code(code))
    }

    // The first condition whose jump is called so in a width.
    #[tactic(auto, unfolding(crate::specs::Operations::condition_of_name))]
    fn first_of_name(width: Width, word: &[u8]) -> Option<Self>
        ensures { result ≡ condition_of_name width word.now }
    {
        CONDITIONS
            .iter()
            .copied()
            .find(|condition| condition.is_called(width, word))
    }

    /// The condition of a code, if there is one.
    pub fn from_code(code: u8) -> Option<Self>
        ensures row { result ≡ condition_of_code code }
        // It has that code, and no other condition has.
        ensures found { IfSome result (λ condition. condition_code condition ≡ code) }
        ensures only { (condition : Condition) → condition_code condition ≡ code → result ≡ Some condition }
    {
        Condition::first_of_code(code)
    }

    /// The condition of a jump's mnemonic in a width, if there is one.
    pub fn from_name(width: Width, word: &[u8]) -> Option<Self>
        ensures row { result ≡ condition_of_name width word.now }
        // Its jump is called so, and no other condition's is.
        ensures found { IfSome result (λ condition. jump_name width condition ≡ word.now) }
        ensures only { (condition : Condition) → jump_name width condition ≡ word.now → result ≡ Some condition }
    {
        Condition::first_of_name(width, word)
    }
}
