// The names of the instructions. Those of operations and conditions stand in the rows of `bpf_insn`.

ghost use Rattle.std.specs.Prelude.{◌≡◌, ◌++◌, codes, bytes_eq, find};
ghost use Rattle.bpf_asm.specs.declared.mnemonic.Mnemonic.TheVariants as mnemonics;
ghost use Rattle.bpf_asm.specs.declared.table.TheConstants.{OTHER_MNEMONICS};
ghost use Rattle.bpf_asm.specs.Mnemonics.{name_of, mnemonic_of, extension_name, load_name, size_name};

use crate::table::OTHER_MNEMONICS;
use bpf_insn::{
    AluOp, ByteOrder, Condition, InPlaceOp, LoadForm, SignExtension, StoreSize, Width, WordSize,
};

/// What a name says of an instruction: all but its operands.
#[derive(Clone, Copy, Debug, PartialEq, Eq)]
pub enum Mnemonic {
    Alu(Width, AluOp),
    InPlace(InPlaceOp),
    SignExtend(SignExtension),
    JumpNear,
    JumpFar,
    JumpIf(Width, Condition),
    Call,
    Exit,
    Load(LoadForm),
    StoreImmediate(StoreSize),
    StoreRegister(StoreSize),
    LoadImmediate,
}

/// The name of what is done in place.
fn in_place_name(op: InPlaceOp) -> &'static str
    ensures { result.now ≡ name_of (mnemonics.InPlace op) }
{
    match op {
        InPlaceOp::Neg(Width::Bits32) => "neg32",
        InPlaceOp::Neg(Width::Bits64) => "neg64",
        InPlaceOp::Reorder(ByteOrder::Little, WordSize::Word16) => "le16",
        InPlaceOp::Reorder(ByteOrder::Little, WordSize::Word32) => "le32",
        InPlaceOp::Reorder(ByteOrder::Little, WordSize::Word64) => "le64",
        InPlaceOp::Reorder(ByteOrder::Big, WordSize::Word16) => "be16",
        InPlaceOp::Reorder(ByteOrder::Big, WordSize::Word32) => "be32",
        InPlaceOp::Reorder(ByteOrder::Big, WordSize::Word64) => "be64",
        InPlaceOp::Reorder(ByteOrder::Swapped, WordSize::Word16) => "swap16",
        InPlaceOp::Reorder(ByteOrder::Swapped, WordSize::Word32) => "swap32",
        InPlaceOp::Reorder(ByteOrder::Swapped, WordSize::Word64) => "swap64",
    }
}

/// The name of a sign extension.
fn extension_name(extension: SignExtension) -> &'static str
    ensures { result.now ≡ extension_name extension }
{
    match extension {
        SignExtension::From8To32 => "movsx32_8",
        SignExtension::From16To32 => "movsx32_16",
        SignExtension::From8To64 => "movsx64_8",
        SignExtension::From16To64 => "movsx64_16",
        SignExtension::From32To64 => "movsx64_32",
    }
}

/// The name of a load.
fn load_name(form: LoadForm) -> &'static str
    ensures { result.now ≡ load_name form }
{
    match form {
        LoadForm::Byte => "ldxb",
        LoadForm::HalfWord => "ldxh",
        LoadForm::Word => "ldxw",
        LoadForm::DoubleWord => "ldxdw",
        LoadForm::SignedByte => "ldxsb",
        LoadForm::SignedHalfWord => "ldxsh",
        LoadForm::SignedWord => "ldxsw",
    }
}

/// The name of a store of a constant.
fn store_immediate_name(size: StoreSize) -> &'static str
    ensures { result.now ≡ codes "st" ++ size_name size }
{
    match size {
        StoreSize::Byte => "stb",
        StoreSize::HalfWord => "sth",
        StoreSize::Word => "stw",
        StoreSize::DoubleWord => "stdw",
    }
}

/// The name of a store of a register.
fn store_register_name(size: StoreSize) -> &'static str
    ensures { result.now ≡ codes "stx" ++ size_name size }
{
    match size {
        StoreSize::Byte => "stxb",
        StoreSize::HalfWord => "stxh",
        StoreSize::Word => "stxw",
        StoreSize::DoubleWord => "stxdw",
    }
}

impl Mnemonic {
    /// The name.
    pub fn name(self) -> &'static str
        ensures { result.now ≡ name_of self }
    {
        match self {
            Mnemonic::Alu(width, op) => op.name(width),
            Mnemonic::InPlace(op) => in_place_name(op),
            Mnemonic::SignExtend(extension) => extension_name(extension),
            Mnemonic::JumpNear => "ja",
            Mnemonic::JumpFar => "ja32",
            Mnemonic::JumpIf(width, condition) => condition.name(width),
            Mnemonic::Call => "call",
            Mnemonic::Exit => "exit",
            Mnemonic::Load(form) => load_name(form),
            Mnemonic::StoreImmediate(size) => store_immediate_name(size),
            Mnemonic::StoreRegister(size) => store_register_name(size),
            Mnemonic::LoadImmediate => "lddw",
        }
    }

    // Whether this is the name.
    fn is_called(self, word: &[u8]) -> bool
        ensures { result ≡ bytes_eq (name_of self) word.now }
    {
        self.name().as_bytes() == word
    }

    // Of the others, the mnemonic of a name.
    fn other(word: &[u8]) -> Option<Self>
        ensures { result ≡ find (λ mnemonic. bytes_eq (name_of mnemonic) word.now) OTHER_MNEMONICS }
    {
        OTHER_MNEMONICS
            .iter()
            .copied()
            .find(|mnemonic| mnemonic.is_called(word))
    }

    /// The mnemonic of a name, if there is one.
    #[tactic(auto, unfolding(crate::specs::Mnemonics::mnemonic_of))]
    pub fn from_name(word: &[u8]) -> Option<Self>
        ensures { result ≡ mnemonic_of word.now }
    {
        if let Some(op) = AluOp::from_name(Width::Bits32, word) {
            return Some(Mnemonic::Alu(Width::Bits32, op));
        }
        if let Some(op) = AluOp::from_name(Width::Bits64, word) {
            return Some(Mnemonic::Alu(Width::Bits64, op));
        }
        if let Some(condition) = Condition::from_name(Width::Bits32, word) {
            return Some(Mnemonic::JumpIf(Width::Bits32, condition));
        }
        if let Some(condition) = Condition::from_name(Width::Bits64, word) {
            return Some(Mnemonic::JumpIf(Width::Bits64, condition));
        }
        Mnemonic::other(word)
    }
}
