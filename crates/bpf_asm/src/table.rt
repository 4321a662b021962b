// The mnemonics that are no operation's and no condition's, each once, so that a name is looked up among their names. Those of operations
// and conditions stand in the rows of `bpf_insn`.

use crate::mnemonic::Mnemonic;
use bpf_insn::{ByteOrder, InPlaceOp, LoadForm, SignExtension, StoreSize, Width, WordSize};

/// Each of them once.
pub const OTHER_MNEMONICS: [Mnemonic; 36] = [
    Mnemonic::InPlace(InPlaceOp::Neg(Width::Bits32)),
    Mnemonic::InPlace(InPlaceOp::Neg(Width::Bits64)),
    Mnemonic::InPlace(InPlaceOp::Reorder(ByteOrder::Little, WordSize::Word16)),
    Mnemonic::InPlace(InPlaceOp::Reorder(ByteOrder::Little, WordSize::Word32)),
    Mnemonic::InPlace(InPlaceOp::Reorder(ByteOrder::Little, WordSize::Word64)),
    Mnemonic::InPlace(InPlaceOp::Reorder(ByteOrder::Big, WordSize::Word16)),
    Mnemonic::InPlace(InPlaceOp::Reorder(ByteOrder::Big, WordSize::Word32)),
    Mnemonic::InPlace(InPlaceOp::Reorder(ByteOrder::Big, WordSize::Word64)),
    Mnemonic::InPlace(InPlaceOp::Reorder(ByteOrder::Swapped, WordSize::Word16)),
    Mnemonic::InPlace(InPlaceOp::Reorder(ByteOrder::Swapped, WordSize::Word32)),
    Mnemonic::InPlace(InPlaceOp::Reorder(ByteOrder::Swapped, WordSize::Word64)),
    Mnemonic::SignExtend(SignExtension::From8To32),
    Mnemonic::SignExtend(SignExtension::From16To32),
    Mnemonic::SignExtend(SignExtension::From8To64),
    Mnemonic::SignExtend(SignExtension::From16To64),
    Mnemonic::SignExtend(SignExtension::From32To64),
    Mnemonic::JumpNear,
    Mnemonic::JumpFar,
    Mnemonic::Call,
    Mnemonic::Exit,
    Mnemonic::Load(LoadForm::Byte),
    Mnemonic::Load(LoadForm::HalfWord),
    Mnemonic::Load(LoadForm::Word),
    Mnemonic::Load(LoadForm::DoubleWord),
    Mnemonic::Load(LoadForm::SignedByte),
    Mnemonic::Load(LoadForm::SignedHalfWord),
    Mnemonic::Load(LoadForm::SignedWord),
    Mnemonic::StoreImmediate(StoreSize::Byte),
    Mnemonic::StoreImmediate(StoreSize::HalfWord),
    Mnemonic::StoreImmediate(StoreSize::Word),
    Mnemonic::StoreImmediate(StoreSize::DoubleWord),
    Mnemonic::StoreRegister(StoreSize::Byte),
    Mnemonic::StoreRegister(StoreSize::HalfWord),
    Mnemonic::StoreRegister(StoreSize::Word),
    Mnemonic::StoreRegister(StoreSize::DoubleWord),
    Mnemonic::LoadImmediate,
];
