// The table of the opcodes of loads and stores, by class, mode and size (RFC 9669, section 5). It relies
// on `fields` for the parts of an opcode.

ghost use Rattle.std.specs.Prelude.{◌≡◌, ◌<◌, ◌&&◌, ◌||◌, ◌==◌, not, is_some, IfSome};
ghost use Rattle.bpf_decode.specs.FieldTests.{is_load_immediate, is_load, is_store};
ghost use Rattle.bpf_decode.specs.Spells.{load_mode, load_size, store_size};
ghost use Rattle.bpf_decode.specs.Kinds.{IsTransfer};

use crate::fields::{
    BYTE, DOUBLE_WORD, Fields, HALF_WORD, IMM, LD, LDX, MEM, MEMSX, ST, STX, WORD,
};
use bpf_insn::{LoadForm, StoreSize};

/// What a load or store does, without its operands.
#[derive(Clone, Copy)]
pub enum Transfer {
    /// A 64-bit immediate.
    Constant,
    Load(LoadForm),
    StoreImmediate(StoreSize),
    StoreRegister(StoreSize),
}

/// The load of a mode and a size (RFC 9669, sections 5.1 and 5.2).
fn load_form(mode: u8, size: u8) -> Option<LoadForm>
    requires { size < 4 }
    ensures mode { IfSome result (λ form. mode ≡ load_mode form) }
    ensures size { IfSome result (λ form. size ≡ load_size form) }
    ensures known { is_some result ≡ (mode == 3 || (mode == 4 && not (size == 3))) }
{
    Some(match (mode, size) {
        (MEM, WORD) => LoadForm::Word,
        (MEM, HALF_WORD) => LoadForm::HalfWord,
        (MEM, BYTE) => LoadForm::Byte,
        (MEM, DOUBLE_WORD) => LoadForm::DoubleWord,
        (MEMSX, WORD) => LoadForm::SignedWord,
        (MEMSX, HALF_WORD) => LoadForm::SignedHalfWord,
        (MEMSX, BYTE) => LoadForm::SignedByte,
        _ => return None,
    })
}

/// The store of a size (RFC 9669, section 5.1).
fn store_of(size: u8) -> StoreSize
    requires { size < 4 }
    ensures { size ≡ store_size result }
{
    match size {
        WORD => StoreSize::Word,
        HALF_WORD => StoreSize::HalfWord,
        BYTE => StoreSize::Byte,
        _ => StoreSize::DoubleWord,
    }
}

/// The load or store whose fields these are, and None where they are not those of one.
pub fn transfer_of(fields: &Fields) -> Option<Transfer>
    ensures found { IfSome result (IsTransfer fields.now) }
    ensures known { is_some result ≡ (is_load_immediate fields.now || is_load fields.now || is_store fields.now) }
{
    Some(match (fields.class(), fields.mode(), fields.size()) {
        (LD, IMM, DOUBLE_WORD) => Transfer::Constant,
        (LDX, mode, size) => Transfer::Load(load_form(mode, size)?),
        (ST, MEM, size) => Transfer::StoreImmediate(store_of(size)),
        (STX, MEM, size) => Transfer::StoreRegister(store_of(size)),
        _ => return None,
    })
}
