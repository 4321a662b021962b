// Byte orders (RFC 9669, section 4.2): total functions. The machine is little-endian, whatever it runs on. They rely on
// `bpf_insn` for the orders and the sizes, and on `low`.

ghost use Rattle.std.specs.Prelude.{◌≡◌};
ghost use Rattle.std.specs.Int.{w16, w32, w64};
ghost use Rattle.bpf_words.specs.Words.{ordered, swap};

use crate::low::{low16, low32};
use bpf_insn::{ByteOrder, WordSize};

/// The low bits of a word in a byte order. The bits above are 0.
pub fn swap(order: ByteOrder, size: WordSize, word: u64) -> u64
    ensures { result ≡ swap order size word }
{
    match size {
        WordSize::Word16 => u64::from(ordered16(order, low16(word))),
        WordSize::Word32 => u64::from(ordered32(order, low32(word))),
        WordSize::Word64 => ordered64(order, word),
    }
}

fn ordered16(order: ByteOrder, word: u16) -> u16
    ensures { result ≡ ordered order w16 word }
{
    match order {
        ByteOrder::Little => word,
        ByteOrder::Big | ByteOrder::Swapped => word.swap_bytes(),
    }
}

fn ordered32(order: ByteOrder, word: u32) -> u32
    ensures { result ≡ ordered order w32 word }
{
    match order {
        ByteOrder::Little => word,
        ByteOrder::Big | ByteOrder::Swapped => word.swap_bytes(),
    }
}

fn ordered64(order: ByteOrder, word: u64) -> u64
    ensures { result ≡ ordered order w64 word }
{
    match order {
        ByteOrder::Little => word,
        ByteOrder::Big | ByteOrder::Swapped => word.swap_bytes(),
    }
}
