// Extension by the sign (RFC 9669, section 4.1, MOVSX): a total function. It relies on `bpf_insn` for which bits are
// extended, and on `low`.

ghost use Rattle.std.specs.Prelude.{◌≡◌};
ghost use Rattle.std.specs.Int.{w8, w16, w32, w64, cast_signed, cast_unsigned};
ghost use Rattle.bpf_words.specs.Words.{low, sign_extended};

use crate::low::{low8, low16, low32};
use bpf_insn::SignExtension;

/// The low bits of a word, extended by their sign. To 32 bits the upper half is 0.
pub fn extend(extension: SignExtension, word: u64) -> u64
    ensures { result ≡ sign_extended extension word }
{
    match extension {
        SignExtension::From8To32 => word32(i32::from(signed8(word))),
        SignExtension::From16To32 => word32(i32::from(signed16(word))),
        SignExtension::From8To64 => word64(i64::from(signed8(word))),
        SignExtension::From16To64 => word64(i64::from(signed16(word))),
        SignExtension::From32To64 => word64(i64::from(signed32(word))),
    }
}

fn signed8(word: u64) -> i8
    ensures { result ≡ cast_signed w8 (low w8 word) }
{
    low8(word).cast_signed()
}

fn signed16(word: u64) -> i16
    ensures { result ≡ cast_signed w16 (low w16 word) }
{
    low16(word).cast_signed()
}

fn signed32(word: u64) -> i32
    ensures { result ≡ cast_signed w32 (low w32 word) }
{
    low32(word).cast_signed()
}

// The word of 32 bits that stands for a number.
fn word32(value: i32) -> u64
    ensures { result ≡ low w32 (cast_unsigned w32 value) }
{
    u64::from(value.cast_unsigned())
}

// The word of 64 bits that stands for a number.
fn word64(value: i64) -> u64
    ensures { result ≡ low w64 (cast_unsigned w64 value) }
{
    value.cast_unsigned()
}
