// The low 32 bits of words: a scalar of them, and what is known of a word by them. It relies on `scalars`.

ghost use Rattle.std.specs.Prelude.{◌≡◌, ℕ, ◌<◌, ◌%◌, ◌^◌};
ghost use Rattle.std.specs.Int.{w32};
ghost use Rattle.bpf_words.specs.Words.{low};
ghost use Rattle.scalar_domain.specs.Scalar.{Agrees, Has, Within};

use crate::bits::KnownBits;
use crate::scalars::Scalar;
use crate::spans::Span;

// How many words of 32 bits there are.
const HALF_WORDS: u64 = 1 << 32;

/// The low 32 bits: the range is kept where the upper halves are alike.
pub(crate) fn low_half(words: Scalar) -> Scalar
    ensures { (w : ℕ) → Has words w → Has result (low w32 w) }
{
    Scalar {
        unsigned: low_span(words.unsigned),
        signed: Span::any(),
        bits: low_bits(words.bits),
    }
    .tightened()
}

fn low_span(words: Span) -> Span
    ensures { (w : ℕ) → Within words w → Within result (w % 2 ^ 32) }
{
    if words.least / HALF_WORDS == words.most / HALF_WORDS {
        Span {
            least: words.least % HALF_WORDS,
            most: words.most % HALF_WORDS,
        }
    } else {
        Span {
            least: 0,
            most: HALF_WORDS - 1,
        }
    }
}

fn low_bits(words: KnownBits) -> KnownBits
    ensures { (w : ℕ) → Agrees words w → Agrees result (w % 2 ^ 32) }
{
    words.and(KnownBits::exactly(HALF_WORDS - 1))
}

/// The words of which the low 32 bits are among these.
pub(crate) fn with_low_half(words: Scalar, lows: Scalar) -> Scalar
    ensures has { (w : ℕ) → Has words w → Has lows (low w32 w) → Has result w }
    ensures only { (w : ℕ) → Has result w → Has words w }
{
    Scalar {
        unsigned: words
            .unsigned
            .meet(span_by_low(words.unsigned, lows.unsigned)),
        signed: words.signed,
        bits: words.bits.meet(bits_by_low(lows.bits)),
    }
    .tightened()
}

// Where the upper halves are alike, the range that the low ones leave.
fn span_by_low(words: Span, lows: Span) -> Span
    ensures { (w : ℕ) → w < 2 ^ 64 → Within words w → Within lows (w % 2 ^ 32) → Within result w }
{
    let upper = words.least / HALF_WORDS;
    if upper == words.most / HALF_WORDS {
        let base = upper * HALF_WORDS;
        Span {
            least: base.saturating_add(lows.least),
            most: base.saturating_add(lows.most),
        }
    } else {
        Span::any()
    }
}

fn bits_by_low(lows: KnownBits) -> KnownBits
    ensures { (w : ℕ) → w < 2 ^ 64 → Agrees lows (w % 2 ^ 32) → Agrees result w }
{
    KnownBits {
        must: lows.must % HALF_WORDS,
        may: lows.may | (u64::MAX - (HALF_WORDS - 1)),
    }
}
