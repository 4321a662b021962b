// The low bits of what a register holds, for instructions that take no more of it. It relies on nothing.

ghost use Rattle.std.specs.Prelude.{◌≡◌};
ghost use Rattle.std.specs.Int.{w8, w16, w32};
ghost use Rattle.bpf_words.specs.Words.{low};

/// The low 8 bits.
pub fn low8(word: u64) -> u8
    ensures { result ≡ low w8 word }
{
    (word % (1 << 8)) as u8
}

/// The low 16 bits.
pub fn low16(word: u64) -> u16
    ensures { result ≡ low w16 word }
{
    (word % (1 << 16)) as u16
}

/// The low 32 bits.
pub fn low32(word: u64) -> u32
    ensures { result ≡ low w32 word }
{
    (word % (1 << 32)) as u32
}
