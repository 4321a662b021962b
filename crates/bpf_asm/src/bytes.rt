// What single bytes of a text are.

ghost use Rattle.std.specs.Prelude.{◌≡◌};
ghost use Rattle.bpf_asm.specs.Bytes.{is_letter, is_digit, is_hexadecimal_digit, is_word, is_blank, is_mark};

/// A lower-case letter.
#[tactic(auto, unfolding(crate::specs::Bytes::is_letter))]
pub fn is_letter(byte: u8) -> bool
    ensures { result ≡ is_letter byte }
{
    matches!(byte, b'a'..=b'z')
}

/// A decimal digit.
#[tactic(auto, unfolding(crate::specs::Bytes::is_digit))]
pub fn is_digit(byte: u8) -> bool
    ensures { result ≡ is_digit byte }
{
    matches!(byte, b'0'..=b'9')
}

/// A digit of base 16.
#[tactic(auto, unfolding(crate::specs::Bytes::is_hexadecimal_digit))]
pub fn is_hexadecimal_digit(byte: u8) -> bool
    ensures { result ≡ is_hexadecimal_digit byte }
{
    matches!(byte, b'0'..=b'9' | b'a'..=b'f')
}

/// What names and numbers consist of.
#[tactic(auto, unfolding(crate::specs::Bytes::is_word))]
pub fn is_word(byte: u8) -> bool
    ensures { result ≡ is_word byte }
{
    matches!(byte, b'a'..=b'z' | b'0'..=b'9' | b'_')
}

/// A space or a tab.
#[tactic(auto, unfolding(crate::specs::Bytes::is_blank))]
pub fn is_blank(byte: u8) -> bool
    ensures { result ≡ is_blank byte }
{
    matches!(byte, b' ' | b'\t')
}

/// A character that is a token by itself.
#[tactic(auto, unfolding(crate::specs::Bytes::is_mark))]
pub fn is_mark(byte: u8) -> bool
    ensures { result ≡ is_mark byte }
{
    matches!(byte, b',' | b':' | b'[' | b']' | b'+' | b'-')
}
