// Parts a text into lines, and a line into lexemes, from the front.

ghost use Rattle.std.specs.Prelude.{◌≡◌, ◌<◌, ◌≤◌, ◌+◌, ◌-◌, [], ◌∷◌, ℕ, length, IfSome, IfNone};
ghost use Rattle.bpf_asm.specs.Reading.{first_in};
ghost use Rattle.bpf_asm.specs.Given.{ReadsAs};
ghost use Rattle.bpf_asm.specs.Scanner.{line_len, blanks_len, word_len, behind_blanks, lexeme_len, IsFirstSpan};
ghost use Rattle.bpf_asm.specs.Lexemes.{lines, lexemes, spans};

use crate::bytes::{is_blank, is_word};

// How many bytes stand before the first line feed.
#[tactic(auto, using(crate::proofs::Counting::counting))]
fn line_len(text: &[u8]) -> usize
    ensures len { result ≡ line_len text.now }
    ensures within { result ≤ length text.now }
{
    let mut len = 0;
    while len < text.len() && text[len] != b'\n' {
        len += 1;
    }
    len
}

// How many blanks stand in front.
#[tactic(auto, using(crate::proofs::Counting::counting))]
fn blanks_len(line: &[u8]) -> usize
    ensures len { result ≡ blanks_len line.now }
    ensures within { result ≤ length line.now }
{
    let mut len = 0;
    while len < line.len() && is_blank(line[len]) {
        len += 1;
    }
    len
}

// How many bytes of a word stand in front.
#[tactic(auto, using(crate::proofs::Counting::counting))]
fn word_len(bytes: &[u8]) -> usize
    ensures len { result ≡ word_len bytes.now }
    ensures within { result ≤ length bytes.now }
{
    let mut len = 0;
    while len < bytes.len() && is_word(bytes[len]) {
        len += 1;
    }
    len
}

/// The first line of a text that is not empty, and what follows its line feed.
pub fn first_line(text: &[u8]) -> (&[u8], &[u8])
    requires { 0 < length text.now }
    ensures lines { lines text.now ≡ result.0.now ∷ lines result.1.now }
    ensures shorter { length result.1.now < length text.now }
    ensures fits { length result.0.now + length result.1.now ≤ length text.now }
    ensures feed { 0 < length result.1.now → length result.0.now + 1 + length result.1.now ≤ length text.now }
{
    let (line, rest) = text.split_at(line_len(text));
    match rest {
        [] => (line, rest),
        [_, rest @ ..] => (line, rest),
    }
}

// What follows the blanks in front.
fn behind_blanks(line: &[u8]) -> &[u8]
    ensures { result.now ≡ behind_blanks line.now }
{
    line.split_at(blanks_len(line)).1
}

// How many bytes the lexeme has with which the bytes begin, and 0 where they begin with none.
#[tactic(auto, unfolding(crate::specs::Scanner::lexeme_len))]
fn lexeme_len(bytes: &[u8]) -> usize
    ensures len { result ≡ lexeme_len bytes.now }
    ensures within { result ≤ length bytes.now }
{
    match bytes {
        [] | [b'#', ..] => 0,
        [first, ..] if is_word(*first) => word_len(bytes),
        _ => 1,
    }
}

/// The first lexeme of a line, and what follows it.
pub fn first_lexeme(line: &[u8]) -> Option<(&[u8], &[u8])>
    ensures lexeme { ReadsAs (λ x. (x.0.now, lexemes x.1.now)) result (first_in (lexemes line.now)) }
    ensures none { IfNone result ((place : ℕ) → spans place line.now ≡ []) }
    ensures some { IfSome result (λ x. IsFirstSpan line.now x.0.now x.1.now) }
{
    let line = behind_blanks(line);
    let len = lexeme_len(line);
    if len == 0 {
        return None;
    }
    Some(line.split_at(len))
}
