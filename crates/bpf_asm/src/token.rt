// The tokens of a text, with their places.

ghost use Rattle.std.specs.Prelude.{◌≡◌, ◌<◌, ◌+◌, ◌^◌, ◌++◌, [], ◌∷◌, true, false, length, OnOk, IfErr};
ghost use Rattle.std.specs.List.{list_all};
ghost use Rattle.bpf_asm.specs.declared.fault.AsmFault.TheVariants.{At};
ghost use Rattle.bpf_asm.specs.declared.fault.LineFault.TheVariants.{NoToken};
ghost use Rattle.bpf_asm.specs.Lexemes.{lexemes, spans};
ghost use Rattle.bpf_asm.specs.Numbers.{is_token};
ghost use Rattle.bpf_asm.specs.Given.{HasResult, IfFault};
ghost use Rattle.bpf_asm.specs.Tokens.{tokens_of};

use crate::assembler::AsmError;
use crate::fault::{AsmFault, LineFault};
use crate::lexeme::{first_lexeme, first_line};
use crate::number::is_token;
use base::OrMemory;
use std::alloc::{AllocError, Global};

/// A name, a number without its sign, or a mark. Its text is the slice of the text from `start` to `end`.
#[derive(Clone, Copy, Debug, PartialEq, Eq)]
pub struct Token {
    pub start: usize,
    pub end: usize,
}

// Adds a token.
fn push(tokens: &mut Vec<Token>, token: Token) -> Result<(), AllocError>
    ensures { OnOk result (tokens.new.items ≡ tokens.old.items ++ token ∷ []) }
{
    Ok(tokens.push(token)?)
}

// Adds the tokens of a line that begins at this place.
fn push_tokens(
    tokens: &mut Vec<Token>,
    line: usize,
    place: usize,
    text: &[u8],
) -> Result<(), AsmError>
    requires { place + length text.now < 2 ^ 64 }
    ensures tokens { OnOk result (list_all is_token (lexemes text.now) ≡ true) }
    ensures spans { OnOk result (tokens.new.items ≡ tokens.old.items ++ spans place text.now) }
    ensures fault { IfErr result (IfFault (λ fault. (fault ≡ At line NoToken) × (list_all is_token (lexemes text.now) ≡ false))) }
{
    let mut rest = text;
    while let Some((word, after)) = first_lexeme(rest) {
        if !is_token(word) {
            return Err(OrMemory::Fault(AsmFault::At {
                line,
                fault: LineFault::NoToken,
            }));
        }
        let end = place + (text.len() - after.len());
        push(
            tokens,
            Token {
                start: end - word.len(),
                end,
            },
        )?;
        rest = after;
    }
    Ok(())
}

/// The tokens of a text in their order.
pub fn tokens(alloc: Global, text: &str) -> Result<Vec<Token>, AsmError>
    ensures { HasResult (λ tokens. tokens.items) result (tokens_of text.now) }
{
    let mut tokens = Vec::new(alloc);
    let (mut rest, mut line, mut place) = (text.as_bytes(), 1, 0);
    while !rest.is_empty() {
        let (first, after) = first_line(rest);
        push_tokens(&mut tokens, line, place, first)?;
        line += 1;
        place += first.len() + 1;
        rest = after;
    }
    Ok(tokens)
}
