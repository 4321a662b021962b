// What a line is: a label line, an instruction line, or empty; and how many slots it takes.

ghost use Rattle.std.specs.Prelude.{◌≡◌, ◌<◌, ◌≤◌, ◌+◌, ◌*◌, ◌^◌, length};
ghost use Rattle.std.specs.List.{list_all};
ghost use Rattle.bpf_asm.specs.Lexemes.{lexemes};
ghost use Rattle.bpf_asm.specs.Numbers.{is_token};
ghost use Rattle.bpf_asm.specs.Reading.{first_in};
ghost use Rattle.bpf_asm.specs.Given.{ReadsAs, SparesSaid};
ghost use Rattle.bpf_asm.specs.Labels.{label_at};
ghost use Rattle.bpf_asm.specs.Assembly.{label_in, slots_in, unless_empty, said_by};

use crate::fault::LineFault;
use crate::form::read_insn;
use crate::labels::Labels;
use crate::lexeme::first_lexeme;
use crate::mnemonic::Mnemonic;
use crate::number::{is_name, is_token};
use crate::reader::{read_end, read_mark};
use bpf_insn::Insn;

/// The name that a label line defines: a name and `:` alone.
#[tactic(auto, unfolding(crate::specs::Assembly::label_in))]
pub fn label_of(line: &[u8]) -> Option<&[u8]>
    ensures { ReadsAs (λ x. x.now) result (label_in (lexemes line.now)) }
{
    let (name, rest) = first_lexeme(line)?;
    let rest = read_mark(rest, b':')?;
    if !is_name(name) {
        return None;
    }
    read_end(rest)?;
    Some(name)
}

/// How many slots a line takes, by its first lexeme; the rest of it may be faulty.
#[tactic(auto, unfolding(crate::specs::Assembly::slots_in))]
pub fn slots_of(line: &[u8]) -> usize
    ensures slots { result ≡ slots_in (lexemes line.now) }
    ensures bound { result ≤ 2 * length line.now }
{
    if label_of(line).is_some() {
        return 0;
    }
    match first_lexeme(line) {
        None => 0,
        Some((word, _)) if word == b"lddw".as_slice() => 2,
        Some(_) => 1,
    }
}

/// Whether the line holds names, numbers and marks alone.
pub fn has_tokens_alone(line: &[u8]) -> bool
    ensures { result ≡ list_all is_token (lexemes line.now) }
{
    let mut rest = line;
    while let Some((word, after)) = first_lexeme(rest) {
        if !is_token(word) {
            return false;
        }
        rest = after;
    }
    true
}

// The instruction of a line that is no label line.
fn insn_of(labels: &Labels, slot: usize, line: &[u8]) -> Result<Option<Insn>, LineFault>
    requires { slot + 1 < 2 ^ 64 }
    ensures said { result ≡ unless_empty (label_at labels.now) slot (first_in (lexemes line.now)) }
    ensures spares { SparesSaid result }
{
    let Some((word, rest)) = first_lexeme(line) else {
        return Ok(None);
    };
    let Some(mnemonic) = Mnemonic::from_name(word) else {
        return Err(LineFault::NoMnemonic);
    };
    match read_insn(labels, slot + 1, mnemonic, rest) {
        Some(Ok(insn)) => Ok(Some(insn)),
        Some(Err(fault)) => Err(fault),
        None => Err(LineFault::WrongForm),
    }
}

/// What a line says that begins at this slot: no instruction or one, or its lowest fault.
#[tactic(auto, unfolding(crate::specs::Assembly::said_by, crate::specs::Labels::label_at))]
pub fn read_line(
    labels: &Labels,
    line_number: usize,
    slot: usize,
    line: &[u8],
) -> Result<Option<Insn>, LineFault>
    requires { slot + 1 < 2 ^ 64 }
    ensures said { result ≡ said_by (label_at labels.now) line_number slot (lexemes line.now) }
    ensures spares { SparesSaid result }
{
    if !has_tokens_alone(line) {
        return Err(LineFault::NoToken);
    }
    match label_of(line) {
        Some(name) => match labels.get(name) {
            Some(label) if label.line < line_number => Err(LineFault::LabelDefinedBefore),
            _ => Ok(None),
        },
        None => insn_of(labels, slot, line),
    }
}
