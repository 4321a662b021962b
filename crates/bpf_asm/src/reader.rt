// Reads parts of an instruction from the front of a line. A reader answers what it read and what stands after it, and None where the
// line is not of its form. A number or a label that is read may still be at fault, which is told only of a line that is of its form.

ghost use Rattle.std.specs.Prelude.{◌≡◌, false, Ok, IfSome};
ghost use Rattle.bpf_insn.specs.declared.insn.Operand.TheVariants.{Immediate};
ghost use Rattle.bpf_insn.specs.Program.{is_frame_pointer};
ghost use Rattle.bpf_asm.specs.Lexemes.{lexemes};
ghost use Rattle.bpf_asm.specs.Reading.{first_in, mark_in, ended, register_in, written_in, number_in, name_in, minus_in, sign_in, signed, imm, offset, word64, immediate_in, word_in, signed_in, operand_in, address_in, target_in, distance_to, unless_faulty};
ghost use Rattle.bpf_asm.specs.Given.{ReadsAs};
ghost use Rattle.bpf_asm.specs.Labels.{label_at};

use crate::fault::LineFault;
use crate::labels::{Label, Labels};
use crate::lexeme::first_lexeme;
use crate::number::{is_name, number, register};
use bpf_insn::{Operand, Reg};

/// The lexeme is read, if it is this mark.
pub fn read_mark(line: &[u8], mark: u8) -> Option<&[u8]>
    ensures { ReadsAs (λ x. lexemes x.now) result (mark_in mark (lexemes line.now)) }
{
    let (word, rest) = first_lexeme(line)?;
    if word == [mark].as_slice() {
        Some(rest)
    } else {
        None
    }
}

/// Nothing more stands on the line.
pub fn read_end(line: &[u8]) -> Option<()>
    ensures { ReadsAs (λ x. x) result (ended tt (lexemes line.now)) }
{
    match first_lexeme(line) {
        None => Some(()),
        Some(_) => None,
    }
}

/// A register.
#[tactic(auto, unfolding(crate::specs::Reading::register_in))]
pub fn read_register(line: &[u8]) -> Option<(Reg, &[u8])>
    ensures { ReadsAs (λ x. (x.0, lexemes x.1.now)) result (register_in (lexemes line.now)) }
{
    let (word, rest) = first_lexeme(line)?;
    Some((register(word)?, rest))
}

/// A register that the instruction writes, which is not R10.
#[tactic(auto, unfolding(crate::specs::Reading::written_in))]
pub fn read_written(line: &[u8]) -> Option<(Reg, &[u8])>
    ensures read { ReadsAs (λ x. (x.0, lexemes x.1.now)) result (written_in (lexemes line.now)) }
    ensures spares { IfSome result (λ x. is_frame_pointer x.0 ≡ false) }
{
    let (reg, rest) = read_register(line)?;
    if reg == Reg::R10 {
        return None;
    }
    Some((reg, rest))
}

/// A number without its sign.
#[tactic(auto, unfolding(crate::specs::Reading::number_in))]
fn read_number(line: &[u8]) -> Option<(Option<u64>, &[u8])>
    ensures { ReadsAs (λ x. (x.0, lexemes x.1.now)) result (number_in (lexemes line.now)) }
{
    let (word, rest) = first_lexeme(line)?;
    Some((number(word)?, rest))
}

/// A name.
pub fn read_name(line: &[u8]) -> Option<(&[u8], &[u8])>
    ensures { ReadsAs (λ x. (x.0.now, lexemes x.1.now)) result (name_in (lexemes line.now)) }
{
    let (word, rest) = first_lexeme(line)?;
    if is_name(word) {
        Some((word, rest))
    } else {
        None
    }
}

/// Whether a `-` stands in front, and what follows it.
#[tactic(auto, unfolding(crate::specs::Reading::minus_in))]
fn read_minus(line: &[u8]) -> (bool, &[u8])
    ensures { (result.0, lexemes result.1.now) ≡ minus_in (lexemes line.now) }
{
    match read_mark(line, b'-') {
        Some(rest) => (true, rest),
        None => (false, line),
    }
}

/// A sign that is written: whether it is `-`.
#[tactic(auto, unfolding(crate::specs::Reading::sign_in))]
fn read_sign(line: &[u8]) -> Option<(bool, &[u8])>
    ensures { ReadsAs (λ x. (x.0, lexemes x.1.now)) result (sign_in (lexemes line.now)) }
{
    if let Some(rest) = read_mark(line, b'-') {
        return Some((true, rest));
    }
    let rest = read_mark(line, b'+')?;
    Some((false, rest))
}

/// A number with its sign.
fn signed(negative: bool, value: Option<u64>) -> Result<i128, LineFault>
    ensures { result ≡ signed negative value }
{
    match value {
        Some(value) if negative => Ok(-i128::from(value)),
        Some(value) => Ok(i128::from(value)),
        None => Err(LineFault::OutOfRange),
    }
}

/// The number as an imm, if it is in range.
pub fn imm(value: Result<i128, LineFault>) -> Result<i32, LineFault>
    ensures { result ≡ imm value }
{
    let value = value?;
    if -0x8000_0000 <= value && value < 0x8000_0000 {
        Ok(value as i32)
    } else {
        Err(LineFault::OutOfRange)
    }
}

/// The number as an offset, if it is in range.
pub fn offset(value: Result<i128, LineFault>) -> Result<i16, LineFault>
    ensures { result ≡ offset value }
{
    let value = value?;
    if -0x8000 <= value && value < 0x8000 {
        Ok(value as i16)
    } else {
        Err(LineFault::OutOfRange)
    }
}

/// The number as a constant of 64 bits, if it is in range.
fn word64(value: Result<i128, LineFault>) -> Result<u64, LineFault>
    ensures { result ≡ word64 value }
{
    let value = value?;
    if 0 <= value && value < 0x1_0000_0000_0000_0000 {
        Ok(value as u64)
    } else {
        Err(LineFault::OutOfRange)
    }
}

/// An immediate: `-` in front where it is negative.
#[tactic(auto, unfolding(crate::specs::Reading::immediate_in))]
pub fn read_immediate(line: &[u8]) -> Option<(Result<i32, LineFault>, &[u8])>
    ensures { ReadsAs (λ x. (x.0, lexemes x.1.now)) result (immediate_in (lexemes line.now)) }
{
    let (negative, rest) = read_minus(line);
    let (value, rest) = read_number(rest)?;
    Some((imm(signed(negative, value)), rest))
}

/// A constant of 64 bits, of which only 0 may have a `-`.
#[tactic(auto, unfolding(crate::specs::Reading::word_in))]
pub fn read_word(line: &[u8]) -> Option<(Result<u64, LineFault>, &[u8])>
    ensures { ReadsAs (λ x. (x.0, lexemes x.1.now)) result (word_in (lexemes line.now)) }
{
    let (negative, rest) = read_minus(line);
    let (value, rest) = read_number(rest)?;
    Some((word64(signed(negative, value)), rest))
}

/// A number whose sign is written.
#[tactic(auto, unfolding(crate::specs::Reading::signed_in))]
fn read_signed(line: &[u8]) -> Option<(Result<i128, LineFault>, &[u8])>
    ensures { ReadsAs (λ x. (x.0, lexemes x.1.now)) result (signed_in (lexemes line.now)) }
{
    let (negative, rest) = read_sign(line)?;
    let (value, rest) = read_number(rest)?;
    Some((signed(negative, value), rest))
}

// The operand of a constant that may be at fault.
fn constant(value: Result<i32, LineFault>) -> Result<Operand, LineFault>
    ensures { result ≡ unless_faulty value (λ v. Ok (Immediate v)) }
{
    Ok(Operand::Immediate(value?))
}

/// A register, or else an immediate.
#[tactic(auto, unfolding(crate::specs::Reading::operand_in))]
pub fn read_operand(line: &[u8]) -> Option<(Result<Operand, LineFault>, &[u8])>
    ensures { ReadsAs (λ x. (x.0, lexemes x.1.now)) result (operand_in (lexemes line.now)) }
{
    if let Some((reg, rest)) = read_register(line) {
        return Some((Ok(Operand::Register(reg)), rest));
    }
    let (value, rest) = read_immediate(line)?;
    Some((constant(value), rest))
}

/// `[rN+N]`: a register, and a number with its sign.
#[tactic(auto, unfolding(crate::specs::Reading::address_in))]
pub fn read_address(line: &[u8]) -> Option<((Reg, Result<i16, LineFault>), &[u8])>
    ensures { ReadsAs (λ x. (x.0, lexemes x.1.now)) result (address_in (lexemes line.now)) }
{
    let (base, rest) = read_register(read_mark(line, b'[')?)?;
    let (value, rest) = read_signed(rest)?;
    let rest = read_mark(rest, b']')?;
    Some(((base, offset(value)), rest))
}

// How far a label is after the next instruction.
fn distance_to(next: usize, label: Option<Label>) -> Result<i128, LineFault>
    ensures { result ≡ distance_to next label }
{
    match label {
        Some(label) => Ok(label.slot as i128 - next as i128),
        None => Err(LineFault::MissingLabel),
    }
}

/// A number of slots with its sign, or else a label.
#[tactic(auto, unfolding(crate::specs::Reading::target_in, crate::specs::Labels::label_at))]
pub fn read_target<'a>(
    labels: &Labels,
    next: usize,
    line: &'a [u8],
) -> Option<(Result<i128, LineFault>, &'a [u8])>
    ensures { ReadsAs (λ x. (x.0, lexemes x.1.now)) result (target_in (label_at labels.now) next (lexemes line.now)) }
{
    if let Some(read) = read_signed(line) {
        return Some(read);
    }
    let (name, rest) = read_name(line)?;
    Some((distance_to(next, labels.get(name).copied()), rest))
}
