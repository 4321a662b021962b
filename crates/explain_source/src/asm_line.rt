// What is wrong with a line of a program's text, as far as the text shows it, and how the line is mended. It relies on `helpers` for the
// names of helpers, and on `bpf_insn` for the mnemonics of operations and of conditions.

use crate::asm_commas::put_missing_comma;
use crate::asm_near::put_near;
use crate::asm_numbers;
use bpf_asm::LineFault;
use bpf_insn::{ALU_OPS, AluOp, Condition, Width};
use cli_text_page::Page;
use explain_layout::excerpt::put_foreign;
use explain_layout::{Span, nth_line};
use helpers::Helper;
use std::alloc::{AllocError, Global};

/// Puts what is wrong with the line of that number, from 1, of a program's text, and how the line is mended; and answers whether the text
/// shows it.
pub fn put_fault(
    alloc: Global,
    page: &mut Page,
    fault: LineFault,
    asm: &str,
    number: usize,
) -> Result<bool, AllocError> {
    let code = code_of(nth_line(asm, number.saturating_sub(1)));
    Ok(match fault {
        LineFault::NoToken => put_character(page, code) || put_number(page, code),
        LineFault::NoMnemonic => {
            put_label(page, code)
                || put_width(page, code)
                || put_near(alloc, page, first_word(code))?
        }
        LineFault::WrongForm => put_comma(page, code) || put_form(page, code),
        LineFault::OutOfRange => put_out_of_range(page, code),
        LineFault::LabelDefinedBefore => put_defined(page, asm, number, code),
        LineFault::MissingLabel => false,
    })
}

// A line without its comment.
fn code_of(line: &str) -> &str {
    line.split('#').next().unwrap_or("")
}

/// Which part of a line it is that is no token, if the fault is that: a character, or a word.
pub fn faulty_part(fault: LineFault, line: &str) -> Option<Span> {
    if fault != LineFault::NoToken {
        return None;
    }
    let code = code_of(line);
    for (start, letter) in code.char_indices() {
        if !is_of_text(letter) {
            let end = start.saturating_add(letter.len_utf8());
            return Some(Span { start, end });
        }
    }
    let mut start = 0usize;
    for word in code.split(is_no_word) {
        let end = start.saturating_add(word.len());
        if is_no_token(word) {
            return Some(Span { start, end });
        }
        start = end.saturating_add(1);
    }
    None
}

// Whether a word begins as a number and is none.
fn is_no_token(word: &str) -> bool {
    word.starts_with(is_no_beginning) && !is_number(word)
}

// Puts that a comma is missing in a line.
fn put_comma(page: &mut Page, code: &str) -> bool {
    match operands_of(first_word(code)) {
        Some((operands, _)) => put_missing_comma(page, code, operands),
        None => false,
    }
}

// Puts which number of a line is out of its range.
fn put_out_of_range(page: &mut Page, code: &str) -> bool {
    match operands_of(first_word(code)) {
        Some((operands, _)) => asm_numbers::put_number(page, code, operands),
        None => false,
    }
}

// Puts in which line before that of this number the label is defined that this line defines.
fn put_defined(page: &mut Page, asm: &str, number: usize, code: &str) -> bool {
    let name = label_of(code);
    let mut at = 0u64;
    for line in asm.split('\n').take(number.saturating_sub(1)) {
        at = at.saturating_add(1);
        if !name.is_empty() && label_of(code_of(line)) == name {
            page.text("  = here: `");
            put_foreign(page, name);
            page.fill("` is defined in line {} of the program already\n", &[at]);
            page.text("  = to mend it: give one of the two labels another name\n");
            return true;
        }
    }
    false
}

// The label that a line defines, or nothing.
fn label_of(code: &str) -> &str {
    match code.trim().strip_suffix(':') {
        Some(name) => name.trim(),
        None => "",
    }
}

// Puts the first character that stands in no program, and where it stands.
fn put_character(page: &mut Page, code: &str) -> bool {
    for (before, letter) in code.chars().enumerate() {
        if !is_of_text(letter) {
            page.text("  = here: ");
            let mending = put_name(page, letter);
            let column = before.saturating_add(1) as u64;
            page.fill(
                " at column {} of the program's line\n  = to mend it: ",
                &[column],
            );
            page.text(mending);
            page.text("\n");
            return true;
        }
    }
    false
}

// Puts how a character is called, and answers how a line with it is mended.
fn put_name(page: &mut Page, letter: char) -> &'static str {
    let (name, mending) = match letter {
        '\r' => (
            "a carriage return",
            "let the text's lines end with a line feed alone",
        ),
        '\u{a0}' => ("a no-break space", "write a plain space in its place"),
        '\u{feff}' => ("a byte order mark", "save the text without it"),
        'A'..='Z' => (
            "the capital letter ",
            "write names and numbers in lower case",
        ),
        ';' => (
            "the character ",
            "leave it out: a line ends an instruction, and `#` begins a comment",
        ),
        _ => (
            "the character ",
            "leave it out: a program's text has lower case letters, digits, `_` and `, : [ ] + -` alone",
        ),
    };
    page.text(name);
    if name.ends_with(' ') {
        page.text("`");
        page.foreign_character(letter);
        page.text("`");
    }
    mending
}

fn is_of_text(letter: char) -> bool {
    is_of_word(letter) || matches!(letter, ' ' | '\t' | ',' | ':' | '[' | ']' | '+' | '-')
}

/// What a name or a number has.
pub fn is_of_word(letter: char) -> bool {
    matches!(letter, 'a'..='z' | '0'..='9' | '_')
}

// Puts the first word that begins as a number and is none.
fn put_number(page: &mut Page, code: &str) -> bool {
    let mut column = 1u64;
    for word in code.split(is_no_word) {
        if is_no_token(word) {
            page.text("  = here: `");
            put_foreign(page, word);
            page.fill(
                "` at column {} of the program's line is no number and no name\n  = to mend it: write a number in digits alone or as `0x` with hexadecimal digits, and begin a name with a letter\n",
                &[column],
            );
            return true;
        }
        column = column.saturating_add(word.len() as u64).saturating_add(1);
    }
    false
}

/// What no name and no number has.
pub fn is_no_word(letter: char) -> bool {
    !is_of_word(letter)
}

// What a name does not begin with.
fn is_no_beginning(letter: char) -> bool {
    matches!(letter, '0'..='9' | '_')
}

fn is_number(word: &str) -> bool {
    match word.strip_prefix("0x") {
        Some(digits) => {
            !digits.is_empty() && digits.bytes().all(|byte| byte.is_ascii_hexdigit())
        }
        None => word.bytes().all(|byte| byte.is_ascii_digit()),
    }
}

// Puts that a label has something after it in its line.
fn put_label(page: &mut Page, code: &str) -> bool {
    let Some((name, rest)) = code.split_once(':') else {
        return false;
    };
    if name.trim().is_empty() || rest.trim().is_empty() {
        return false;
    }
    page.text("  = here: something stands after the label `");
    put_foreign(page, name.trim());
    page.text(
        "`\n  = to mend it: let the label stand alone on its line, and the instruction on the next\n",
    );
    true
}

// Puts that a mnemonic is to say how many bits it computes with.
fn put_width(page: &mut Page, code: &str) -> bool {
    let word = first_word(code);
    if !is_operation(word) && word != "neg" {
        return false;
    }
    page.text("  = here: `");
    page.text(word);
    page.text("` does not say how many bits it computes with\n  = to mend it: write `");
    page.text(word);
    page.text("64`, or `");
    page.text(word);
    page.text("32` for the lower half\n");
    true
}

// Puts which form the mnemonic of a line has, and what is against it if that is one of the usual slips.
fn put_form(page: &mut Page, code: &str) -> bool {
    let word = first_word(code);
    let Some((first, second)) = operands_of(word) else {
        return false;
    };
    page.text("  = here: the form is `");
    put_one_form(page, word, first);
    if !second.is_empty() {
        page.text("` or `");
        put_one_form(page, word, second);
    }
    page.text("`\n  = to mend it: ");
    match slip_of(word, code) {
        Slip::WritesR10 => page.text("write to another register, since r10 is only read"),
        Slip::NamesHelper(helper) => page.fill(
            "call the helper by its number, `call {}`",
            &[u64::from(helper.number())],
        ),
        Slip::Stores(mnemonic) => {
            page.text("write `");
            page.text(mnemonic);
            page.text("`, which stores such a value");
        }
        Slip::Other => page.text(advice_of(first, second)),
    }
    page.text("\n");
    true
}

fn put_one_form(page: &mut Page, word: &str, operands: &str) {
    page.text(word);
    page.text(if operands.is_empty() { "" } else { " " });
    page.text(operands);
}

// How a line is written whose mnemonic takes these operands.
fn advice_of(operands: &str, others: &str) -> &'static str {
    match operands {
        "" => "write nothing after the mnemonic",
        "T" => "for T write a label, or a distance with its sign, as +2",
        "N" => {
            "for N write the number of a helper, and for T a label, or a distance with its sign, as +2"
        }
        "rD" => "for rD write r0 to r9",
        "rD, rS" if others.is_empty() => "for rD write r0 to r9, and for rS r0 to r10",
        "rD, N" => "for rD write r0 to r9, and for N a number",
        "rD, [rS+N]" => {
            "for rD write r0 to r9, for rS r0 to r10, and for N a number; in brackets it has its sign, as in [r1+0]"
        }
        _ if operands.ends_with('T') => {
            "for rD and rS write r0 to r10, for N a number, and for T a label, or a distance with its sign, as +2"
        }
        _ if operands.contains('[') => {
            "for rD and rS write r0 to r10, and for N a number; in brackets it has its sign, as in [r1+0]"
        }
        _ => "for rD write r0 to r9, for rS r0 to r10, and for N a number",
    }
}

// What is against the form of a line.
#[derive(Clone, Copy)]
enum Slip {
    WritesR10,
    NamesHelper(Helper),
    /// A store of a register by the mnemonic for a number, or of a number by that for a register: this is the right one.
    Stores(&'static str),
    Other,
}

fn slip_of(word: &str, code: &str) -> Slip {
    let operands = code.trim_start().strip_prefix(word).unwrap_or("");
    let first = first_word(operands);
    if first == "r10" && writes_first(word) {
        return Slip::WritesR10;
    }
    if word == "call" {
        for number in 1..15 {
            if let Some(helper) = Helper::with_number(number) {
                if helper.name() == first {
                    return Slip::NamesHelper(helper);
                }
            }
        }
    }
    match other_store(word) {
        Some(mnemonic) if is_for_other(word, last_operand(operands)) => Slip::Stores(mnemonic),
        _ => Slip::Other,
    }
}

// For a mnemonic that stores a number the one that stores a register, and the other way round.
fn other_store(word: &str) -> Option<&'static str> {
    match word {
        "stb" => Some("stxb"),
        "sth" => Some("stxh"),
        "stw" => Some("stxw"),
        "stdw" => Some("stxdw"),
        "stxb" => Some("stb"),
        "stxh" => Some("sth"),
        "stxw" => Some("stw"),
        "stxdw" => Some("stdw"),
        _ => None,
    }
}

// Whether a value is of the kind that the mnemonic does not store.
fn is_for_other(word: &str, value: &str) -> bool {
    if word.starts_with("stx") {
        value.starts_with(is_of_number)
    } else {
        value.starts_with('r')
    }
}

fn is_of_number(letter: char) -> bool {
    matches!(letter, '0'..='9' | '+' | '-')
}

// What stands after the first comma; a store has one.
fn last_operand(operands: &str) -> &str {
    match operands.split_once(',') {
        Some((_, value)) => value.trim(),
        None => "",
    }
}

/// The first word of a line, without what is no part of it.
pub fn first_word(code: &str) -> &str {
    code.trim().split(is_no_word).next().unwrap_or("")
}

// Whether a mnemonic's first operand is a register that is written.
fn writes_first(word: &str) -> bool {
    !word.starts_with('j') && !word.starts_with("st")
}

// The operands that a mnemonic takes, and others that it takes too.
fn operands_of(word: &str) -> Option<(&'static str, &'static str)> {
    let operands = match word {
        "call" => ("N", "local T"),
        "exit" => ("", ""),
        "ja" | "ja32" => ("T", ""),
        "lddw" => ("rD, N", ""),
        "ldxb" | "ldxh" | "ldxw" | "ldxdw" | "ldxsb" | "ldxsh" | "ldxsw" => ("rD, [rS+N]", ""),
        "stb" | "sth" | "stw" | "stdw" => ("[rD+N], N", ""),
        "stxb" | "stxh" | "stxw" | "stxdw" => ("[rD+N], rS", ""),
        "movsx32_8" | "movsx32_16" | "movsx64_8" | "movsx64_16" | "movsx64_32" => ("rD, rS", ""),
        "neg32"
        | "neg64"
        | "le16"
        | "le32"
        | "le64"
        | "be16"
        | "be32"
        | "be64"
        | "swap16"
        | "swap32"
        | "swap64" => ("rD", ""),
        _ if is_sized_operation(word) => ("rD, rS", "rD, N"),
        _ if is_condition(word) => ("rD, rS, T", "rD, N, T"),
        _ => return None,
    };
    Some(operands)
}

fn is_sized_operation(word: &str) -> bool {
    AluOp::from_name(Width::Bits32, word.as_bytes()).is_some()
        || AluOp::from_name(Width::Bits64, word.as_bytes()).is_some()
}

// Whether a word is the mnemonic of an operation without how many bits it computes with.
fn is_operation(word: &str) -> bool {
    ALU_OPS.iter().any(|op| op.name(Width::Bits64).strip_suffix("64") == Some(word))
}

fn is_condition(word: &str) -> bool {
    Condition::from_name(Width::Bits32, word.as_bytes()).is_some()
        || Condition::from_name(Width::Bits64, word.as_bytes()).is_some()
}
