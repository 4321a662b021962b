// A number in a line of a program's text that is out of its range. It relies on nothing.

use crate::asm_commas::commas_in;
use crate::asm_line::{first_word, is_no_word};
use cli_text_page::Page;
use explain_layout::excerpt::put_foreign;

/// What a number in a line says, and its range.
#[derive(Clone, Copy)]
struct Place {
    name: &'static str,
    // how far below 0 the least number is, and the greatest
    below: u64,
    most: u64,
}

/// A constant of 32 bits, a distance or an offset of 16, a distance of 32, and a constant of 64.
const CONSTANT: Place = Place {
    name: "N",
    below: 0x8000_0000,
    most: 0x7fff_ffff,
};

const OFFSET: Place = Place {
    name: "N in brackets",
    below: 0x8000,
    most: 0x7fff,
};

const DISTANCE: Place = Place {
    name: "T",
    below: 0x8000,
    most: 0x7fff,
};

const FAR: Place = Place {
    name: "T",
    below: 0x8000_0000,
    most: 0x7fff_ffff,
};

const WIDE: Place = Place {
    name: "N",
    below: 1 << 63,
    most: u64::MAX,
};

/// Puts the first number of a line that is out of its range, and how the line is mended; and answers whether there is one. The operands
/// are those that the line's mnemonic takes.
pub fn put_number(page: &mut Page, code: &str, operands: &str) -> bool {
    let mut start = 0usize;
    for word in code.split(is_no_word) {
        let before = code.get(..start).unwrap_or("");
        if word.starts_with(is_digit) {
            let place = place_of(code, before, operands);
            let is_negative = before.trim_end().ends_with('-');
            if !is_within(place, is_negative, word) {
                put_range(page, place, is_negative, word);
                put_advice(page, code, place, is_negative, word);
                return true;
            }
        }
        start = start.saturating_add(word.len()).saturating_add(1);
    }
    false
}

// What a number in a line says before which that stands.
fn place_of(code: &str, before: &str, operands: &str) -> Place {
    let mnemonic = first_word(code);
    let is_last = commas_in(before) == commas_in(operands);
    if before.contains('[') && !before.contains(']') {
        OFFSET
    } else if mnemonic == "lddw" {
        WIDE
    } else if mnemonic == "ja32" || before.contains("local") {
        FAR
    } else if operands.ends_with('T') && is_last {
        DISTANCE
    } else {
        CONSTANT
    }
}

fn is_digit(letter: char) -> bool {
    letter.is_ascii_digit()
}

// Whether a number is in a range.
fn is_within(place: Place, is_negative: bool, word: &str) -> bool {
    match value_of(word) {
        Some(value) if is_negative => value <= place.below,
        Some(value) => value <= place.most,
        None => false,
    }
}

// What a word counts, if that has at most 64 bits.
fn value_of(word: &str) -> Option<u64> {
    let value = match word.strip_prefix("0x") {
        Some(digits) => u64::from_str_radix(digits, 16),
        None => word.parse::<u64>(),
    };
    value.ok()
}

fn put_range(page: &mut Page, place: Place, is_negative: bool, word: &str) {
    page.text("  = here: ");
    page.text(if is_negative { "-" } else { "" });
    put_foreign(page, word);
    page.text(" is out of its range: ");
    page.text(place.name);
    page.fill(" is -{} to {}\n", &[place.below, place.most]);
}

fn put_advice(page: &mut Page, code: &str, place: Place, is_negative: bool, word: &str) {
    let is_of_constant = place.most == CONSTANT.most && place.name == CONSTANT.name;
    let is_wide = is_of_constant && is_within(WIDE, is_negative, word);
    page.text("  = to mend it: ");
    if is_wide && first_word(code) == "mov64" {
        page.text("write `lddw");
        put_foreign(page, code.trim().strip_prefix("mov64").unwrap_or(""));
        page.text("`\n");
    } else if is_wide {
        page.text("put the number into a register by `lddw`, and write that register\n");
    } else {
        page.text("write a number within the range\n");
    }
}
