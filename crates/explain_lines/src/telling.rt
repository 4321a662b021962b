// The report of one line: the line with a mark, what is against it, the form that was expected, and how it is mended. It relies on
// `explain_layout` for the line, on `forms` and `here` for words, and on `explain_codes` for the rule.

use crate::firsts::Kept;
use crate::forms::{name_of, put_field, put_form, put_last_form, put_words};
use crate::here::Shows;
use crate::lines::{Line, count_returns, without_return};
use crate::numbers::has_digits16;
use crate::slips::{Advice, Field, Found, Slip};
use crate::stops::first_word;
use cli_text_page::Page;
use explain_codes::{Code, put_rule};
use explain_layout::{Span, excerpt};
use trace_lines::{Kind, Word};
use world_calls::Version;

/// Puts what is against a line of a file, by that code. The version is that of the trace, or of the manifest of the scenario.
pub fn put(
    page: &mut Page,
    line: &Line<'_>,
    found: &Found,
    kept: Kept,
    version: Version,
    code: &str,
) {
    put_line(page, line, found.start, found.end);
    page.text("  = here: ");
    put_here(page, line.line, found);
    page.text("\n");
    put_expected(page, line, found, kept, version);
    put_code(page, code);
    put_mending(page, line.line, found);
    if found.slip.is(Slip::Return) {
        put_returns(page, count_returns(line.text) as u64);
    }
}

// Puts how many lines of a file end with a carriage return.
fn put_returns(page: &mut Page, count: u64) {
    page.fill(
        if count == 1 {
            "  = note: {} line of the file ends with a carriage return\n"
        } else {
            "  = note: {} lines of the file end with a carriage return\n"
        },
        &[count],
    );
}

// Puts what is against the part of a line: of a field that is missing, its name.
fn put_here(page: &mut Page, line: &str, found: &Found) {
    match found.field {
        Some(field) if found.slip.is(Slip::Missing) => {
            let word = Word::named(first_word(without_return(line)));
            page.text(name_of(word, field.place));
            page.text(" is missing");
        }
        _ => put_said(page, line, found),
    }
}

// Puts what is against the part of a line, with what stands there if that is said.
fn put_said(page: &mut Page, line: &str, found: &Found) {
    let part = line.get(found.start..found.end).unwrap_or("");
    match found.slip {
        Slip::Near => put_near(page, part, found.advice),
        Slip::OddDigits => page.fill(
            "there are {} digits, and each byte has two",
            &[part.len() as u64],
        ),
        Slip::NotTwoDigits if !has_digits16(part) => put_quoted(page, "", part, " is no byte"),
        Slip::OtherRefusal => {
            put_quoted(page, "", first_word(line), " is never refused with ");
            page.foreign(part);
        }
        Slip::OtherAnswer if is_answer(first_word(part)) => {
            put_quoted(page, "", first_word(line), " is never answered with ");
            put_quoted(page, "", first_word(part), "");
        }
        Slip::SecondVersion if found.start > 0 => {
            page.foreign(part);
            page.text(
                " is an answer in traces of version 2 only, and this trace begins as one of version 1",
            );
        }
        _ => page.text(found.slip.said().here),
    }
}

// Puts that no line begins with a word, and which word is near.
fn put_near(page: &mut Page, word: &str, advice: Advice) {
    put_quoted(page, "no line begins with ", word, "");
    if let Advice::Word(near) = advice {
        put_quoted(page, "; ", near, " is near");
    }
}

// Puts a word between two texts.
fn put_quoted(page: &mut Page, before: &str, word: &str, after: &str) {
    page.text(before);
    page.text("`");
    page.foreign(word);
    page.text("`");
    page.text(after);
}

// Whether a word is one with which answers begin.
fn is_answer(word: &str) -> bool {
    matches!(word, "ccb" | "done" | "run" | "freeze" | "ok")
}

/// Puts a line of a file with a mark under its bytes from one to another.
pub fn put_line(page: &mut Page, line: &Line<'_>, start: usize, end: usize) {
    let span = Span {
        start: line.start.saturating_add(start),
        end: line.start.saturating_add(end),
    };
    excerpt::print(page, line.path, line.text, span);
}

/// Puts what most often is the cause of a refusal by a code.
pub fn put_cause(page: &mut Page, code: &str) {
    if let Some(code) = Code::of(code) {
        page.text("  = most often: ");
        page.text(code.explanation().cause);
        page.text("\n");
    }
}

/// Puts the rule of a code.
pub fn put_code(page: &mut Page, code: &str) {
    if let Some(code) = Code::of(code) {
        put_rule(page, code);
    }
}

// Puts which forms were expected.
fn put_expected(page: &mut Page, of: &Line<'_>, found: &Found, kept: Kept, version: Version) {
    let line = of.line;
    let name = match found.advice {
        Advice::Word(word) => word,
        _ => first_word(without_return(line)),
    };
    match found.slip.said().shows {
        Shows::Nothing => {}
        Shows::Words => put_words(page, kept),
        Shows::Form => {
            put_form_of(page, name, found.field, kept, version);
        }
        Shows::FormOrWords => {
            if !put_form_of(page, name, found.field, kept, version) {
                put_words(page, kept);
            }
        }
    }
}

// Puts the form of a line that begins with that name, and what a field of it may be; answers whether there is such a line.
fn put_form_of(
    page: &mut Page,
    name: &str,
    field: Option<Field>,
    kept: Kept,
    version: Version,
) -> bool {
    let word = Word::named(name);
    if let Some(word) = word {
        put_form(page, word, kept, version);
    } else if name == "end" && kept == Kept::Trace {
        put_last_form(page);
    } else if name == "drain" && kept == Kept::Scenario {
        page.text("  = form: drain\n");
    } else {
        return false;
    }
    if let Some(field) = field {
        put_field(page, word, field);
    }
    true
}

// How a slip is mended if no more is known of it.
fn usual_mending(found: &Found) -> &'static str {
    if found.slip.is(Slip::Missing) && is_of_sense(found.field) {
        "write ` -` if there are no sense bytes"
    } else {
        found.slip.said().mending
    }
}

fn is_of_sense(field: Option<Field>) -> bool {
    match field {
        Some(field) => matches!(field.kind, Kind::Sense),
        None => false,
    }
}

// Puts how a slip is mended, if that is known.
fn put_mending(page: &mut Page, line: &str, found: &Found) {
    match found.advice {
        Advice::Usual => put_advice(page, usual_mending(found), ""),
        Advice::Word(word) => put_advice(page, "write ", word),
        Advice::Byte(byte) => {
            page.text("  = to mend it: write `");
            page.byte(byte);
            page.text("`\n");
        }
        Advice::Number(number) => page.fill("  = to mend it: write `{}`\n", &[number]),
        Advice::From(start) => {
            let from = found.start.saturating_add(start);
            let rest = without_return(line).get(from..).unwrap_or("");
            put_advice(page, "write ", first_word(rest));
        }
    }
}

// Puts an advice, if there is one, with what is to be written, if that is known.
fn put_advice(page: &mut Page, advice: &str, written: &str) {
    if advice.is_empty() {
        return;
    }
    page.text("  = to mend it: ");
    page.text(advice);
    if !written.is_empty() {
        page.text("`");
        page.foreign(written);
        page.text("`");
    }
    page.text("\n");
}
