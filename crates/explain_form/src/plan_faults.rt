// Faults of a manifest whose keys, types and ranges are lawful, in a report: how many tables there are, and names. It relies on `near` for
// names that are near, and on `explain_layout` for places.

use crate::keys::{LATEST, find};
use crate::near::{nearest_program, put_near};
use crate::places::{end, table_span, value_span};
use cli_text_page::Page;
use explain_layout::{Layout, excerpt, line_at};
use manifest_form::{Plan, has_lawful_numbers};
use std::alloc::{AllocError, Global};

/// The most queues and programs, and the most tables.
const MOST: usize = 64;

const MOST_TABLES: usize = 16;

/// What to do about too many tables.
const FEWER: &str = "leave some of them out, or write several manifests";

/// What to do about a name of a program.
const OTHER_NAME: &str = "give the program another name";

/// Puts what is wrong with a manifest whose keys, types and ranges are lawful: how many tables there are, or a name; and answers how it is
/// mended, if there is more to say of that than the fault's code says.
pub fn print_plan(
    alloc: Global,
    path: &str,
    text: &str,
    layout: &Layout,
    plan: &Plan<'_>,
    page: &mut Page,
) -> Result<Option<&'static str>, AllocError> {
    if has_lawful_numbers(plan) {
        print_names(alloc, path, text, layout, plan, page)
    } else {
        Ok(print_count(path, text, layout, plan, page))
    }
}

// Puts of what there is none, or there are too many, and answers how that is mended.
fn print_count(
    path: &str,
    text: &str,
    layout: &Layout,
    plan: &Plan<'_>,
    page: &mut Page,
) -> Option<&'static str> {
    let counts = [
        ("queue", plan.queues.len(), 1usize, MOST),
        ("program", plan.programs.len(), 1usize, MOST),
        ("table", plan.tables.len(), 0usize, MOST_TABLES),
    ];
    for (name, count, least, most) in counts {
        if count < least || most < count {
            let place = match layout.table(name, most) {
                Some(table) => table_span(layout, table),
                None => end(layout),
            };
            excerpt::print(page, path, text, place);
            page.fill("  = here: there are {} [[", &[count as u64]);
            page.text(name);
            page.fill(
                "]] tables, and {} to {} are allowed\n",
                &[least as u64, most as u64],
            );
            return if count > most {
                Some(FEWER)
            } else {
                find("", name, LATEST).map(|key| key.advice)
            };
        }
    }
    None
}

// Puts which name is not of the form, is there twice, or is of no program, and answers how that is mended, if it is the first or the
// second.
fn print_names(
    alloc: Global,
    path: &str,
    text: &str,
    layout: &Layout,
    plan: &Plan<'_>,
    page: &mut Page,
) -> Result<Option<&'static str>, AllocError> {
    for (number, program) in plan.programs.iter().enumerate() {
        let before = plan
            .programs
            .iter()
            .take(number)
            .position(|other| other.name == program.name);
        if before.is_some() || !is_name(program.name) {
            let place = value_span(layout, "program", number, "name");
            excerpt::print(page, path, text, place);
            match before {
                Some(before) => put_earlier(page, text, layout, before),
                None => page.text(
                    "  = here: a name has 1 to 32 of the characters a to z, 0 to 9, `_` and `-`\n",
                ),
            }
            return Ok(Some(OTHER_NAME));
        }
    }
    for (number, queue) in plan.queues.iter().enumerate() {
        if !plan
            .programs
            .iter()
            .any(|program| program.name == queue.program)
        {
            let place = value_span(layout, "queue", number, "program");
            excerpt::print(page, path, text, place);
            page.text("  = here: no program has this name");
            put_near(page, nearest_program(alloc, plan, queue.program)?);
            return Ok(None);
        }
    }
    Ok(None)
}

// Puts in which line the program of that number has its name.
fn put_earlier(page: &mut Page, text: &str, layout: &Layout, number: usize) {
    let place = value_span(layout, "program", number, "name");
    page.fill(
        "  = here: the program in line {} has this name\n",
        &[line_at(text, place.start).number as u64],
    );
}

fn is_name(name: &str) -> bool {
    (1..=32).contains(&name.len())
        && name.bytes().all(|byte| matches!(byte, b'a'..=b'z' | b'0'..=b'9' | b'_' | b'-'))
}
