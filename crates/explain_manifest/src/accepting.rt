// What is known of a manifest's programs that are accepted: the budget's path, the stack, and each helper call with its arguments and
// the freezes held. It relies on `explain_path` for the path, and on `survey` for what is known.

use crate::refusing::{put_mark, read};
use bpf_accepted::Accepted;
use bpf_insn::Program;
use call_shape::shape;
use cli_text_page::Page;
use explain_form::places::source_span;
use explain_layout::{Span, layout};
use explain_path::longest_path;
use explain_program::survey::survey_of;
use manifest::{Manifest, NamedProgram};
use manifest_form::Source;
use std::alloc::{AllocError, Global};
use toml::Value;

/// How many ranges of slots are told of a path at most.
const MOST_RANGES: usize = 256;

/// Puts what is known of each program.
pub fn print(
    alloc: Global,
    text: &str,
    manifest: &Manifest,
    page: &mut Page,
) -> Result<(), AllocError> {
    put_mark(page, text);
    let layout = layout(alloc, text)?;
    let document = match toml::table_from_str(alloc, text) {
        Ok(table) => Value::Table(table),
        Err(_) => return Err(AllocError),
    };
    let Ok(plan) = manifest_form::read(alloc, &document) else {
        return Err(AllocError);
    };
    for (number, named) in manifest.programs.iter().enumerate() {
        if let Some(entry) = plan.programs.get(number) {
            let value = source_span(&layout, number, &entry.source);
            print_named(alloc, text, value, &entry.source, named, page)?;
        }
    }
    Ok(())
}

// Puts what is known of a program whose source stands there.
fn print_named(
    alloc: Global,
    text: &str,
    value: Span,
    source: &Source<'_>,
    named: &NamedProgram,
    page: &mut Page,
) -> Result<(), AllocError> {
    if let Some((program, listing)) = read(alloc, text, value, source)? {
        page.text("\n");
        page.foreign(named.name.as_str());
        page.text(":\n");
        print_budget(alloc, &named.accepted, &program, page)?;
        let limits = named.accepted.limits();
        survey_of(alloc, &program, &listing, limits)?.put(alloc, limits, page)?;
    }
    Ok(())
}

// Puts a path that is as long as the budget, by its slots.
fn print_budget(
    alloc: Global,
    accepted: &Accepted,
    program: &Program,
    page: &mut Page,
) -> Result<(), AllocError> {
    page.fill(
        "  {} instructions at most, by slots ",
        &[u64::from(accepted.budget())],
    );
    let Ok(shape) = shape(program) else {
        return Err(AllocError);
    };
    let path = longest_path(alloc, &shape)?;
    print_ranges(&path, page);
    Ok(())
}

// Puts slots, those that follow one another as a range; of very many ranges the first ones.
fn print_ranges(path: &[usize], page: &mut Page) {
    let mut ranges = 0usize;
    let mut first = 0usize;
    let mut last = 0usize;
    for (place, slot) in path.iter().enumerate() {
        if place > 0 && *slot != last.saturating_add(1) {
            put_range(page, first, last);
            page.text(", ");
            first = *slot;
            ranges = ranges.saturating_add(1);
        }
        if ranges >= MOST_RANGES {
            let left = path.len().saturating_sub(place);
            page.fill(".. and {} more\n", &[left as u64]);
            return;
        }
        last = *slot;
    }
    put_range(page, first, last);
    page.text("\n");
}

fn put_range(page: &mut Page, first: usize, last: usize) {
    page.number(first as u64);
    if last != first {
        page.fill("-{}", &[last as u64]);
    }
}
