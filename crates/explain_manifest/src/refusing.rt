// Why a manifest is refused, in a report. It relies on `form` and `plan_faults` for faults of what stands around the
// programs, and on `program` for those of programs.

use base::OrMemory;
use bpf_asm::{AsmFault, LineFault, assemble};
use bpf_decode::{DecodeFault, InsnFault, decode};
use bpf_insn::Program;
use cli_text_page::Page;
use explain_codes::{code_in, put_mending, put_rule};
use explain_form::places::source_span;
use explain_form::{form, plan_faults, toml_fault};
use explain_layout::excerpt::put_foreign;
use explain_layout::{Layout, Span, excerpt, layout, nth_line, without_mark};
use explain_program::listing::{
    Listing, base_of, hexadecimal, of_bytes, of_text, pairs_of, slots_in,
};
use explain_program::notes::notes_of;
use explain_program::program;
use explain_program::program::Told;
use explain_source::{asm_line, fields};
use helpers::{HelperLimits, HelperSet, TableLengths};
use manifest::ManifestFault;
use manifest_form::{Plan, ProgramEntry, Source};
use std::alloc::{AllocError, Global};
use std::fmt;
use std::fmt::Display;
use toml::Value;
use world_calls::Version;

/// How many programs are told of in full, of those that are refused.
const MOST_WHOLE: usize = 8;

/// Puts what there is to say of a manifest, a path and its text, that has that fault.
pub fn print(
    alloc: Global,
    path: &str,
    text: &str,
    fault: &ManifestFault,
    page: &mut Page,
) -> Result<(), AllocError> {
    put_mark(page, text);
    let layout = layout(alloc, text)?;
    match toml::table_from_str(alloc, text) {
        Ok(table) => print_document(
            alloc,
            path,
            text,
            &layout,
            &Value::Table(table),
            fault,
            page,
        ),
        Err(error) => toml_fault::print(path, text, &layout, &error, page),
    }
}

/// Puts that a byte order mark stands before a text, if one does.
pub fn put_mark(page: &mut Page, text: &str) {
    if without_mark(text).len() < text.len() {
        page.text("  = note: a byte order mark stands before the text, and is passed over\n");
    }
}

// Puts what the code of a fault means; and then what most often is the cause, unless more is known.
fn put_rule_of<T: Display>(
    alloc: Global,
    page: &mut Page,
    fault: &T,
    more_is_known: bool,
) -> Result<(), AllocError> {
    let text = format!(in alloc; "{fault}")?;
    if let Some(code) = code_in(text.as_str()) {
        put_rule(page, code);
        if !more_is_known {
            put_mending(page, code);
        }
    }
    Ok(())
}

// Puts what most often is the cause of a fault.
fn put_mending_of<T: Display>(alloc: Global, page: &mut Page, fault: &T) -> Result<(), AllocError> {
    let text = format!(in alloc; "{fault}")?;
    if let Some(code) = code_in(text.as_str()) {
        put_mending(page, code);
    }
    Ok(())
}

// The same of a text that is TOML.
fn print_document(
    alloc: Global,
    path: &str,
    text: &str,
    layout: &Layout,
    document: &Value,
    fault: &ManifestFault,
    page: &mut Page,
) -> Result<(), AllocError> {
    match manifest_form::read(alloc, document) {
        Ok(plan) => print_plan(alloc, path, text, layout, &plan, fault, page),
        Err(OrMemory::OutOfMemory) => Err(AllocError),
        Err(OrMemory::Fault(_)) => {
            let advice = form::print(alloc, path, text, layout, document, fault, page)?;
            put_advice(alloc, page, fault, advice)
        }
    }
}

// Puts what the code of a manifest's fault means, and how the fault is mended: so, or as the code says.
fn put_advice(
    alloc: Global,
    page: &mut Page,
    fault: &ManifestFault,
    advice: Option<&'static str>,
) -> Result<(), AllocError> {
    put_rule_of(alloc, page, fault, advice.is_some())?;
    if let Some(advice) = advice {
        page.text("  = to mend it: ");
        page.text(advice);
        page.text("\n");
    }
    Ok(())
}

// The same of one whose keys, forms and ranges are lawful.
fn print_plan(
    alloc: Global,
    path: &str,
    text: &str,
    layout: &Layout,
    plan: &Plan<'_>,
    fault: &ManifestFault,
    page: &mut Page,
) -> Result<(), AllocError> {
    match fault {
        ManifestFault::Undecoded(name, _)
        | ManifestFault::Unassembled(name, _)
        | ManifestFault::Unaccepted(name, _) => {
            print_programs(alloc, path, text, layout, plan, name.as_str(), page)
        }
        _ => {
            let advice = plan_faults::print_plan(alloc, path, text, layout, plan, page)?;
            put_advice(alloc, page, fault, advice)
        }
    }
}

// Puts why programs are refused: first that of the manifest's fault, and then all others that are.
fn print_programs(
    alloc: Global,
    path: &str,
    text: &str,
    layout: &Layout,
    plan: &Plan<'_>,
    first: &str,
    page: &mut Page,
) -> Result<(), AllocError> {
    let limits = limits_of(alloc, plan)?;
    let mut told = 0usize;
    for is_first in [true, false] {
        for (number, entry) in plan.programs.iter().enumerate() {
            if (entry.name == first) == is_first {
                let source = Stands {
                    path,
                    text,
                    value: source_span(layout, number, &entry.source),
                };
                let shown = Shown {
                    is_first,
                    is_whole: told < MOST_WHOLE,
                };
                if print_program(alloc, source, &limits, entry, shown, page)? {
                    told = told.saturating_add(1);
                }
            }
        }
    }
    Ok(())
}

// A manifest's path, its text, and where a program's text or bytes stand in it.
#[derive(Clone, Copy)]
struct Stands<'a> {
    path: &'a str,
    text: &'a str,
    value: Span,
}

// Whether a program's fault is the manifest's, which stands above the report already, and whether the fault is told of in full.
#[derive(Clone, Copy)]
struct Shown {
    is_first: bool,
    is_whole: bool,
}

// Puts the fault of a program, if it has one, and answers whether it has.
fn print_program(
    alloc: Global,
    stands: Stands<'_>,
    limits: &HelperLimits,
    entry: &ProgramEntry<'_>,
    shown: Shown,
    page: &mut Page,
) -> Result<bool, AllocError> {
    let program = match program_of(alloc, &entry.source)? {
        Ok(program) => program,
        Err(fault) => {
            put_fault(page, "M7", entry.name, shown, &fault);
            if shown.is_whole {
                print_unread(alloc, stands, entry, fault, page)?;
            }
            return Ok(true);
        }
    };
    let (notes, refusal) = notes_of(alloc, &program, limits)?;
    let Some(refusal) = refusal else {
        return Ok(false);
    };
    put_fault(page, "M8", entry.name, shown, &refusal);
    if shown.is_whole {
        let listing = listing_of(alloc, stands.text, stands.value, &entry.source, &program)?;
        let told = Told {
            path: stands.path,
            text: stands.text,
            value: stands.value,
            program: &program,
            listing: &listing,
            notes: &notes,
            limits,
        };
        program::print(alloc, page, &told, refusal)?;
    }
    Ok(true)
}

// Puts the fault of a program that is not the manifest's.
fn put_fault<T: Display>(page: &mut Page, code: &str, name: &str, shown: Shown, fault: &T) {
    if shown.is_first {
        return;
    }
    page.text("\nrefused too: ");
    page.text(code);
    page.text(" ");
    page.foreign(name);
    page.text(" ");
    page.shown(fault);
    page.text("\n");
}

// Why a program's text or bytes are none.
#[derive(Clone, Copy)]
enum Unread {
    Text(AsmFault),
    Bytes(DecodeFault),
}

impl Display for Unread {
    fn fmt<W: fmt::Write>(&self, f: &mut fmt::Formatter<W>) -> fmt::Result {
        match self {
            Unread::Text(fault) => write!(f, "{fault}"),
            Unread::Bytes(fault) => write!(f, "{fault}"),
        }
    }
}

// The program that a text or bytes are, or why they are none.
fn program_of(alloc: Global, source: &Source<'_>) -> Result<Result<Program, Unread>, AllocError> {
    match source {
        Source::Asm(asm) => match assemble(alloc, asm) {
            Ok(program) => Ok(Ok(program)),
            Err(OrMemory::OutOfMemory) => Err(AllocError),
            Err(OrMemory::Fault(fault)) => Ok(Err(Unread::Text(fault))),
        },
        Source::Code(bytes) => match decode(alloc, bytes) {
            Ok(program) => Ok(Ok(program)),
            Err(OrMemory::OutOfMemory) => Err(AllocError),
            Err(OrMemory::Fault(fault)) => Ok(Err(Unread::Bytes(fault))),
        },
    }
}

// How a program's instructions are written.
fn listing_of(
    alloc: Global,
    text: &str,
    value: Span,
    source: &Source<'_>,
    program: &Program,
) -> Result<Listing, AllocError> {
    match source {
        Source::Asm(asm) => of_text(alloc, text, value, asm),
        Source::Code(bytes) => of_bytes(alloc, text, value, program, bytes),
    }
}

// Puts why a program's text or bytes are none.
fn print_unread(
    alloc: Global,
    stands: Stands<'_>,
    entry: &ProgramEntry<'_>,
    fault: Unread,
    page: &mut Page,
) -> Result<(), AllocError> {
    match (fault, &entry.source) {
        (Unread::Bytes(fault), Source::Code(bytes)) => {
            print_undecoded(alloc, stands, bytes, fault, page)
        }
        (Unread::Text(fault), Source::Asm(asm)) => {
            print_unassembled(alloc, stands, asm, fault, page)
        }
        _ => Ok(()),
    }
}

// Puts why bytes are no program.
fn print_undecoded(
    alloc: Global,
    stands: Stands<'_>,
    bytes: &[u8],
    fault: DecodeFault,
    page: &mut Page,
) -> Result<(), AllocError> {
    let Stands { path, text, value } = stands;
    let DecodeFault::At { slot, fault: insn } = fault else {
        excerpt::print(page, path, text, value);
        page.fill(
            if bytes.len() == 1 {
                "  = here: {} byte\n"
            } else {
                "  = here: {} bytes\n"
            },
            &[bytes.len() as u64],
        );
        return put_rule_of(alloc, page, &fault, false);
    };
    let shown = fields::faulty_slot(insn, bytes, slot);
    excerpt::print(page, path, text, pairs_of(alloc, text, value, shown)?);
    let pairs = hexadecimal(alloc, bytes, slot)?;
    page.fill("  = slot {}: ", &[slot as u64]);
    page.text(pairs.as_str());
    page.text("\n");
    fields::put_fields(page, bytes, slot);
    let more_is_known = fields::is_known(insn);
    put_rule_of(alloc, page, &fault, more_is_known)?;
    fields::put_fault(page, insn, bytes, slot);
    Ok(())
}

// Puts why a text is no program.
fn print_unassembled(
    alloc: Global,
    stands: Stands<'_>,
    asm: &str,
    fault: AsmFault,
    page: &mut Page,
) -> Result<(), AllocError> {
    match fault {
        AsmFault::At {
            line,
            fault: of_line,
        } => {
            print_line(stands, asm, line, of_line, page);
            put_rule_of(alloc, page, &fault, true)?;
            if !asm_line::put_fault(alloc, page, of_line, asm, line)? {
                put_mending_of(alloc, page, &fault)?;
            }
            Ok(())
        }
        AsmFault::NoProgram => {
            excerpt::print(page, stands.path, stands.text, stands.value);
            let slots = slots_in(alloc, asm)?;
            page.fill("  = here: there are {} slots\n", &[slots as u64]);
            put_rule_of(alloc, page, &fault, false)
        }
    }
}

// Puts the line of that number of an assembler text, with a mark under what is no token, or under all of it.
fn print_line(stands: Stands<'_>, asm: &str, line: usize, fault: LineFault, page: &mut Page) {
    let Stands { path, text, value } = stands;
    let whole = line_part(asm, line);
    let part = match asm_line::faulty_part(fault, nth_line(asm, line.saturating_sub(1))) {
        Some(part) => shifted(part, line_start(asm, line)),
        None => whole,
    };
    let place = match base_of(text, value, asm) {
        Some(base) => shifted(part, base),
        None => value,
    };
    excerpt::print(page, path, text, place);
    page.fill("  = line {} of the program: ", &[line as u64]);
    put_foreign(page, asm.get(whole.start..whole.end).unwrap_or(""));
    page.text("\n");
}

// A part so many bytes later.
fn shifted(part: Span, by: usize) -> Span {
    Span {
        start: by.saturating_add(part.start),
        end: by.saturating_add(part.end),
    }
}

// The byte at which the line of that number, from 1, begins in a text.
fn line_start(text: &str, number: usize) -> usize {
    let mut start = 0usize;
    for line in text.split('\n').take(number.saturating_sub(1)) {
        start = start.saturating_add(line.len()).saturating_add(1);
    }
    start
}

// Where the line of that number, from 1, stands in a text, without blanks around it.
fn line_part(text: &str, number: usize) -> Span {
    let line = nth_line(text, number.saturating_sub(1));
    let blanks = line.len().saturating_sub(line.trim_start().len());
    let start = line_start(text, number).saturating_add(blanks);
    Span {
        start,
        end: start.saturating_add(line.trim().len()),
    }
}

/// A program as it is written, with how its instructions stand there.
pub fn read(
    alloc: Global,
    text: &str,
    value: Span,
    source: &Source<'_>,
) -> Result<Option<(Program, Listing)>, AllocError> {
    match program_of(alloc, source)? {
        Ok(program) => {
            let listing = listing_of(alloc, text, value, source, &program)?;
            Ok(Some((program, listing)))
        }
        Err(_) => Ok(None),
    }
}

// The limits under which the programs of a plan are judged.
fn limits_of(alloc: Global, plan: &Plan<'_>) -> Result<HelperLimits, AllocError> {
    let helpers = match plan.version {
        Version::One => HelperSet::Queues,
        Version::Two => HelperSet::Controllers,
        Version::Three => HelperSet::Classes,
    };
    let mut lengths = Vec::new(alloc);
    for table in &plan.tables {
        lengths.push(table.length)?;
    }
    Ok(HelperLimits {
        helpers,
        queues: u32::try_from(plan.queues.len()).unwrap_or(u32::MAX),
        table_lengths: TableLengths::new(lengths),
    })
}
