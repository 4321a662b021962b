// A program's instructions as they are written: lines of an assembler text, or bytes with their disassembly. It relies on `bpf_asm` for
// tokens and for the disassembly, and on `sources` for lines of a source.

use crate::sources::Sources;
use base::OrMemory;
use bpf_asm::{disassemble, tokens};
use bpf_insn::Program;
use cli_text_page::Page;
use explain_layout::{Span, line_at};
use std::alloc::{AllocError, Global};

/// How many bytes a slot has, and how many digits these are.
const SLOT_BYTES: usize = 8;

const SLOT_DIGITS: usize = 16;

/// How wide most instructions are as text, and the pairs of a slot with the blanks after them.
const TEXT: usize = 24;

const PAIRS: usize = 25;

/// Where something stands in the manifest's text.
#[derive(Clone, Copy, Debug)]
pub struct Standing {
    pub part: Span,
    /// The line in which it begins, from 1.
    pub line: usize,
}

/// An instruction as it is written.
#[derive(Drop)]
pub struct Written {
    /// The slot in which it begins.
    pub slot: usize,
    pub standing: Standing,
    pub text: String,
    /// The place in a source of which it was made, or nothing.
    pub source: String,
}

/// A program's instructions, in the order of their slots.
#[derive(Drop)]
pub struct Listing {
    insns: Vec<Written>,
    /// How wide most instructions are written, in characters.
    pub width: usize,
}

impl Listing {
    /// The instruction that begins in that slot.
    pub fn at(&self, slot: usize) -> Option<&Written> {
        let behind = self.insns.partition_point(|insn| insn.slot < slot);
        match self.insns.get(behind) {
            Some(insn) if insn.slot == slot => Some(insn),
            _ => None,
        }
    }
}

/// Puts the place in a source of which an instruction was made, if that is known, after what is to stand before it.
pub fn put_source(page: &mut Page, before: &str, written: &Written) {
    if !written.source.is_empty() {
        page.text(before);
        page.foreign(written.source.as_str());
    }
}

// A text that is listed line by line.
#[derive(Drop)]
struct Lines<'a> {
    asm: &'a str,
    // where it begins in the manifest's text, if it stands there as it is, and in which line
    base: Option<usize>,
    value: Standing,
    // how many of its bytes were passed, and how many line feeds these had
    passed: usize,
    feeds: usize,
    slot: usize,
    insns: Vec<Written>,
}

/// The lines of an assembler text that have instructions. It stands in the manifest's text as this value.
pub fn of_text(
    alloc: Global,
    manifest: &str,
    value: Span,
    asm: &str,
) -> Result<Listing, AllocError> {
    let base = base_of(manifest, value, asm);
    let mut lines = Lines {
        asm,
        base,
        value: Standing {
            part: value,
            line: line_at(manifest, base.unwrap_or(value.start)).number,
        },
        passed: 0,
        feeds: 0,
        slot: 0,
        insns: Vec::new(alloc),
    };
    let tokens = match tokens(alloc, asm) {
        Ok(tokens) => tokens,
        Err(OrMemory::OutOfMemory) => return Err(AllocError),
        Err(OrMemory::Fault(_)) => Vec::new(alloc),
    };
    let mut line = Span { start: 0, end: 0 };
    for token in &tokens {
        if begins_line(asm, line.end, token.start) {
            lines.keep(alloc, line)?;
            line.start = token.start;
        }
        line.end = token.end;
    }
    lines.keep(alloc, line)?;
    Ok(Listing {
        insns: lines.insns,
        width: TEXT,
    })
}

/// How many slots the instructions of an assembler text take.
pub fn slots_in(alloc: Global, asm: &str) -> Result<usize, AllocError> {
    let listing = of_text(alloc, "", Span { start: 0, end: 0 }, asm)?;
    Ok(match listing.insns.as_slice().last() {
        Some(insn) => insn.slot.saturating_add(slots_of(insn.text.as_str())),
        None => 0,
    })
}

/// Where an assembler text begins in the manifest's text, if it stands there as it is.
pub fn base_of(manifest: &str, value: Span, asm: &str) -> Option<usize> {
    let written = manifest.get(value.start..value.end)?;
    let at = written.find(asm)?;
    Some(value.start.saturating_add(at))
}

// Whether a line feed stands between the token before and this one.
fn begins_line(asm: &str, from: usize, to: usize) -> bool {
    match asm.as_bytes().get(from..to) {
        Some(between) => between.contains(&b'\n') || from == 0,
        None => true,
    }
}

impl<'a> Lines<'a> {
    // Keeps a line that has an instruction.
    fn keep(&mut self, alloc: Global, line: Span) -> Result<(), AllocError> {
        let text = match self.asm.get(line.start..line.end) {
            Some(text) => text,
            None => "",
        };
        if text.is_empty() || text.ends_with(':') {
            return Ok(());
        }
        let standing = self.standing(line);
        let slot = self.slot;
        self.insns.push(Written {
            slot,
            standing,
            text: String::from_str(alloc, text)?,
            source: String::new(alloc),
        })?;
        self.slot = slot.saturating_add(slots_of(text));
        Ok(())
    }

    // Where a part of the text stands in the manifest's; the parts come in their order.
    fn standing(&mut self, part: Span) -> Standing {
        let Some(base) = self.base else {
            return self.value;
        };
        if let Some(between) = self.asm.as_bytes().get(self.passed..part.start) {
            let feeds = between.iter().filter(|byte| **byte == b'\n').count();
            self.feeds = self.feeds.saturating_add(feeds);
            self.passed = part.start;
        }
        Standing {
            part: Span {
                start: base.saturating_add(part.start),
                end: base.saturating_add(part.end),
            },
            line: self.value.line.saturating_add(self.feeds),
        }
    }
}

// How many slots an instruction takes that is written so.
fn slots_of(text: &str) -> usize {
    if text.starts_with("lddw") { 2 } else { 1 }
}

/// A program's disassembly, with the bytes of each first slot. They stand in the manifest's text as this value.
pub fn of_bytes(
    alloc: Global,
    manifest: &str,
    value: Span,
    program: &Program,
    bytes: &[u8],
) -> Result<Listing, AllocError> {
    let text = disassemble(alloc, program)?;
    let mut lines = text.as_str().split('\n');
    let standings = standings(alloc, manifest, value)?;
    let elsewhere = whole(manifest, value);
    let sources = Sources::of(alloc, manifest, value)?;
    let mut insns = Vec::new(alloc);
    for slot in 0..program.len() {
        if program.fetch(slot).is_none() {
            continue;
        }
        let Some(line) = lines.next() else {
            break;
        };
        let mut text = hexadecimal(alloc, bytes, slot)?;
        text.push_str("  ")?;
        text.push_str(line)?;
        let standing = match standings.get(slot) {
            Some(standing) => *standing,
            None => elsewhere,
        };
        insns.push(Written {
            slot,
            standing,
            text,
            source: String::from_str(alloc, sources.at(slot))?,
        })?;
    }
    Ok(Listing {
        insns,
        width: PAIRS + TEXT,
    })
}

// A value as a whole.
fn whole(manifest: &str, value: Span) -> Standing {
    Standing {
        part: value,
        line: line_at(manifest, value.start).number,
    }
}

// Where the pairs of each slot stand that a value has, up to the last whole one.
fn standings(alloc: Global, manifest: &str, value: Span) -> Result<Vec<Standing>, AllocError> {
    let mut standings = Vec::new(alloc);
    let Some(written) = manifest.as_bytes().get(value.start..value.end) else {
        return Ok(standings);
    };
    let mut line = line_at(manifest, value.start).number;
    let mut first = whole(manifest, value);
    let mut digits = 0usize;
    for (place, byte) in written.iter().enumerate() {
        if *byte == b'\n' {
            line = line.saturating_add(1);
        }
        if byte.is_ascii_hexdigit() {
            let start = value.start.saturating_add(place);
            if digits == 0 {
                first.part.start = start;
                first.line = line;
            }
            digits = digits.saturating_add(1);
            if digits == SLOT_DIGITS {
                first.part.end = start.saturating_add(1);
                standings.push(first)?;
                digits = 0;
            }
        }
    }
    Ok(standings)
}

/// Where the pairs of a slot stand in the manifest's text, whose value they are all; the whole value where they do not.
pub fn pairs_of(
    alloc: Global,
    manifest: &str,
    value: Span,
    slot: usize,
) -> Result<Span, AllocError> {
    Ok(match standings(alloc, manifest, value)?.get(slot) {
        Some(standing) => standing.part,
        None => value,
    })
}

/// The bytes of a slot, as pairs of digits.
pub fn hexadecimal(alloc: Global, bytes: &[u8], slot: usize) -> Result<String, AllocError> {
    let mut page = Page::new(alloc);
    let first = slot.saturating_mul(SLOT_BYTES);
    for (place, byte) in bytes.iter().skip(first).take(SLOT_BYTES).enumerate() {
        page.text(if place > 0 { " " } else { "" });
        page.byte(*byte);
    }
    page.finish()
}
