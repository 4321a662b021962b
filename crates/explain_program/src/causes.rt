// Which rule of the verifier an instruction breaks, with the values that break it. It relies on `kinds` and `world_calls` for words, and on
// `check_register_kinds` for the cause.

use crate::arguments::{helper_of, put_breach};
use crate::compute::is_comparison;
use crate::kinds::{Around, put_held, put_kind, put_place, put_registers};
use crate::program::Told;
use crate::{arguments, compute, unwritten};
use bpf_insn::{Callee, Insn, LoadForm, Operand, Reg, StoreSize};
use check_register_kinds::{Cause, Certainty, Held, Kind, Region};
use cli_text_page::Page;
use explain_path::{Open, Path, Registers, Sketch};
use helpers::{Helper, HelperSet};

/// How many bytes a frame has.
const FRAME_BYTES: u16 = 512;

/// How many ranges of unwritten bytes are named at most.
const MOST_GAPS: u32 = 8;

/// Puts what breaks the rule, where that is known before the instruction.
pub fn put_values(
    page: &mut Page,
    told: &Told<'_>,
    cause: Cause,
    path: Option<&Path>,
    insn: Insn,
    known: &Sketch,
) {
    match cause {
        Cause::UnwrittenRegister => unwritten::put_unwritten(page, told, path, insn, known),
        Cause::UnwrittenByte => put_bytes(page, told, insn, known),
        Cause::AccessOutside | Cause::StoreToContext | Cause::AddressStored => {
            put_access(page, told, insn, known)
        }
        Cause::AddressAsNumber => {
            put_registers(page, told.log(), known, Registers::read_by(insn));
            if is_comparison(insn) && compute::freeze_in(insn, known).is_none() {
                page.text(", and an address is never compared");
            }
        }
        Cause::UnknownHelper => put_number(page, told, insn),
        Cause::ArgumentAgainstRule => put_arguments(page, told, insn, known),
        Cause::FreezeHeld | Cause::TooManyFreezes => put_held(page, told.log(), &known.held),
        Cause::NotDisposed => page.text(
            "on the way here neither helper 4 (requeue) nor helper 5 (finish) was called",
        ),
        Cause::DisposedTwice => page.text(
            "on the way here helper 4 (requeue) or helper 5 (finish) was called already",
        ),
        Cause::PathsDisagree => {}
        Cause::NoResult => put_registers(page, told.log(), known, Registers::only(Reg::R0)),
    }
}

// Puts which bytes are read and may be unwritten.
fn put_bytes(page: &mut Page, told: &Told<'_>, insn: Insn, known: &Sketch) {
    match insn {
        Insn::Load {
            form,
            src,
            offset,
            ..
        } => put_unwritten_bytes(page, known, known.kind(src), offset, load_bytes(form)),
        _ => match traced_bytes(known) {
            Some(traced) => put_traced(page, told, known, traced),
            None => put_arguments(page, told, insn, known),
        },
    }
}

// Puts which of so many bytes from an address on may be unwritten.
fn put_unwritten_bytes(page: &mut Page, known: &Sketch, base: Kind, offset: i16, count: u16) {
    let Kind::Address(Region::Frame(frame), offsets) = base else {
        return;
    };
    let first = moved(offsets.least, offset);
    let end = moved(offsets.most, offset).saturating_add(count);
    page.text("unwritten on some path here: ");
    put_gaps(page, known, frame, first, end.min(FRAME_BYTES));
}

// Puts the ranges of bytes of a frame that may be unwritten, from one byte up to another, of very many the first ones.
fn put_gaps(page: &mut Page, known: &Sketch, frame: u8, first: u16, end: u16) {
    let mut told = 0u32;
    let mut start = first;
    for byte in first..end {
        if is_written(known, frame, byte) {
            start = byte.saturating_add(1);
        } else if told < MOST_GAPS && is_last_of_gap(known, frame, byte, end) {
            page.text(if told > 0 { ", " } else { "" });
            put_place(page, start);
            page.text(if start < byte { " to " } else { "" });
            if start < byte {
                put_place(page, byte);
            }
            told = told.saturating_add(1);
        }
    }
}

// Whether the byte after an unwritten one is written, or the last one that is looked at is this.
fn is_last_of_gap(known: &Sketch, frame: u8, byte: u16, end: u16) -> bool {
    let next = byte.saturating_add(1);
    next >= end || is_written(known, frame, next)
}

// An offset in a frame, moved.
fn moved(offset: u16, by: i16) -> u16 {
    offset.saturating_add_signed(by)
}

// Whether a byte of a frame is known to be written.
fn is_written(known: &Sketch, frame: u8, offset: u16) -> bool {
    let (frame, offset) = (usize::from(frame), usize::from(offset));
    frame < known.stack.depth() && offset < 512 && known.stack.is_written(frame, offset, offset, 1)
}

// Puts through what an instruction reads or writes memory, and how many bytes.
fn put_access(page: &mut Page, told: &Told<'_>, insn: Insn, known: &Sketch) {
    match insn {
        Insn::Load {
            form,
            src,
            offset,
            ..
        } => {
            put_bytes_at(page, "read", load_bytes(form), src, offset);
            put_base(page, told, known, src, "; the context ends at context+95")
        }
        Insn::Store {
            size,
            dst,
            src,
            offset,
        } => {
            put_bytes_at(page, "written", store_bytes(size), dst, offset);
            put_base(page, told, known, dst, "; the context is only read");
            put_stored(page, told, known, src)
        }
        Insn::Call(_) => put_arguments(page, told, insn, known),
        _ => put_registers(page, told.log(), known, Registers::read_by(insn)),
    }
}

fn put_bytes_at(page: &mut Page, what: &str, count: u16, base: Reg, offset: i16) {
    page.fill(
        if count == 1 {
            "{} byte is "
        } else {
            "{} bytes are "
        },
        &[u64::from(count)],
    );
    page.text(what);
    page.fill(" at r{}", &[u64::from(base.number())]);
    page.text(if offset > 0 { "+" } else { "" });
    if offset != 0 {
        page.signed(i64::from(offset));
    }
    page.text("; ");
}

// Puts what is known of the register of an address, and what is required of an address in the context.
fn put_base(page: &mut Page, told: &Told<'_>, known: &Sketch, reg: Reg, of_context: &str) {
    put_registers(page, told.log(), known, Registers::only(reg));
    match known.kind(reg) {
        Kind::Address(Region::Context, _) => page.text(of_context),
        Kind::Address(Region::Frame(_), _) => page.text("; the frame is r10-512 to r10-1"),
        _ => page.text(", which is no address"),
    }
}

fn put_stored(page: &mut Page, told: &Told<'_>, known: &Sketch, src: Operand) {
    let Operand::Register(reg) = src else {
        return;
    };
    page.fill("; r{} = ", &[u64::from(reg.number())]);
    put_kind(page, told.log(), &Around::of(known), known.kind(reg));
}

// Puts the number of a helper that there is not.
fn put_number(page: &mut Page, told: &Told<'_>, insn: Insn) {
    if let Insn::Call(Callee::Helper(number)) = insn {
        page.text("helper ");
        page.signed(i64::from(number));
        page.fill(
            " is called; this manifest's programs have helpers 1 to {}",
            &[u64::from(told.limits.helpers.count())],
        );
    }
}

fn put_arguments(page: &mut Page, told: &Told<'_>, insn: Insn, known: &Sketch) {
    if let Some(helper) = helper_of(insn) {
        put_breach(page, told.log(), known, told.limits, helper);
    }
}

// The bytes of a frame that helper 10 may read: from one on, at least so many, and at most.
#[derive(Clone, Copy)]
struct Traced {
    frame: u8,
    first: u16,
    least: u16,
    count: u16,
}

// The bytes that are to be traced, if their number is as required, and their address is one.
fn traced_bytes(known: &Sketch) -> Option<Traced> {
    let Kind::Number(length) = known.kind(Reg::R2) else {
        return None;
    };
    let Kind::Address(Region::Frame(frame), offsets) = known.kind(Reg::R1) else {
        return None;
    };
    if length.least() > 64 || length.most() > 64 || offsets.least != offsets.most {
        return None;
    }
    Some(Traced {
        frame,
        first: offsets.least,
        least: length.least() as u16,
        count: length.most() as u16,
    })
}

// How many of these bytes are written, up to the first that may be unwritten.
fn written_from(known: &Sketch, traced: Traced) -> u16 {
    let mut count = 0u16;
    for place in 0..traced.count {
        let byte = traced.first.saturating_add(place);
        if count == place && is_written(known, traced.frame, byte) {
            count = count.saturating_add(1);
        }
    }
    count
}

// Puts which bytes are read that are to be traced, and which of them may be unwritten.
fn put_traced(page: &mut Page, told: &Told<'_>, known: &Sketch, traced: Traced) {
    let end = traced.first.saturating_add(traced.count);
    page.text("helper 10, trace(ptr, length): ");
    put_registers(
        page,
        told.log(),
        known,
        Registers::only(Reg::R1).with(Reg::R2),
    );
    page.text(", so that ");
    put_place(page, traced.first);
    page.text(" to ");
    put_place(page, end.saturating_sub(1));
    page.text(" may be read; unwritten on some path here: ");
    put_gaps(
        page,
        known,
        traced.frame,
        traced.first,
        end.min(FRAME_BYTES),
    );
}

/// Puts how such a breach is mended, as far as the instruction and what is known before it tell, and answers whether they do.
pub fn put_mending(
    page: &mut Page,
    told: &Told<'_>,
    cause: Cause,
    path: Option<&Path>,
    insn: Insn,
    known: &Sketch,
) -> bool {
    match cause {
        Cause::UnwrittenRegister => unwritten::put_mending(page, told, path, insn, known),
        Cause::ArgumentAgainstRule => match helper_of(insn) {
            Some(helper) => arguments::put_mending(page, known, told.limits, helper),
            None => false,
        },
        Cause::AccessOutside => put_inside(page, insn, known),
        Cause::FreezeHeld => put_release(page, &known.held),
        Cause::UnknownHelper => put_helpers(page, told, insn),
        Cause::AddressAsNumber => compute::put_mending(page, told, insn, known),
        Cause::AddressStored => put_spill(page, insn),
        Cause::UnwrittenByte => put_shorter(page, insn, known),
        _ => false,
    }
}

// Puts how an address or a freeze is kept, if the instruction is to store it.
fn put_spill(page: &mut Page, insn: Insn) -> bool {
    let is_stored = matches!(insn, Insn::Store { .. } | Insn::Call(_));
    if is_stored {
        page.text(
            "  = to mend it: keep it in R6 to R9, or store it whole to eight stack bytes at a multiple of 8 from R10\n",
        );
    }
    is_stored
}

// Puts how fewer bytes are traced, if those before the first unwritten one are at least as many as the least length.
fn put_shorter(page: &mut Page, insn: Insn, known: &Sketch) -> bool {
    if !matches!(helper_of(insn), Some(Helper::Trace)) {
        return false;
    }
    let Some(traced) = traced_bytes(known) else {
        return false;
    };
    let written = written_from(known, traced);
    if written < traced.least || written == 0 || written >= traced.count {
        return false;
    }
    page.fill(
        "  = to mend it: write all these bytes before, on each path that comes here, or let r2 be at most {}\n",
        &[u64::from(written)],
    );
    true
}

// Puts which helpers may be called, where another one is.
fn put_helpers(page: &mut Page, told: &Told<'_>, insn: Insn) -> bool {
    if let Some(helper) = helper_of(insn) {
        let version = if HelperSet::Controllers.has(helper) {
            2
        } else {
            3
        };
        page.fill(
            "  = to mend it: write a manifest of version {}, in which programs have this helper too\n",
            &[version],
        );
    } else {
        page.fill(
            "  = to mend it: call one of the helpers 1 to {}; a function of the program itself is called by `call local`\n",
            &[u64::from(told.limits.helpers.count())],
        );
    }
    true
}

// Puts how an access or a sum is mended that leads to one place outside its region, or an access through what is no address.
fn put_inside(page: &mut Page, insn: Insn, known: &Sketch) -> bool {
    let advice = match insn {
        Insn::Load { src, .. } => access_advice(known.kind(src), true),
        Insn::Store { dst, .. } => access_advice(known.kind(dst), false),
        Insn::Alu {
            dst,
            src: Operand::Immediate(_),
            ..
        } => sum_advice(known.kind(dst)),
        _ => "",
    };
    if advice.is_empty() {
        return false;
    }
    page.text("  = to mend it: ");
    page.text(advice);
    page.text("\n");
    true
}

// How an access through a register is mended that is no address, or one address; nothing if it may be several.
fn access_advice(base: Kind, is_load: bool) -> &'static str {
    match base {
        Kind::Address(Region::Context, offsets) if is_load && offsets.least == offsets.most => {
            "read bytes of the context, which are [r1+0] to [r1+95] when the run starts"
        }
        Kind::Address(Region::Frame(_), offsets) if offsets.least == offsets.most => {
            "use bytes of the frame, which are [r10-512] to [r10-1]"
        }
        Kind::Address(..) => "",
        _ => {
            "use the address of the context, which comes in r1 when the run starts, or of the stack, r10; calls lose r1 to r5, so that r1 has to be copied to one of r6 to r9 before"
        }
    }
}

// The same of a sum with a number.
fn sum_advice(base: Kind) -> &'static str {
    match base {
        Kind::Address(Region::Context, offsets) if offsets.least == offsets.most => {
            "let the address stay in the context, which has 96 bytes"
        }
        Kind::Address(Region::Frame(_), offsets) if offsets.least == offsets.most => {
            "let the address stay in the frame, which is r10-512 to r10"
        }
        _ => "",
    }
}

// Puts how a freeze is given back that is held at an exit, if one is.
fn put_release(page: &mut Page, held: &Held) -> bool {
    let Some(freeze) = held.as_slice().first() else {
        return false;
    };
    page.text(match freeze.certainty {
        Certainty::Sure => {
            "  = to mend it: give the freeze back on this path: at once (call 2), or after a time (call 3)\n"
        }
        Certainty::Open => {
            "  = to mend it: on this path test the freeze for 0, and if it is not 0 give it back: at once (call 2), or after a time (call 3)\n"
        }
    });
    true
}

/// Puts what one of the ways says that disagree.
pub fn put_side(page: &mut Page, told: &Told<'_>, open: &Open) {
    let from = match told.log().sightings().get(open.from) {
        Some(sighting) => sighting.slot,
        None => 0,
    };
    page.fill("  = from slot {}: ", &[from as u64]);
    put_held(page, told.log(), &open.known.held);
    page.text(if open.known.disposed {
        "; the CCB is disposed of\n"
    } else {
        "; the CCB is not disposed of\n"
    });
}

fn load_bytes(form: LoadForm) -> u16 {
    match form {
        LoadForm::Byte | LoadForm::SignedByte => 1,
        LoadForm::HalfWord | LoadForm::SignedHalfWord => 2,
        LoadForm::Word | LoadForm::SignedWord => 4,
        LoadForm::DoubleWord => 8,
    }
}

fn store_bytes(size: StoreSize) -> u16 {
    match size {
        StoreSize::Byte => 1,
        StoreSize::HalfWord => 2,
        StoreSize::Word => 4,
        StoreSize::DoubleWord => 8,
    }
}
