// A path through a program in words: each instruction on it, with what is known of the registers that it reads. It relies on
// `explain_path` for the path, and on `listing` for how instructions are written.

use crate::arguments::helper_of;
use crate::kinds::{Around, put_held, put_number, put_register};
use crate::listing::put_source;
use crate::program::Told;
use bpf_insn::{Callee, Insn, LoadForm, Reg, jump_target};
use check_description::Description;
use check_register_kinds::{Kind, Region};
use cli_text_page::Page;
use explain_layout::excerpt::put_foreign;
use explain_path::{Path, Registers};
use helpers::Helper;
use scalar_domain::Scalar;
use stack_domain::NumberPlace;

/// How many instructions a path may have that is told whole.
const WHOLE: usize = 48;

/// How many of the last ones are told of a longer path, of which only turns are told before: jumps that have two ways, calls and
/// exits.
const LAST: usize = 16;

/// How many turns are told of a path that has more: as many from its beginning as from its end.
const TURNS: usize = 128;

/// Puts a path, an instruction a line, which goes on to a slot after it.
pub fn print(page: &mut Page, told: &Told<'_>, path: &Path, after: Option<usize>) {
    page.text("  slot   line\n");
    let count = path.slots.len();
    let turns = path
        .slots
        .iter()
        .filter(|slot| is_turn_at(told, **slot))
        .count();
    let mut turn = 0usize;
    let mut left_out = 0u64;
    for (place, slot) in path.slots.iter().enumerate() {
        let Some(insn) = told.program.fetch(*slot) else {
            continue;
        };
        let is_told = is_turn(insn) && is_among(turn, turns);
        if is_turn(insn) {
            turn = turn.saturating_add(1);
        }
        if count > WHOLE && place.saturating_add(LAST) < count && !is_told {
            left_out = left_out.saturating_add(1);
            continue;
        }
        if left_out > 0 {
            page.fill(
                if left_out == 1 {
                    "              .. {} instruction\n"
                } else {
                    "              .. {} instructions\n"
                },
                &[left_out],
            );
        }
        left_out = 0;
        let next = match path.slots.get(place.saturating_add(1)) {
            Some(next) => Some(*next),
            None => after,
        };
        if let Some(check) = path.checks.get(place) {
            put_step(page, told, *check, *slot, insn, next);
        }
    }
}

// Whether a turn is one of the first or of the last that are told.
fn is_among(turn: usize, turns: usize) -> bool {
    turn < TURNS || turns < turn.saturating_add(TURNS).saturating_add(1)
}

fn is_turn_at(told: &Told<'_>, slot: usize) -> bool {
    match told.program.fetch(slot) {
        Some(insn) => is_turn(insn),
        None => false,
    }
}

// Whether an instruction may lead elsewhere than to the next one.
fn is_turn(insn: Insn) -> bool {
    matches!(insn, Insn::JumpIf { .. } | Insn::Call(_) | Insn::Exit)
}

// Puts an instruction of the path, with the slot to which it leads on it.
fn put_step(
    page: &mut Page,
    told: &Told<'_>,
    check: usize,
    slot: usize,
    insn: Insn,
    next: Option<usize>,
) {
    let depth = match told.log().sightings().get(check) {
        Some(sighting) => sighting.depth,
        None => 1,
    };
    page.aligned(slot as u64, 6);
    let text = match told.listing.at(slot) {
        Some(written) => {
            page.text(" ");
            page.aligned(written.standing.line as u64, 6);
            page.text("  ");
            written.text.as_str()
        }
        None => {
            page.blanks(9);
            ""
        }
    };
    let wide = put_indented(page, depth, text);
    if tells_more(insn) {
        page.blanks(told.listing.width.saturating_sub(wide));
        put_way(page, slot, insn, next);
        put_known(page, told, check, depth, insn);
    }
    if let Some(written) = told.listing.at(slot) {
        put_source(page, "  ; ", written);
    }
    page.text("\n");
}

// Puts an instruction, further in by each function that waits, and answers how wide that is.
fn put_indented(page: &mut Page, depth: usize, text: &str) -> usize {
    for _caller in 1..depth {
        page.text("  ");
    }
    let before = page.len();
    put_foreign(page, text);
    let shown = page.len().saturating_sub(before);
    depth.saturating_mul(2).saturating_add(shown)
}

// Whether there is more to tell of an instruction than how it is written.
fn tells_more(insn: Insn) -> bool {
    is_turn(insn) || mattering(insn).count() > 0
}

// Puts which way a conditional jump goes, and what a call calls.
fn put_way(page: &mut Page, slot: usize, insn: Insn, next: Option<usize>) {
    match insn {
        Insn::JumpIf { offset, .. } if slot < bpf_insn::MAX_SLOTS => {
            let target = jump_target(slot, i32::from(offset));
            page.text(match next {
                Some(to) if to == target => "  taken",
                Some(_) => "  not taken",
                None => "",
            });
        }
        Insn::Call(Callee::Local(_)) => page.text("  into the function"),
        _ => {
            if let Some(helper) = helper_of(insn) {
                page.text("  ");
                page.text(helper.signature());
            }
        }
    }
}

// Puts what is known of the registers that matter to an instruction, and of freezes where it may end the run or move one.
fn put_known(page: &mut Page, told: &Told<'_>, check: usize, depth: usize, insn: Insn) {
    let held = told.notes.held(check);
    put_kinds(page, told, check, &Around { depth, held }, insn);
    if let Some(held) = held {
        if tells_freezes(insn) {
            page.text(if mattering(insn).count() > 0 {
                "; "
            } else {
                "  "
            });
            put_held(page, told.log(), &held);
        }
    }
}

// Puts what is known of the registers that matter to an instruction, and which number it loads.
fn put_kinds(page: &mut Page, told: &Told<'_>, check: usize, around: &Around, insn: Insn) {
    let registers = mattering(insn);
    let kinds = told.notes.kinds(check);
    let mut count = 0usize;
    for number in 0u8..11 {
        if let Some(reg) = held_in(registers, number) {
            if let Some(kind) = kinds.get(count) {
                page.text(if count == 0 { "  " } else { "; " });
                count = count.saturating_add(1);
                put_register(page, told.log(), around, reg, *kind);
            }
        }
    }
    if let Some(Kind::Number(number)) = kinds.get(count) {
        page.text("; loads ");
        put_number(page, *number);
    }
}

// The register of that number, if it is one of these.
fn held_in(registers: Registers, number: u8) -> Option<Reg> {
    match Reg::from_number(number) {
        Some(reg) if registers.has(reg) => Some(reg),
        _ => None,
    }
}

/// The number that an instruction loads, if it is a load without a sign and the number is kept on the stack.
pub fn loaded(known: &Description, insn: Insn) -> Option<Scalar> {
    let Insn::Load {
        form,
        src,
        offset,
        ..
    } = insn
    else {
        return None;
    };
    let Kind::Address(Region::Frame(frame), offsets) = known.kind(src) else {
        return None;
    };
    if offsets.least != offsets.most {
        return None;
    }
    known.numbers.find(NumberPlace {
        frame,
        offset: offsets.least.saturating_add_signed(offset),
        bytes: unsigned_bytes(form)?,
    })
}

// How many bytes a load without a sign reads.
fn unsigned_bytes(form: LoadForm) -> Option<u16> {
    match form {
        LoadForm::Byte => Some(1),
        LoadForm::HalfWord => Some(2),
        LoadForm::Word => Some(4),
        LoadForm::DoubleWord => Some(8),
        LoadForm::SignedByte | LoadForm::SignedHalfWord | LoadForm::SignedWord => None,
    }
}

/// The registers that matter to an instruction: those that it reads; of a helper, those that are its arguments.
pub fn mattering(insn: Insn) -> Registers {
    match helper_of(insn) {
        Some(helper) => arguments(helper),
        None => match insn {
            Insn::Call(Callee::Local(_)) => Registers::none(),
            _ => Registers::read_by(insn),
        },
    }
}

fn arguments(helper: Helper) -> Registers {
    let all = [Reg::R1, Reg::R2, Reg::R3];
    let mut registers = Registers::none();
    for reg in all.iter().take(helper.arity()) {
        registers = registers.with(*reg);
    }
    registers
}

/// Whether an instruction may end the run, or takes or gives up a freeze.
pub fn tells_freezes(insn: Insn) -> bool {
    match helper_of(insn) {
        Some(helper) => matches!(
            helper,
            Helper::Freeze | Helper::Release | Helper::ReleaseAfter | Helper::FreezeController
        ),
        None => matches!(insn, Insn::Exit),
    }
}
