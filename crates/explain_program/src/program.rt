// Why a program is refused: where, which rule, by which values and by which path. It relies on `notes` for what the verifier's pass
// showed, and on `listing` for how the program is written.

ghost use Rattle.std.specs.Prelude.{◌<◌, IfSome};
ghost use Rattle.bpf_insn.specs.declared.program.TheConstants.{MAX_SLOTS};

use crate::causes::{put_mending, put_side, put_values};
use crate::functions::function_of;
use crate::giving::{GivenBack, given_back, is_release};
use crate::kinds::put_name;
use crate::listing::{Listing, put_source};
use crate::notes::Notes;
use crate::reaching::reaches;
use crate::{calls, steps};
use bpf_insn::{Insn, Program};
use call_shape::{Onward, ShapeFault};
use check_register_kinds::Cause;
use cli_text_page::Page;
use explain_codes::{code_in, put_rule};
use explain_layout::excerpt::put_foreign;
use explain_layout::{Span, excerpt};
use explain_path::{Log, Open, Path, path_to};
use helpers::HelperLimits;
use std::alloc::{AllocError, Global};
use verifier::Refusal;

/// What there is to say of a jump that closes a loop. It names the slot to which the jump leads.
const LOOP: &str =
    "  = here: a loop, since control may come from slot {} to this jump again\n  = to mend it: the policy language has no loops: write the turns out one after the other, or let each run take one turn and count the turns in a table's word (call 8)\n";

/// The same of one that leads to what control only leaves forward.
const NO_LOOP: &str =
    "  = here: no loop, since control does not come from slot {} to this jump\n  = to mend it: lay the program out so that each jump leads forward: what begins at that slot can stand after this jump; tools/policy-from-c does that with what a C compiler made\n";

/// How two ways are mended of which one disposes of the CCB.
const DISPOSE: &str =
    "  = to mend it: requeue or finish the CCB (call 4 or 5) on both ways before they join, or only after that; or let each go to an exit of its own\n";

/// A program that is told of, with what is needed for that.
#[derive(Drop)]
pub struct Told<'a> {
    /// The manifest's path, as it is shown, and its text.
    pub path: &'a str,
    pub text: &'a str,
    /// Where the program's text or bytes stand in it.
    pub value: Span,
    pub program: &'a Program,
    pub listing: &'a Listing,
    pub notes: &'a Notes<'a>,
    pub limits: &'a HelperLimits,
}

impl Told<'_> {
    /// The checks that were made of the program.
    pub fn log(&self) -> &Log {
        self.notes.log()
    }
}

/// Puts why the program is refused.
pub fn print(
    alloc: Global,
    page: &mut Page,
    told: &Told<'_>,
    refusal: Refusal,
) -> Result<(), AllocError> {
    let slot = slot_of(refusal);
    put_place(page, told, slot);
    let text = format!(in alloc; "{refusal}")?;
    let code = code_in(text.as_str());
    if let Some(code) = code {
        put_rule(page, code);
    }
    let is_mended = put_reasons(alloc, page, told, refusal, slot)?;
    match code {
        Some(code) if !is_mended => explain_codes::put_mending(page, code),
        _ => {}
    }
    Ok(())
}

// Puts by which values the rule is broken, and by which path; and how that is mended, if these tell. It answers whether they do.
fn put_reasons(
    alloc: Global,
    page: &mut Page,
    told: &Told<'_>,
    refusal: Refusal,
    slot: usize,
) -> Result<bool, AllocError> {
    match refusal {
        Refusal::Shape(ShapeFault::TargetBackward(_)) => {
            put_target(page, told, slot);
            put_backward(page, told, slot);
            Ok(true)
        }
        Refusal::Shape(ShapeFault::TargetSecondSlot(_)) => {
            put_second_slot(page, told, slot);
            Ok(true)
        }
        Refusal::Shape(ShapeFault::TooManyFrames) => {
            calls::put_depth(page, told.program);
            Ok(false)
        }
        Refusal::Shape(ShapeFault::TooLong) => {
            calls::put_length(page, told.program);
            Ok(false)
        }
        Refusal::Shape(fault) => {
            put_target(page, told, slot);
            if let ShapeFault::LeavesFunction(_) = fault {
                put_functions(page, told, slot);
            }
            Ok(false)
        }
        Refusal::Check(Cause::PathsDisagree, _) => { put_sides(alloc, page, told, slot) }
        Refusal::Check(cause, _) => put_check(alloc, page, told, cause),
    }
}

// The slot that a refusal names.
fn slot_of(refusal: Refusal) -> usize {
    match refusal {
        Refusal::Shape(fault) => shape_slot(fault),
        Refusal::Check(_, slot) => slot,
    }
}

// The slot that a fault of the shape names.
fn shape_slot(fault: ShapeFault) -> usize {
    match fault {
        ShapeFault::OpenEnd(slot)
        | ShapeFault::TargetOutside(slot)
        | ShapeFault::TargetSecondSlot(slot)
        | ShapeFault::TargetBackward(slot)
        | ShapeFault::NoSuchFunction(slot)
        | ShapeFault::LeavesFunction(slot)
        | ShapeFault::CallCycle(slot) => slot,
        ShapeFault::TooManyFrames | ShapeFault::TooLong => 0,
    }
}

// Puts where the instruction of a slot stands, and what it is.
fn put_place(page: &mut Page, told: &Told<'_>, slot: usize) {
    let (part, text) = match told.listing.at(slot) {
        Some(written) => (written.standing.part, written.text.as_str()),
        None => (told.value, ""),
    };
    excerpt::print(page, told.path, told.text, part);
    page.fill("  = slot {}", &[slot as u64]);
    if !text.is_empty() {
        page.text(": ");
        put_foreign(page, text);
    }
    if let Some(written) = told.listing.at(slot) {
        put_source(page, "\n  = source: ", written);
    }
    page.text("\n");
}

// Where the instruction of a slot leads, if it is a jump or a local call.
pub fn target_of(program: &Program, slot: usize) -> Option<usize>
    ensures { IfSome result (λ _. slot < MAX_SLOTS) }
{
    let insn = program.fetch(slot)?;
    match Onward::of(slot, insn) {
        Onward::Branches(_, to) | Onward::Enters(to, _) => Some(to),
        Onward::Continues(to) if matches!(insn, Insn::Jump(_)) => Some(to),
        Onward::Continues(_) | Onward::Leaves => None,
    }
}

// Puts where an instruction leads.
fn put_target(page: &mut Page, told: &Told<'_>, slot: usize) {
    let Some(to) = target_of(told.program, slot) else {
        return;
    };
    let last = told.program.len().saturating_sub(1);
    page.fill(
        "  = here: it leads to slot {}; the program has slots 0 to {}\n",
        &[to as u64, last as u64],
    );
}

// Puts in which functions a jump and its target are, if these are two, and answers whether they are.
fn put_functions(page: &mut Page, told: &Told<'_>, slot: usize) -> bool {
    let Some(to) = target_of(told.program, slot) else {
        return false;
    };
    let of_target = function_of(told.program, to);
    let of_jump = function_of(told.program, slot);
    if of_target == of_jump {
        return false;
    }
    page.fill(
        "  = here: slot {} is in the function that begins at slot {}, and this jump in the one that begins at slot {}\n",
        &[to as u64, of_target as u64, of_jump as u64],
    );
    true
}

// Puts that a jump leads to the second slot of a constant, and to which slots it may lead in its place.
fn put_second_slot(page: &mut Page, told: &Told<'_>, slot: usize) {
    let Some(to) = target_of(told.program, slot) else {
        return;
    };
    let first = to.saturating_sub(1);
    page.fill(
        "  = here: the jump leads to slot {}, the second slot of `",
        &[to as u64],
    );
    if let Some(written) = told.listing.at(first) {
        put_foreign(page, written.text.as_str());
    }
    page.fill(
        "` at slot {}\n  = to mend it: let it lead to slot {} (",
        &[first as u64, first as u64],
    );
    put_distance(page, slot, first);
    page.fill(") or {} (", &[to.saturating_add(1) as u64]);
    put_distance(page, slot, to.saturating_add(1));
    page.text("); write a label\n");
}

// Puts how far a jump at a slot goes that leads to another one.
fn put_distance(page: &mut Page, slot: usize, to: usize) {
    let next = slot.saturating_add(1);
    page.fill(
        if to >= next { "+{}" } else { "-{}" },
        &[to.saturating_sub(next).max(next.saturating_sub(to)) as u64],
    );
}

// Puts whether a jump that does not lead forward closes a loop, and what to do about it.
fn put_backward(page: &mut Page, told: &Told<'_>, slot: usize) {
    let Some(to) = target_of(told.program, slot) else {
        return;
    };
    let is_loop = reaches(told.program, to, slot);
    if !is_loop && put_functions(page, told, slot) {
        page.text("  = to mend it: let the function return, and jump after the call\n");
        return;
    }
    page.fill(if is_loop { LOOP } else { NO_LOOP }, &[to as u64]);
}

// Puts what is known where the last check failed, by which path control comes there, and how that is mended, if this tells. It answers
// whether it does.
fn put_check(
    alloc: Global,
    page: &mut Page,
    told: &Told<'_>,
    cause: Cause,
) -> Result<bool, AllocError> {
    let number = told.log().sightings().len().saturating_sub(1);
    let Some(sighting) = told.log().sightings().get(number) else {
        return Ok(false);
    };
    let (Some(insn), Some(known)) = (told.program.fetch(sighting.slot), told.log().last()) else {
        return Ok(false);
    };
    let path = path_to(
        alloc,
        told.program,
        told.log(),
        number,
        steps::mattering(insn),
    )?;
    page.text("  = here: ");
    put_values(page, told, cause, path.as_ref(), insn, known);
    page.text("\n");
    let again = match &path {
        Some(path) if cause == Cause::ArgumentAgainstRule && is_release(insn) => {
            given_back(told, path)
        }
        _ => None,
    };
    if let Some(again) = again {
        put_again(page, told, again);
    }
    if let Some(path) = &path {
        put_path(page, told, path, None);
    }
    if let Some(again) = again {
        page.fill(
            "  = to mend it: leave out the call at slot {} or this one\n",
            &[again.slot as u64],
        );
        return Ok(true);
    }
    Ok(put_mending(page, told, cause, path.as_ref(), insn, known))
}

// Puts where a freeze was given back before.
fn put_again(page: &mut Page, told: &Told<'_>, again: GivenBack) {
    page.text("  = here: r1 was ");
    put_name(page, told.log(), again.name);
    page.fill(
        if again.is_timed {
            ", which was left to a timer at slot {}\n"
        } else {
            ", which was given back at slot {}\n"
        },
        &[again.slot as u64],
    );
}

// Puts a path, and on to a slot after it.
fn put_path(page: &mut Page, told: &Told<'_>, path: &Path, after: Option<usize>) {
    page.text("  = path:\n");
    steps::print(page, told, path, after);
}

// Puts what two ways say that come to a slot and disagree, and by which paths they come there; and how that is mended, if they agree on
// freezes. It answers whether they do.
fn put_sides(
    alloc: Global,
    page: &mut Page,
    told: &Told<'_>,
    slot: usize,
) -> Result<bool, AllocError> {
    let Some((first, last)) = told.log().disagreeing(slot) else {
        return Ok(false);
    };
    put_side(page, told, &first);
    put_side(page, told, &last);
    put_way(alloc, page, told, &first)?;
    put_way(alloc, page, told, &last)?;
    let is_disposal = first.known.held.is_same(&last.known.held);
    if is_disposal {
        page.text(DISPOSE);
    }
    Ok(is_disposal)
}

// Puts by which path control comes to a slot on a way.
fn put_way(alloc: Global, page: &mut Page, told: &Told<'_>, way: &Open) -> Result<(), AllocError> {
    let matter = steps::mattering(Insn::Exit);
    if let Some(path) = path_to(alloc, told.program, told.log(), way.from, matter)? {
        put_path(page, told, &path, Some(way.slot));
    }
    Ok(())
}
