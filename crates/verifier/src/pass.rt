// The pass over a program: each function under each chain of calls that are open, its places from the first to the last. What
// is known at a place is joined from all that leads there, and led on from there; a function that is called is visited where its
// call is, from what is known there. It relies on `table` for what a check does, and on the shape for that jumps lead forward and that
// no chain of calls is too long.

ghost use Rattle.std.specs.Prelude.{◌≡◌, ◌<◌, ◌≤◌, ◌+◌, ◌-◌, ◌++◌, ◌∷◌, [], List, ℕ, ℤ, length, Some, IfOk, IfErr, OnOk, IsOkAnd};
ghost use Rattle.bpf_insn.specs.declared.insn.Callee.TheVariants.{Local};
ghost use Rattle.bpf_insn.specs.declared.insn.Insn.TheVariants.{Call};
ghost use Rattle.bpf_insn.specs.Program.{insn_at};
ghost use Rattle.bpf_semantics.specs.Reached.{Safe};
ghost use Rattle.call_shape.specs.Calls.{callee_at, function_of};
ghost use Rattle.call_shape.specs.WrittenOut.{written_out};
ghost use Rattle.call_shape.specs.declared.lawful_shape.TheConstants.{MAX_WRITTEN_OUT};
ghost use Rattle.helpers.specs.declared.limits.HelperLimits.{HelperLimits};
ghost use Rattle.check_description.specs.declared.description.Description.{Description};
ghost use Rattle.reg_domain.specs.Enough.{IsEntryKnown};
ghost use Rattle.check_description.specs.Description.{NeverStuck};
ghost use Rattle.reg_domain.specs.Ways.{Stays};
ghost use Rattle.verifier.specs.Arrives.{AllArrive, Arrives, FailsUnless, IsNeverLacking, LacksMemoryOrMore, NeverLacks};
ghost use Rattle.verifier.specs.Function.{ArePassed, HasChecked, IsEnd, IsLawfulProgram, IsOwn, checks_at, deep_under};
ghost use Rattle.verifier.specs.Goes.{IsCallVisited, IsVisited};
ghost use Rattle.verifier.specs.Table.{described};
ghost use Rattle.verifier.specs.Verdict.{IsNumberOfChecks};

use crate::known::Known;
use crate::refusal::VerifyError;
use crate::table::{Check, arrive, first_table, lead, leave};
use crate::ways::{callee_of, end_of, returning, target_of};
use crate::witness::{Along, Witness};
use bpf_insn::Program;
use call_shape::Shape;
use check_description::SavedRegisters;
use check_local_calls::enter;
use check_private_insns::Way;
use helpers::HelperLimits;
use reg_domain::entry;
use std::alloc::Global;

/// Describes each place of a program of lawful shape, and checks each instruction that something leads to, under these
/// limits. The answer is how many checks were made. It takes memory for as many descriptions as ways are open at a time, and for
/// a small table of each function that is open.
pub fn pass<W: Witness + Drop>(
    alloc: Global,
    limits: &HelperLimits,
    shape: &Shape<'_>,
    along: &mut Along<W>,
) -> Result<u32, VerifyError>
    ensures safe { IfOk result (λ _. Safe shape.now limits.now) }
    ensures visits { IfOk result (IsNumberOfChecks shape.now) }
    ensures short { IfOk result (λ visits. visits ≤ MAX_WRITTEN_OUT) }
    ensures fails { IfErr result (LacksMemoryOrMore shape.now) }
{
    let program = shape.program();
    let entry = along.spare.copy_of(&entry(alloc))?;
    let mut callers = Vec::new(alloc);
    let mut visits = 0;
    visit_function(
        limits,
        program,
        0,
        0,
        entry,
        &mut callers,
        along,
        &mut visits,
    )?;
    Ok(visits)
}

// Visits a function that starts at a slot, while these wait for it, from what is known there. What is known where it is left
// is the answer, if it is anywhere, for the place after its call.
#[cycle(functions)]
fn visit_function<W: Witness + Drop>(
    limits: &HelperLimits,
    program: &Program,
    start: usize,
    behind_call: usize,
    entry: Known,
    callers: &mut Vec<SavedRegisters>,
    along: &mut Along<W>,
    visits: &mut u32,
) -> Result<Option<Known>, VerifyError>
    requires lawful { IsLawfulProgram program.now }
    requires own { IsOwn program.now callers.old.items start start entry }
    requires few { visits.old + written_out (8 - length callers.old.items) program.now start ≤ MAX_WRITTEN_OUT }
    ensures sound { IfOk result (λ left. IsVisited limits.now program.now callers.old.items entry start left visits.old visits.new) }
    ensures frames { IfOk result (λ left. (d : Description) → left ≡ Some d → length d.stack ≡ length callers.old.items) }
    ensures callers { OnOk result (callers.new.items ≡ callers.old.items) }
    ensures visits { OnOk result (visits.new ≤ visits.old + written_out (8 - length callers.old.items) program.now start) }
    ensures counted { OnOk result (visits.old < visits.new) }
    ensures fails { IfErr result (FailsUnless (IsNeverLacking program.now callers.old.items start × IsEntryKnown entry)) }
{
    let len = end_of(program, start) - start;
    let mut table = first_table(&mut along.spare, len, entry)?;
    let mut left = None;
    for at in 0..len {
        visit(
            limits,
            program,
            start,
            at,
            behind_call,
            &mut table,
            &mut left,
            callers,
            along,
            visits,
        )?;
    }
    along.spare.keep_table(table);
    Ok(left)
}

// Visits one place: where something leads to it, its instruction is checked, and what is known there is led on.
#[cycle(functions)]
fn visit<W: Witness + Drop>(
    limits: &HelperLimits,
    program: &Program,
    start: usize,
    at: usize,
    behind_call: usize,
    table: &mut [Option<Known>],
    left: &mut Option<Known>,
    callers: &mut Vec<SavedRegisters>,
    along: &mut Along<W>,
    visits: &mut u32,
) -> Result<(), VerifyError>
    requires lawful { IsLawfulProgram program.now }
    requires at { at < length table.old }
    requires before { (entry : Description) × (first : ℕ) × ArePassed limits.now program.now callers.old.items entry start table.old left.old at first visits.old }
    requires few { visits.old + checks_at (deep_under callers.old.items) program.now start (start + at) ≤ MAX_WRITTEN_OUT }
    ensures whole { length table.new ≡ length table.old }
    ensures done { IfOk result (λ _. (entry : Description) (first : ℕ) → ArePassed limits.now program.now callers.old.items entry start table.old left.old at first visits.old → ArePassed limits.now program.now callers.old.items entry start table.new left.new (at + 1) first visits.new) }
    ensures callers { OnOk result (callers.new.items ≡ callers.old.items) }
    ensures visits { OnOk result (visits.new ≤ visits.old + checks_at (deep_under callers.old.items) program.now start (start + at)) }
    ensures more { OnOk result (visits.old ≤ visits.new) }
    ensures counted { (d : Description) → described table.old at ≡ Some d → OnOk result (visits.old < visits.new) }
    ensures arrives { IfOk result (λ _. IsNeverLacking program.now callers.old.items start → AllArrive program.now table.old → AllArrive program.now table.new) }
    ensures fails { IfErr result (FailsUnless (IsNeverLacking program.now callers.old.items start × AllArrive program.now table.old)) }
{
    let place = start + at;
    // Nothing leads to the second slot of an instruction.
    let Some(insn) = program.fetch(place) else {
        return Ok(());
    };
    let Some(known) = table[at].take() else {
        return Ok(());
    };
    let check = Check::make(place, insn, visits);
    along
        .witness
        .checks(check.number, place, &known.description);
    if let Some(target) = callee_of(place, insn) {
        let back = call(
            limits, program, place, target, known, callers, along, visits,
        )?;
        return match back {
            Some(back) => arrive(table, at + 1, back, &mut along.spare, place + 1),
            None => Ok(()),
        };
    }
    if let Some(saved) = returning(insn, callers) {
        along
            .witness
            .leaves(check.number, behind_call, &known.description);
        return leave(known, &saved, left, &mut along.spare, behind_call);
    }
    check_ways(
        limits, program, callers, table, start, at, check, known, along,
    )
}

// Visits the function that the instruction at a place calls where that is known. What is known after the call is the answer, if
// any machine comes back.
#[cycle(functions)]
fn call<W: Witness + Drop>(
    limits: &HelperLimits,
    program: &Program,
    place: usize,
    callee: usize,
    mut known: Known,
    callers: &mut Vec<SavedRegisters>,
    along: &mut Along<W>,
    visits: &mut u32,
) -> Result<Option<Known>, VerifyError>
    requires lawful { IsLawfulProgram program.now }
    requires own { IsOwn program.now callers.old.items (function_of program.now place) place known }
    requires calls { callee_at program.now place ≡ Some callee }
    requires few { visits.old + written_out (deep_under callers.old.items) program.now callee ≤ MAX_WRITTEN_OUT }
    ensures unstuck { (limits : HelperLimits) (distance : ℤ) → NeverStuck limits callers.old.items (Call (Local distance)) known }
    ensures sound { IfOk result (λ back. IsCallVisited limits.now program.now callers.old.items known place callee back visits.old visits.new) }
    ensures frames { IfOk result (λ back. (d : Description) → back ≡ Some d → length d.stack ≡ length callers.old.items + 1) }
    ensures callers { OnOk result (callers.new.items ≡ callers.old.items) }
    ensures visits { OnOk result (visits.new ≤ visits.old + written_out (deep_under callers.old.items) program.now callee) }
    ensures counted { OnOk result (visits.old < visits.new) }
    ensures fails { IfErr result (FailsUnless ⊥) }
{
    let saved = enter(&mut known.description);
    callers.reserve(1)?;
    callers.push_reserved(saved);
    let left = visit_function(
        limits,
        program,
        callee,
        place + 1,
        known,
        callers,
        along,
        visits,
    )?;
    callers.pop();
    Ok(left)
}

// Checks the instruction at a place, where that is known, by which control stays in its function, and lets it lead on both ways.
fn check_ways<W: Witness + Drop>(
    limits: &HelperLimits,
    program: &Program,
    callers: &[SavedRegisters],
    table: &mut [Option<Known>],
    start: usize,
    at: usize,
    check: Check,
    known: Known,
    along: &mut Along<W>,
) -> Result<(), VerifyError>
    requires lawful { IsLawfulProgram program.now }
    requires at { at < length table.old }
    requires end { IsEnd program.now start (start + length table.old) }
    requires here { insn_at program.now (start + at) ≡ Some check.insn }
    requires stays { Stays callers.now check.insn }
    ensures whole { length table.new ≡ length table.old }
    ensures checked { IfOk result (λ _. HasChecked limits.now callers.now start known table.old at check.insn table.new) }
    ensures arrives { IfOk result (λ _. start ≡ 0 → NeverLacks program.now → AllArrive program.now table.old → Arrives program.now at known → AllArrive program.now table.new) }
    ensures fails { IfErr result (FailsUnless ((start ≡ 0) × NeverLacks program.now × AllArrive program.now table.old × Arrives program.now at known)) }
{
    let behind = at + check.insn.slots();
    match target_of(start + at, check.insn) {
        Some(target) => {
            let also = along.spare.copy_of(&known.description)?;
            let ahead = Way::FallThrough;
            lead(
                limits, callers, table, check, also, ahead, start, behind, along,
            )?;
            let to = target - start;
            let taken = Way::Taken;
            lead(
                limits, callers, table, check, known, taken, start, to, along,
            )
        }
        None => {
            let roomy = known.with_room(check.insn)?;
            let ahead = Way::FallThrough;
            lead(
                limits, callers, table, check, roomy, ahead, start, behind, along,
            )
        }
    }
}
