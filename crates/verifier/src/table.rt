// A table of what is known at each slot of a function that is not visited yet, and what a check of an instruction does to it. It
// relies on `known` for places, on `reg_domain` for what an instruction makes of what is known, and on `check_local_calls` for a return.

ghost use Rattle.std.specs.Prelude.{◌≡◌, ◌<◌, ◌≤◌, ◌+◌, ◌++◌, ◌∷◌, [], List, ℕ, length, Some, IfOk, IfErr, IfSome, IsOkAnd, IsSome};
ghost use Rattle.bpf_insn.specs.declared.insn.Insn.TheVariants.{Exit};
ghost use Rattle.bpf_insn.specs.declared.program.Slot.{Slot};
ghost use Rattle.bpf_insn.specs.Program.{insn_at};
ghost use Rattle.call_shape.specs.declared.lawful_shape.TheConstants.{MAX_WRITTEN_OUT};
ghost use Rattle.helpers.specs.declared.limits.HelperLimits.{HelperLimits};
ghost use Rattle.check_description.specs.declared.description.Description.{Description};
ghost use Rattle.check_description.specs.declared.saved.SavedRegisters.{SavedRegisters};
ghost use Rattle.check_description.specs.Description.{NeverStuck};
ghost use Rattle.reg_domain.specs.Ways.{Stays};
ghost use Rattle.verifier.specs.Arrives.{AllArrive, Arrives, FailsUnless, NeverLacks, goes_to};
ghost use Rattle.verifier.specs.Table.{HasJoined, HasLed, HasLeft, IsFirstTable, IsMerged};

use crate::known::{Known, Spare};
use crate::refusal::{Refusal, VerifyError, refused};
use crate::witness::{Along, Witness};
use base::OrMemory;
use bpf_insn::Insn;
use check_description::SavedRegisters;
use check_private_insns::Way;
use check_register_kinds::Cause;
use helpers::HelperLimits;
use reg_domain::{follow, join};
use std::alloc::AllocError;

/// One check of an instruction.
#[derive(Clone, Copy, Debug)]
pub struct Check {
    pub place: usize,
    pub insn: Insn,
    /// No other check has that number.
    pub number: u32,
}

impl Check {
    /// Makes a check of the instruction at a place: it is counted, and its number is how many were made before it.
    pub fn make(place: usize, insn: Insn, visits: &mut u32) -> Self
        requires room { visits.old < MAX_WRITTEN_OUT }
        ensures counted { visits.new ≡ visits.old + 1 }
        ensures of { (result.place ≡ place) × (result.insn ≡ insn) × (result.number ≡ visits.old) }
    {
        let number = *visits;
        *visits += 1;
        Check {
            place,
            insn,
            number,
        }
    }
}

/// The table of so many slots at the start: the first alone is described.
pub fn first_table(
    spare: &mut Spare,
    len: usize,
    entry: Known,
) -> Result<Vec<Option<Known>>, AllocError>
    requires some { 1 ≤ len }
    ensures { IfOk result (λ table. IsFirstTable len entry table.items) }
{
    let mut table = spare.table(len)?;
    table.push_reserved(Some(entry));
    for _ in 1..len {
        table.push_reserved(None);
    }
    Ok(table)
}

/// Checks an instruction where that is known, and lets it lead on one way: what is known then is joined into the table, of a function
/// that starts at that slot. Nothing follows the last exit.
pub fn lead<W: Witness + Drop>(
    limits: &HelperLimits,
    callers: &[SavedRegisters],
    table: &mut [Option<Known>],
    check: Check,
    mut known: Known,
    way: Way,
    start: usize,
    to: usize,
    along: &mut Along<W>,
) -> Result<(), VerifyError>
    requires stays { Stays callers.now check.insn }
    ensures whole { length table.new ≡ length table.old }
    ensures led { IfOk result (λ _. HasLed limits.now callers.now known table.old check.insn way to table.new) }
    ensures passes { (program : List Slot) (place : ℕ) → NeverLacks program → AllArrive program table.old → length table.old ≤ length program → insn_at program place ≡ Some check.insn → Arrives program place known → goes_to place check.insn way ≡ Some to → IsOkAnd result (λ _. AllArrive program table.new) }
    ensures fails { IfErr result (FailsUnless ⊥) }
{
    match follow(
        &mut known.description,
        limits,
        callers,
        check.insn,
        check.number,
        way,
    ) {
        Ok(is_open) => {
            if is_open && to < table.len() {
                let place = start.saturating_add(to);
                along.witness.leads(check.number, place, &known.description);
                arrive(table, to, known, &mut along.spare, place)
            } else {
                along.spare.keep(known);
                Ok(())
            }
        }
        Err(error) => Err(refused(error, check.place)),
    }
}

/// Something more leads to an entry, of which that is the place.
pub fn arrive(
    table: &mut [Option<Known>],
    to: usize,
    new: Known,
    spare: &mut Spare,
    place: usize,
) -> Result<(), VerifyError>
    requires to { to < length table.old }
    ensures whole { length table.new ≡ length table.old }
    ensures joined { IfOk result (λ _. HasJoined table.old to new table.new) }
    ensures passes { (program : List Slot) → NeverLacks program → AllArrive program table.old → to < length program → Arrives program to new → IsOkAnd result (λ _. AllArrive program table.new) }
    ensures fails { IfErr result (FailsUnless ⊥) }
{
    merge(&mut table[to], new, spare, place)
}

// Something more is known at a place, to which it leads.
fn merge(
    known: &mut Option<Known>,
    new: Known,
    spare: &mut Spare,
    place: usize,
) -> Result<(), VerifyError>
    ensures merged { IfOk result (λ _. IfSome known.new (IsMerged known.old new)) }
    ensures some { IfOk result (λ _. IsSome known.new) }
    ensures passes { (program : List Slot) (to : ℕ) → NeverLacks program → to < length program → Arrives program to new → ((old : Description) → known.old ≡ Some old → Arrives program to old) → IsOkAnd result (λ _. IfSome known.new (Arrives program to)) }
    ensures fails { IfErr result (FailsUnless ⊥) }
{
    match known {
        None => {
            *known = Some(new);
            Ok(())
        }
        Some(old) => {
            if join(&mut old.description, &new.description) {
                spare.keep(new);
                Ok(())
            } else {
                Err(OrMemory::Fault(Refusal::Check(Cause::PathsDisagree, place)))
            }
        }
    }
}

/// A function is left where that is known, for the place after its call.
pub fn leave(
    mut known: Known,
    saved: &SavedRegisters,
    left: &mut Option<Known>,
    spare: &mut Spare,
    place: usize,
) -> Result<(), VerifyError>
    requires called { 1 < length known.stack }
    ensures unstuck { (limits : HelperLimits) (outer : List SavedRegisters) → NeverStuck limits (outer ++ saved.now ∷ []) Exit known }
    ensures left { IfOk result (λ _. HasLeft saved.now known left.old left.new) }
    ensures fails { IfErr result (FailsUnless ⊥) }
{
    check_local_calls::leave(&mut known.description, saved);
    merge(left, known, spare, place)
}
