// Helper calls where a machine is described, by the rows of the helpers' table. It relies on `arguments` for what is known of
// their arguments, on `saved` and `check_description` for freezes that are taken or given up, and on `helpers` for the table.

ghost use Rattle.std.specs.Prelude.{◌≡◌, ◌↔◌, ◌<◌, ◌≤◌, ℕ, false, List, length, IfOk, IsOk, IsOkAnd, None, Some, ◌++◌, ◌∷◌, []};
ghost use Rattle.bpf_insn.specs.declared.reg.Reg.TheVariants.{R1};
ghost use Rattle.bpf_semantics.specs.MachineState.{MachineState, register};
ghost use Rattle.bpf_semantics.specs.Step.{after_call as called, held_without, IsNewFreeze, held_with};
ghost use Rattle.helpers.specs.declared.columns.Change.TheVariants.{Holds};
ghost use Rattle.helpers.specs.Table.{row_of};
ghost use Rattle.check_register_kinds.specs.declared.freeze_name.FreezeName.TheVariants as names;
ghost use Rattle.check_helper_calls.specs.Arguments.{IsPlace, IsSureFreeze, MayCall, MeetsNeed};
ghost use Rattle.check_helper_calls.specs.Calls.{CallFollows, CallIsNeverStuck, Changes, HoldsGiven, MayChange, MayPass, Obeys, Passes, after_call_kinds, WritesFrom};
ghost use Rattle.check_description.specs.Description.{Describes, DescribesWith, kind_at};
ghost use Rattle.check_helper_calls.specs.Called.{CanCall, IsGivenAs, LeavesAnswer, LeavesCalled, LeavesChanged, LeavesFirstGivenUp, LeavesFirstWritten, LeavesOver};
ghost use Rattle.check_description.specs.Memory.{ChangesStack};
ghost use Rattle.check_register_kinds.specs.Freezes.{FreezeNumbers, certainty_of, open_freeze, renumbered};
ghost use Rattle.check_register_kinds.specs.Kinds.{HoldsKind, IsKnown, IsNumberWithin};
ghost use Rattle.check_helper_calls.specs.Fresh.{IsFresh};

use crate::arguments::{arguments, check_arguments};
use crate::saved::is_saved;
use bpf_insn::Reg;
use bpf_semantics::MAX_HELD;
use check_description::{Description, SavedRegisters};
use check_register_kinds::{
    Cause, Certainty, FreezeName, GREATEST_FREEZE, HeldFreeze, Kind, Region,
};
use helpers::{Change, Gives, Helper, HelperLimits, Needs};
use scalar_domain::Scalar;

/// Calls the helper of that number under these limits, where these functions wait. A freeze that it takes is named by
/// the place.
///
/// # Errors
/// `UnknownHelper`; `UnwrittenRegister` for an argument, and `ArgumentAgainstRule` for one that may not be as the
/// helper asks, `UnwrittenByte`, or `AddressStored`; `DisposedTwice`, and `TooManyFreezes`.
pub fn call(
    description: &mut Description,
    limits: &HelperLimits,
    callers: &[SavedRegisters],
    number: i32,
    place: u32,
) -> Result<(), Cause>
    ensures unstuck { IfOk result (λ _. CallIsNeverStuck limits.now number description.old) }
    ensures follows { IfOk result (λ _. CallFollows callers.now number description.old description.new) }
    ensures leaves { CanCall limits.now callers.now description.old (names.Call place) number → IsOkAnd result (λ _. LeavesCalled (names.Call place) description.old number description.new) }
    ensures depth { IfOk result (λ _. length description.new.stack ≡ length description.old.stack) }
{
    let Some(helper) = Helper::with_number(number) else {
        return Err(Cause::UnknownHelper);
    };
    let name = FreezeName::Call(place);
    check_call(description, limits, callers, helper, name)?;
    pass(description, helper, name);
    Ok(())
}

// Whether a call of the helper meets its rule, where a freeze that it takes gets that name.
fn check_call(
    description: &Description,
    limits: &HelperLimits,
    callers: &[SavedRegisters],
    helper: Helper,
    name: FreezeName,
) -> Result<(), Cause>
    ensures obeys { IfOk result (λ _. Obeys limits.now description.now helper) }
    ensures found { IfOk result (λ _. MayPass description.now name helper) }
    ensures fresh { IfOk result (λ _. (row_of helper).machine ≡ Holds → IsFresh name callers.now) }
    ensures suits { MayCall limits.now callers.now description.now name helper → IsOk result }
{
    if !limits.helpers.has(helper) {
        return Err(Cause::UnknownHelper);
    }
    let row = helper.row();
    let known = arguments(description, row.asks);
    check_arguments(description, limits, row.asks, &known)?;
    check_need(description, callers, row.needs, name)
}

// Whether what a helper needs of the run is so.
fn check_need(
    description: &Description,
    callers: &[SavedRegisters],
    needs: Needs,
    name: FreezeName,
) -> Result<(), Cause>
    ensures { IsOk result ↔ MeetsNeed callers.now description.now name needs }
{
    match needs {
        Needs::Nothing => Ok(()),
        Needs::Room => check_room(description, callers, name),
        Needs::Undisposed => check_waits(description),
    }
}

// Whether one freeze more may be held by this name. No freeze is held by it, nor is a copy of one saved: a path comes to
// its place once.
fn check_room(
    description: &Description,
    callers: &[SavedRegisters],
    name: FreezeName,
) -> Result<(), Cause>
    ensures { IsOk result ↔ ((length description.now.held < MAX_HELD) × (certainty_of description.now.held name ≡ None) × IsFresh name callers.now) }
{
    if description.held.len() < MAX_HELD
        && description.held.certainty(name).is_none()
        && !is_saved(callers, name)
    {
        Ok(())
    } else {
        Err(Cause::TooManyFreezes)
    }
}

// Whether the CCB is not disposed of.
fn check_waits(description: &Description) -> Result<(), Cause>
    ensures { IsOk result ↔ (description.now.disposed ≡ false) }
{
    if description.disposed {
        Err(Cause::DisposedTwice)
    } else {
        Ok(())
    }
}

// After a call of a helper, where a freeze that it took gets that name.
fn pass(description: &mut Description, helper: Helper, name: FreezeName)
    requires { MayPass description.old name helper }
    ensures passes { (callers : List SavedRegisters) → Passes name callers helper description.old description.new }
    ensures leaves { LeavesOver name helper description.old description.new }
{
    let row = helper.row();
    undergo(description, row.machine, name);
    answer(description, given(row.gives, name));
}

// What a call changes, but for R0 to R5. A freeze that was taken gets that name.
fn undergo(description: &mut Description, change: Change, name: FreezeName)
    requires { MayChange name change description.old }
    ensures changes { (callers : List SavedRegisters) → Changes name callers change description.old description.new }
    ensures leaves { LeavesChanged name change description.old description.new }
{
    match change {
        Change::Nothing => {}
        Change::Holds => hold(description, name),
        Change::GivesUp => give_up_first(description),
        Change::Disposes => description.disposed = true,
        Change::Writes { bytes } => write_first(description, bytes as u16),
    }
}

// The freeze that R1 holds is held no more, and its copies are no freeze any more.
fn give_up_first(description: &mut Description)
    requires { IsSureFreeze description.old (kind_at description.old R1) }
    ensures kept { (callers : List SavedRegisters) (freeze : ℕ) (m : MachineState) → Describes callers description.old m → register m R1 ≡ Some freeze → Describes callers description.new (record m { held = held_without m.held freeze }) }
    ensures leaves { LeavesFirstGivenUp description.old description.new }
{
    match description.kind(Reg::R1) {
        Kind::Freeze(name) => description.give_up(name, Scalar::within(1, GREATEST_FREEZE)),
        Kind::Unwritten | Kind::Number(_) | Kind::Address(_, _) => {}
    }
}

// So many bytes are written from R1's address on, and known to be where it is one address.
fn write_first(description: &mut Description, bytes: u16)
    requires place { IsPlace description.old bytes (kind_at description.old R1) }
    requires few { bytes ≤ 16 }
    ensures writes { WritesFrom R1 bytes description.old description.new }
    ensures leaves { LeavesFirstWritten bytes description.old description.new }
    ensures only { ChangesStack description.old description.new }
{
    match description.kind(Reg::R1) {
        Kind::Address(Region::Frame(frame), offsets) => description.write_in(frame, offsets, bytes),
        Kind::Address(Region::Context, _) | Kind::Unwritten | Kind::Number(_) | Kind::Freeze(_) =>
            {}
    }
}

// R0 is that, R1 to R5 are unwritten, and all else is as before.
fn answer(description: &mut Description, kind: Kind)
    ensures passes { (numbers : FreezeNumbers) (callers : List SavedRegisters) (r0 : ℕ) (m : MachineState) → DescribesWith numbers callers description.old m → HoldsKind numbers kind (Some r0) → DescribesWith numbers callers description.new (called m r0) }
    ensures leaves { LeavesAnswer kind description.old description.new }
{
    description.registers = after_call(description.registers, kind);
    description.loaded = None;
}

// The registers after a call: R0 is the answer and R1 to R5 are unwritten.
fn after_call(registers: [Kind; 11], r0: Kind) -> [Kind; 11]
    ensures { result ≡ after_call_kinds registers r0 }
{
    let mut after = registers;
    after[0] = r0;
    after[1] = Kind::Unwritten;
    after[2] = Kind::Unwritten;
    after[3] = Kind::Unwritten;
    after[4] = Kind::Unwritten;
    after[5] = Kind::Unwritten;
    after
}

// What R0 is by what a helper gives: a freeze has that name.
fn given(gives: Gives, name: FreezeName) -> Kind
    ensures holds { HoldsGiven name gives result }
    ensures leaves { IsGivenAs name gives result }
{
    match gives {
        Gives::Number { least, most } => number_within(least, most),
        Gives::NewFreeze => Kind::Freeze(name),
    }
}

// A number of this range, known where it is but one.
fn number_within(least: u64, most: u64) -> Kind
    ensures holds { (numbers : FreezeNumbers) (r0 : ℕ) → least ≤ r0 → r0 ≤ most → HoldsKind numbers result (Some r0) }
    ensures within { IsNumberWithin least most result }
    ensures known { least ≡ most → IsKnown least result }
{
    if least == most {
        Kind::exactly(least)
    } else {
        Kind::Number(Scalar::within(least, most))
    }
}

// A freeze was taken, or none was got: it is held by this name.
fn hold(description: &mut Description, name: FreezeName)
    requires room { length description.old.held < MAX_HELD }
    requires fresh { certainty_of description.old.held name ≡ None }
    ensures kept { (numbers : FreezeNumbers) (callers : List SavedRegisters) (number : ℕ) (m : MachineState) → IsFresh name callers → DescribesWith numbers callers description.old m → IsNewFreeze m.held number → DescribesWith (renumbered numbers name (Some number)) callers description.new (record m { held = held_with m.held number }) }
    ensures held { description.new ≡ record description.old { held = description.old.held ++ open_freeze name ∷ [] } }
{
    description.held.push(HeldFreeze {
        name,
        certainty: Certainty::Open,
    });
}
