// What is known of the arguments of a helper call, and whether each is as the helper asks. It relies on `check_description` and
// `check_register_kinds`, and on `helpers` for what is asked.

ghost use Rattle.std.specs.Prelude.{◌≡◌, ◌↔◌, ℕ, ◌+◌, ◌<◌, ◌≤◌, List, length, slice_index_or, IfOk, IsOk, IsTrue};
ghost use Rattle.bpf_insn.specs.declared.reg.Reg.TheVariants.{R1, R2, R3};
ghost use Rattle.bpf_semantics.specs.Calls.{argument};
ghost use Rattle.bpf_semantics.specs.MachineState.{MachineState};
ghost use Rattle.check_helper_calls.specs.Arguments.{AllFit, AllSuit, AreKnownOf, AreToldBytes, ArgumentMatches, ArgumentMatchesAny, HasBytes, PointsToRoom, HasWords, IsKnownOf, IsPlace, IsSureFreeze, IsWrittenPlace, Shows, ShowsAny, ArgumentIsChecked, SuitsAny};
ghost use Rattle.check_description.specs.Description.{DescribesWith, kind_at};
ghost use Rattle.check_description.specs.Spills.{AreUnspilled};
ghost use Rattle.check_register_kinds.specs.declared.region.Region.TheVariants.{Frame};
ghost use Rattle.check_description.specs.declared.saved.SavedRegisters.{SavedRegisters};
ghost use Rattle.check_register_kinds.specs.Freezes.{FreezeNumbers};
ghost use Rattle.check_register_kinds.specs.Kinds.{HoldsKind, IsKnown};

use bpf_insn::Reg;
use check_description::Description;
use check_register_kinds::{Cause, Certainty, Kind, Offsets, Region};
use helpers::{ArgKind, Asks, HelperLimits};
use scalar_domain::Scalar;

/// How many bytes a frame has.
const FRAME_BYTES: u64 = 512;

/// What is known of R1, R2 and R3 where a helper is called. One that it does not take counts as 0.
#[derive(Clone, Copy, Debug)]
pub struct Known {
    pub first: Kind,
    pub second: Kind,
    pub third: Kind,
}

/// What is known of the arguments of a helper that asks this.
pub(crate) fn arguments(description: &Description, asks: Asks) -> Known
    ensures first { (numbers : FreezeNumbers) (callers : List SavedRegisters) (m : MachineState) → DescribesWith numbers callers description.now m → HoldsKind numbers result.first (argument m asks.first R1) }
    ensures second { (numbers : FreezeNumbers) (callers : List SavedRegisters) (m : MachineState) → DescribesWith numbers callers description.now m → HoldsKind numbers result.second (argument m asks.second R2) }
    ensures third { (numbers : FreezeNumbers) (callers : List SavedRegisters) (m : MachineState) → DescribesWith numbers callers description.now m → HoldsKind numbers result.third (argument m asks.third R3) }
    ensures known { AreKnownOf description.now asks result }
{
    Known {
        first: argument(description, asks.first, Reg::R1),
        second: argument(description, asks.second, Reg::R2),
        third: argument(description, asks.third, Reg::R3),
    }
}

// What is known of an argument; one that the helper does not take counts as 0.
fn argument(description: &Description, asked: Option<ArgKind>, reg: Reg) -> Kind
    ensures holds { (numbers : FreezeNumbers) (callers : List SavedRegisters) (m : MachineState) → DescribesWith numbers callers description.now m → HoldsKind numbers result (argument m asked reg) }
    ensures known { IsKnownOf asked (kind_at description.now reg) result }
{
    match asked {
        Some(_) => description.kind(reg),
        None => Kind::exactly(0),
    }
}

/// Whether all arguments are written and as asked.
///
/// # Errors
/// - `UnwrittenRegister`.
/// - `ArgumentAgainstRule`; where nothing else is wrong, one of the next two.
/// - `UnwrittenByte` where bytes that are read are unwritten.
/// - `AddressStored` where the word that is to be stored in a table is no number, or bytes that are read may be of an
///   address or a freeze.
pub(crate) fn check_arguments(
    description: &Description,
    limits: &HelperLimits,
    asks: Asks,
    known: &Known,
) -> Result<(), Cause>
    ensures fit { IfOk result (λ _. AllFit limits.now description.now asks known.now) }
    ensures shows { IfOk result (λ _. ShowsAny description.now asks.first known.now.first) }
    ensures suit { AllSuit limits.now description.now asks known.now → IsOk result }
{
    if !(known.first.is_written() && known.second.is_written() && known.third.is_written()) {
        return Err(Cause::UnwrittenRegister);
    }
    check_any(description, limits, known, asks.first, known.first)?;
    check_any(description, limits, known, asks.second, known.second)?;
    check_any(description, limits, known, asks.third, known.third)
}

// Whether an argument is as asked; one that the helper does not take may be anything.
fn check_any(
    description: &Description,
    limits: &HelperLimits,
    known: &Known,
    asked: Option<ArgKind>,
    kind: Kind,
) -> Result<(), Cause>
    ensures fits { IfOk result (λ _. ArgumentMatchesAny limits.now description.now known.now asked kind) }
    ensures shows { IfOk result (λ _. ShowsAny description.now asked kind) }
    ensures suits { SuitsAny limits.now description.now known.now asked kind → IsOk result }
{
    match asked {
        Some(asked) => check_argument(description, limits, known, asked, kind),
        None => Ok(()),
    }
}

// Whether an argument is as asked.
fn check_argument(
    description: &Description,
    limits: &HelperLimits,
    known: &Known,
    asked: ArgKind,
    kind: Kind,
) -> Result<(), Cause>
    ensures fits { IfOk result (λ _. ArgumentMatches limits.now description.now known.now asked kind) }
    ensures shows { IfOk result (λ _. Shows description.now asked kind) }
    ensures suits { ArgumentIsChecked limits.now description.now known.now asked kind → IsOk result }
{
    match asked {
        ArgKind::Bytes => check_bytes(description, kind, known.second),
        ArgKind::Word if !kind.is_number() => Err(Cause::AddressStored),
        _ => told(is_fit(description, limits, known, asked, kind)),
    }
}

// Whether an argument is as asked, where it is not the address of bytes that are read.
fn is_fit(
    description: &Description,
    limits: &HelperLimits,
    known: &Known,
    asked: ArgKind,
    kind: Kind,
) -> bool
    ensures fits { IsTrue result → ArgumentMatches limits.now description.now known.now asked kind }
    ensures shows { IsTrue result → Shows description.now asked kind }
    ensures suits { (asked ≡ ArgKind.Bytes → ⊥) → ArgumentIsChecked limits.now description.now known.now asked kind → IsTrue result }
{
    match asked {
        ArgKind::Queue => kind.lies_below(u64::from(limits.queues)),
        ArgKind::HeldFreeze => is_sure_freeze(description, kind),
        ArgKind::Within { least, most } => kind.lies_within(least, most),
        ArgKind::Table => kind.lies_below(limits.table_lengths.as_slice().len() as u64),
        ArgKind::Index => kind.lies_below(words_of(limits.table_lengths.as_slice(), known.first)),
        ArgKind::Word => kind.is_number(),
        ArgKind::Room { bytes } => has_room(description, kind, bytes),
        ArgKind::Bytes => false,
    }
}

// Whether it is a freeze that is held, and sure not to be 0.
fn is_sure_freeze(description: &Description, kind: Kind) -> bool
    ensures { IsTrue result ↔ IsSureFreeze description.now kind }
{
    match kind {
        Kind::Freeze(name) => description.held.certainty(name) == Some(Certainty::Sure),
        Kind::Unwritten | Kind::Number(_) | Kind::Address(_, _) => false,
    }
}

// Whether so many bytes lie in one live frame, wherever the address is.
fn has_room(description: &Description, kind: Kind, bytes: u64) -> bool
    ensures room { IsTrue result → PointsToRoom description.now kind bytes }
    ensures place { IsTrue result ↔ IsPlace description.now bytes kind }
{
    match kind {
        Kind::Address(region, offsets) => region_has_room(description, region, offsets, bytes),
        _ => false,
    }
}

// Whether so many bytes lie in one live frame, wherever in its region an address is.
fn region_has_room(description: &Description, region: Region, offsets: Offsets, bytes: u64) -> bool
    ensures room { IsTrue result → PointsToRoom description.now (Kind.Address region offsets) bytes }
    ensures place { IsTrue result ↔ IsPlace description.now bytes (Kind.Address region offsets) }
{
    match region {
        Region::Context => false,
        Region::Frame(frame) => lies_in(description, frame, offsets, bytes),
    }
}

// Whether so many bytes lie in a live frame that begin at any of these offsets.
fn lies_in(description: &Description, frame: u8, offsets: Offsets, bytes: u64) -> bool
    ensures live { IsTrue result → frame < length description.now.stack }
    ensures order { IsTrue result → offsets.least ≤ offsets.most }
    ensures inside { IsTrue result → offsets.most + bytes ≤ 512 }
    ensures fits { frame < length description.now.stack → offsets.least ≤ offsets.most → offsets.most + bytes ≤ 512 → IsTrue result }
{
    usize::from(frame) < description.stack.depth()
        && offsets.least <= offsets.most
        && bytes <= FRAME_BYTES
        && u64::from(offsets.most) + bytes <= FRAME_BYTES
}

// Whether bytes are written, as many as the length may say, wherever the address is.
fn check_bytes(description: &Description, kind: Kind, length: Kind) -> Result<(), Cause>
    ensures bytes { IfOk result (λ _. HasBytes description.now kind length) }
    ensures told { AreToldBytes description.now kind length → IsOk result }
{
    match length {
        Kind::Number(scalar) => check_most(description, kind, scalar),
        _ => Err(Cause::ArgumentAgainstRule),
    }
}

// Whether so many bytes are written, wherever the address is.
fn check_most(description: &Description, kind: Kind, length: Scalar) -> Result<(), Cause>
    ensures bytes { IfOk result (λ _. HasBytes description.now kind (Kind.Number length)) }
    ensures told { IsWrittenPlace description.now length.unsigned.most kind → IsOk result }
{
    match kind {
        Kind::Address(region, offsets) => check_region(description, region, offsets, length),
        _ => Err(Cause::ArgumentAgainstRule),
    }
}

// Whether so many bytes are written, wherever in its region an address is.
fn check_region(
    description: &Description,
    region: Region,
    offsets: Offsets,
    length: Scalar,
) -> Result<(), Cause>
    ensures bytes { IfOk result (λ _. HasBytes description.now (Kind.Address region offsets) (Kind.Number length)) }
    ensures told { IsWrittenPlace description.now length.unsigned.most (Kind.Address region offsets) → IsOk result }
{
    match region {
        Region::Context => Err(Cause::ArgumentAgainstRule),
        Region::Frame(frame) => check_written(description, frame, offsets, length),
    }
}

// Whether so many bytes of a frame are written, and are no address and no freeze.
fn check_written(
    description: &Description,
    frame: u8,
    offsets: Offsets,
    length: Scalar,
) -> Result<(), Cause>
    ensures bytes { IfOk result (λ _. HasBytes description.now (Kind.Address (Frame frame) offsets) (Kind.Number length)) }
    ensures told { IsWrittenPlace description.now length.unsigned.most (Kind.Address (Frame frame) offsets) → IsOk result }
    ensures unspilled { IfOk result (λ _. AreUnspilled description.now.spills frame offsets.least (offsets.most + length.unsigned.most)) }
{
    let bytes = length.most();
    if !lies_in(description, frame, offsets, bytes) {
        return Err(Cause::ArgumentAgainstRule);
    }
    let least = usize::from(offsets.least);
    let most = usize::from(offsets.most);
    if !description
        .stack
        .is_written(usize::from(frame), least, most, bytes as usize)
    {
        return Err(Cause::UnwrittenByte);
    }
    if description.may_be_spilled(frame, offsets, bytes as u16) {
        Err(Cause::AddressStored)
    } else {
        Ok(())
    }
}

// What is told of an argument.
fn told(is_fit: bool) -> Result<(), Cause>
    ensures ok { IsOk result → IsTrue is_fit }
    ensures fit { IsTrue is_fit → IsOk result }
{
    if is_fit {
        Ok(())
    } else {
        Err(Cause::ArgumentAgainstRule)
    }
}

// How many words a table has that is known by one number, and 0 where it is not known or not there.
fn words_of(lengths: &[u16], table: Kind) -> u64
    ensures words { HasWords lengths.now table result }
    ensures known { (number : ℕ) → IsKnown number table → result ≡ slice_index_or lengths.now number 0 }
{
    match table.known() {
        Some(number) => length_of(lengths, number),
        None => 0,
    }
}

// The length of a table, and 0 where it is not there.
fn length_of(lengths: &[u16], table: u64) -> u64
    ensures { result ≡ slice_index_or lengths.now table 0 }
{
    match lengths.get(table as usize) {
        Some(length) => u64::from(*length),
        None => 0,
    }
}
