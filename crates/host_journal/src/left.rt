// What the segment after one may begin with, and whether it does. It relies on `engine_carried` for what an engine leaves, on `making`
// for the text of that, and on `comparing` for the bytes of a segment.

ghost use Rattle.std.specs.Prelude.{◌≡◌, ◌↔◌, [], IfErr, IfOk, IsTrue};
ghost use Rattle.engine_succession.specs.Numbered.{MayBeFollowedBy};
ghost use Rattle.world.specs.World.{version_of};
ghost use Rattle.host_journal.specs.Disks.{IsQuiet};
ghost use Rattle.host_journal.specs.Linked.{HasFront, IsFrontOf, IsFrontUnder, IsLeft, IsUnprintable, Judges};
ghost use Rattle.host_journal.specs.Made.{AreUnfit};
ghost use Rattle.host_journal.specs.Starts.{IsUnreadSegment};

use crate::comparing::segment_begins_with;
use crate::disk::Disk;
use crate::fault::JournalError;
use crate::making::carried_text;
use base::OrMemory;
use engine_carried::{Numbering, carried_lines_numbered, fits_numbered};
use engine_core::{Config, NumberedEngine};
use std::alloc::{AllocError, Global};
use world_calls::CarriedLine;

/// The text before the first record of a segment that follows another one, under one numbering, and how many carried lines it has.
#[derive(Drop)]
pub(crate) struct FrontText {
    pub(crate) bytes: Vec<u8>,
    pub(crate) carried: u64,
}

/// What the segment may begin with that follows the segment of an engine.
#[derive(Drop)]
pub(crate) enum Left {
    /// No engine follows this one.
    Nothing,
    /// One of these texts.
    Fronts { same: FrontText, fresh: FrontText },
}

/// Returns what a segment of this configuration may begin with that follows the segment of the engine.
pub(crate) fn left_by(
    alloc: Global,
    engine: &NumberedEngine<'_>,
    config: &Config,
) -> Result<Left, JournalError>
    ensures left { IfOk result (IsLeft engine.now config.now) }
    ensures refused { IfErr result (IsUnprintable engine.now config.now) }
{
    if may_be_followed(engine, config) {
        fronts(alloc, engine, config)
    } else {
        Ok(Left::Nothing)
    }
}

// Returns whether an engine of this configuration may follow the engine.
fn may_be_followed(engine: &NumberedEngine<'_>, config: &Config) -> bool
    ensures { IsTrue result ↔ MayBeFollowedBy engine.now config.now }
{
    engine.runs().len() == 0 && fits_numbered(engine, config)
}

// Returns the texts under both numberings.
fn fronts(alloc: Global, engine: &NumberedEngine<'_>, config: &Config) -> Result<Left, JournalError>
    requires { MayBeFollowedBy engine.now config.now }
    ensures left { IfOk result (IsLeft engine.now config.now) }
    ensures refused { IfErr result (IsUnprintable engine.now config.now) }
{
    let same = match front_under(alloc, engine, config, Numbering::Same) {
        Ok(front) => front,
        Err(error) => return Err(error),
    };
    match front_under(alloc, engine, config, Numbering::Fresh) {
        Ok(fresh) => Ok(Left::Fronts { same, fresh }),
        Err(error) => Err(error),
    }
}

// Returns the text under one numbering.
fn front_under(
    alloc: Global,
    engine: &NumberedEngine<'_>,
    config: &Config,
    numbering: Numbering,
) -> Result<FrontText, JournalError>
    requires { MayBeFollowedBy engine.now config.now }
    ensures front { IfOk result (IsFrontUnder numbering engine.now config.now) }
    ensures refused { IfErr result (IsUnprintable engine.now config.now) }
{
    match carried_lines_numbered(alloc, engine, config, numbering) {
        Ok(lines) => front_of(alloc, config, &lines),
        Err(AllocError) => Err(OrMemory::OutOfMemory),
    }
}

// Returns the text with these carried lines.
fn front_of(
    alloc: Global,
    config: &Config,
    lines: &[CarriedLine],
) -> Result<FrontText, JournalError>
    ensures front { IfOk result (IsFrontOf config.now lines.now) }
    ensures refused { IfErr result (AreUnfit (version_of config.now) lines.now) }
{
    match carried_text(alloc, config, lines) {
        Ok(bytes) => Ok(FrontText {
            bytes,
            carried: lines.len() as u64,
        }),
        Err(error) => Err(error),
    }
}

/// Returns whether the segment of that number, which has so many carried lines, begins with what was left.
pub(crate) fn begins_with<D: Disk>(
    disk: &mut D,
    number: u64,
    carried: u64,
    left: &Left,
) -> Result<bool, JournalError>
    ensures judged { IfOk result (Judges ((D.held disk.old).segments number) carried left.now) }
    ensures held { D.held disk.new ≡ D.held disk.old }
    ensures quiet { IsQuiet (D.steps disk.old) (D.steps disk.new) }
    ensures refused { IfErr result (IsUnreadSegment number ((D.held disk.old).segments number) (D.steps disk.old) (D.steps disk.new)) }
{
    match left {
        Left::Nothing => Ok(false),
        Left::Fronts { same, fresh } => match has_front(disk, number, carried, same) {
            Ok(true) => Ok(true),
            Ok(false) => has_front(disk, number, carried, fresh),
            Err(error) => Err(error),
        },
    }
}

// Returns whether it begins with that text.
fn has_front<D: Disk>(
    disk: &mut D,
    number: u64,
    carried: u64,
    front: &FrontText,
) -> Result<bool, JournalError>
    ensures judged { IfOk result (HasFront ((D.held disk.old).segments number) carried front.now) }
    ensures held { D.held disk.new ≡ D.held disk.old }
    ensures quiet { IsQuiet (D.steps disk.old) (D.steps disk.new) }
    ensures refused { IfErr result (IsUnreadSegment number ((D.held disk.old).segments number) (D.steps disk.old) (D.steps disk.new)) }
{
    if carried != front.carried {
        return Ok(false);
    }
    segment_begins_with(disk, number, front.bytes.as_slice())
}
