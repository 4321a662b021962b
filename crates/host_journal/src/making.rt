// What a segment that is to be made begins with: its text, and the engine. It relies on `engine_succession` for an engine that takes over
// what another one left, and on `whole_trace` for the text of that.

ghost use Rattle.std.specs.Prelude.{◌≡◌, [], IfErr, IfOk, None, Some};
ghost use Rattle.trace.specs.TraceText.{header};
ghost use Rattle.world.specs.World.{version_of};
ghost use Rattle.engine_core.specs.ByNumber.{IsBehind};
ghost use Rattle.whole_trace.specs.Continued.{items_of};
ghost use Rattle.whole_trace.specs.Front.{front_text};
ghost use Rattle.host_recovery.specs.SetupFor.{carried_count};
ghost use Rattle.host_journal.specs.Made.{AreRefused, AreUnfit, IsFirstEngine, IsUnbegun, front_of};
ghost use Rattle.base.specs.declared.or_memory.OrMemory.TheVariants.{OutOfMemory};

use crate::beginning::Begun;
use crate::fault::{JournalError, JournalFault};
use base::OrMemory;
use engine_core::{Config, NumberedEngine};
use engine_succession::{BeginFault, begin_numbered};
use std::alloc::{AllocError, Global};
use trace::header;
use trace_lines::NoText;
use whole_trace::print_front;
use world_calls::{CarriedLine, Version};

/// Returns the text with which the segment begins: its first line, and the carried lines, if it follows another one.
pub fn first_text(alloc: Global, begun: &Begun<'_>) -> Result<Vec<u8>, JournalError>
    ensures first { IfOk result (λ bytes. front_of begun.now.config (items_of begun.now.carried) ≡ Some bytes.items) }
    ensures refused { IfErr result (IsUnbegun begun.now) }
{
    match &begun.carried {
        Some(lines) => carried_text(alloc, &begun.config, lines),
        None => header_text(alloc, Version::of(begun.config.helpers())),
    }
}

// Returns the first line.
fn header_text(alloc: Global, version: Version) -> Result<Vec<u8>, JournalError>
    ensures first { IfOk result (λ bytes. bytes.items ≡ header version) }
    ensures refused { IfErr result (λ error. error ≡ OutOfMemory) }
{
    let first = header(version);
    let mut bytes = Vec::with_capacity(alloc, first.len())?;
    bytes.extend_from_slice(first.as_bytes())?;
    Ok(bytes)
}

/// Returns the first line of the continued trace of an engine of this configuration, and these lines.
pub(crate) fn carried_text(
    alloc: Global,
    config: &Config,
    lines: &[CarriedLine],
) -> Result<Vec<u8>, JournalError>
    ensures first { IfOk result (λ bytes. front_text (version_of config.now) lines.now ≡ Some bytes.items) }
    ensures refused { IfErr result (AreUnfit (version_of config.now) lines.now) }
{
    text_in(alloc, Version::of(config.helpers()), lines)
}

// The same in a version.
fn text_in(alloc: Global, version: Version, lines: &[CarriedLine]) -> Result<Vec<u8>, JournalError>
    ensures first { IfOk result (λ bytes. front_text version lines.now ≡ Some bytes.items) }
    ensures refused { IfErr result (AreUnfit version lines.now) }
{
    match print_front(alloc, version, lines) {
        Ok(bytes) => Ok(bytes),
        Err(OrMemory::OutOfMemory) => Err(OrMemory::OutOfMemory),
        Err(OrMemory::Fault(NoText)) => Err(OrMemory::Fault(JournalFault::InternalError)),
    }
}

/// Returns how many carried lines the text has with which the segment begins.
pub(crate) fn carried_count(begun: &Begun<'_>) -> u64
    ensures { result ≡ carried_count (items_of begun.now.carried) }
{
    match &begun.carried {
        Some(lines) => lines.len() as u64,
        None => 0,
    }
}

/// Returns the engine with which the segment begins, of which no record was made.
pub fn first_engine<'a>(
    alloc: Global,
    begun: &'a Begun<'_>,
) -> Result<NumberedEngine<'a>, JournalError>
    ensures begun { IfOk result (IsFirstEngine begun.now.config (items_of begun.now.carried)) }
    ensures behind { IfOk result (IsBehind []) }
    ensures refused { IfErr result (IsUnbegun begun.now) }
{
    match &begun.carried {
        Some(lines) => carried_engine(alloc, &begun.config, lines),
        None => opened_engine(alloc, &begun.config),
    }
}

// Returns an engine that takes over nothing.
fn opened_engine(alloc: Global, config: &Config) -> Result<NumberedEngine<'_>, JournalError>
    ensures begun { IfOk result (IsFirstEngine config.now None) }
    ensures behind { IfOk result (IsBehind []) }
    ensures refused { IfErr result (λ error. error ≡ OutOfMemory) }
{
    match NumberedEngine::open(alloc, config) {
        Ok(engine) => Ok(engine),
        Err(AllocError) => Err(OrMemory::OutOfMemory),
    }
}

// Returns an engine that takes over what these lines say.
fn carried_engine<'a>(
    alloc: Global,
    config: &'a Config,
    lines: &[CarriedLine],
) -> Result<NumberedEngine<'a>, JournalError>
    ensures begun { IfOk result (IsFirstEngine config.now (Some lines.now)) }
    ensures behind { IfOk result (IsBehind []) }
    ensures refused { IfErr result (AreRefused config.now lines.now) }
{
    match begin_numbered(alloc, config, lines) {
        Ok(engine) => Ok(engine),
        Err(BeginFault::OutOfMemory) => Err(OrMemory::OutOfMemory),
        Err(BeginFault::DoesNotFit(_)) => Err(OrMemory::Fault(JournalFault::InternalError)),
    }
}
