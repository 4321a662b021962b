// Prints the front of a continued trace, before its first record. It relies on `carried_lines` for lines.

ghost use Rattle.std.specs.Prelude.{◌≡◌, ◌++◌, ℕ, List, Some, IfErr, IfOk, IsTrue, OnOk};
ghost use Rattle.std.specs.Fmt.{option_append, with_newline};
ghost use Rattle.base.specs.declared.or_memory.OrMemory.TheVariants.{Fault};
ghost use Rattle.carried_lines.specs.CarriedText.{carried_text, is_unspelled};
ghost use Rattle.whole_trace.specs.Front.{IsUnprinted, IsUntold, front_text};

use base::OrMemory;
use carried_lines::{continued_header, print_carried};
use std::alloc::Global;
use trace_lines::{NoText, Text};
use world_calls::{CarriedLine, Version};

/// Returns the first line of a continued trace of that version and these carried lines, each with its line feed. The fault is that one of
/// the lines has no text in that version: it says that a run holds a freeze, or has a class or an advice where CCBs have none.
pub fn print_front(
    alloc: Global,
    version: Version,
    lines: &[CarriedLine],
) -> Result<Vec<u8>, OrMemory<NoText>>
    ensures front { IfOk result (λ bytes. front_text version lines.now ≡ Some bytes.items) }
    ensures refused { IfErr result (IsUnprinted version lines.now) }
{
    let mut bytes = Vec::new(alloc);
    bytes.extend_from_slice(continued_header(version).as_bytes())?;
    for line in lines {
        match add_line(version, &mut bytes, line) {
            Ok(()) => {}
            Err(fault) => return Err(fault),
        }
    }
    Ok(bytes)
}

// Adds a carried line with its line feed.
fn add_line(
    version: Version,
    bytes: &mut Vec<u8>,
    line: &CarriedLine,
) -> Result<(), OrMemory<NoText>>
    ensures added { OnOk result ((text : List ℕ) × (with_newline (carried_text version line.now) ≡ Some text) × (bytes.new.items ≡ bytes.old.items ++ text)) }
    ensures refused { IfErr result (IsUntold version line.now) }
{
    let mut text = Text::none();
    match print_carried(version, line, &mut text) {
        Ok(()) => {
            text.push(b'\n');
            Ok(bytes.extend_from_slice(text.as_slice())?)
        }
        Err(NoText) => Err(OrMemory::Fault(NoText)),
    }
}
