// Reads what stands after the first line of a continued trace, up to its first record. It relies on `carried_lines` for lines and their
// order.

ghost use Rattle.std.specs.Prelude.{◌≡◌, ◌≢◌, ◌+◌, ◌++◌, ◌∷◌, ◌<◌, ◌^◌, [], IfNone, IfSome, OnOk, Some, length};
ghost use Rattle.std.specs.Fmt.{option_append, with_newline};
ghost use Rattle.carried_lines.specs.CarriedText.{carried_text};
ghost use Rattle.whole_trace.specs.Continued.{HasNoCarried, SaysCarried};

use base::OrMemory;
use carried_lines::{Order, read_carried};
use std::alloc::AllocError;
use trace::{TraceError, TraceFault};
use world_calls::{CarriedLine, Version};

/// The number of the line after the first one.
pub(crate) const SECOND: usize = 2;

/// Reads the carried lines of a version with which a text begins, and returns what stands after them. The fault is the first line that is not of the
/// form, if that is seen here: a carried line that is out of order, or another line before they are all there.
pub(crate) fn read_lines<'a>(
    version: Version,
    lines: &mut Vec<CarriedLine>,
    text: &'a str,
) -> Result<&'a str, TraceError>
    requires none { lines.old.items ≡ [] }
    requires numbers { SECOND + length text.now < 2 ^ 64 }
    ensures { SaysCarried version text.now lines.new.items result }
{
    let mut order = Order::new();
    let (mut rest, mut number) = (text, SECOND);
    while let Some((line, after)) = next_line(version, rest) {
        if !order.take(&line) {
            return Err(OrMemory::Fault(TraceFault::Line(number)));
        }
        keep(lines, line)?;
        rest = after;
        number += 1;
    }
    if order.is_complete() {
        Ok(rest)
    } else {
        Err(OrMemory::Fault(TraceFault::Line(number)))
    }
}

// One line more.
fn keep(lines: &mut Vec<CarriedLine>, line: CarriedLine) -> Result<(), AllocError>
    ensures { OnOk result (lines.new.items ≡ lines.old.items ++ line ∷ []) }
{
    Ok(lines.push(line)?)
}

// The carried line of a version with which a text begins, and what stands after its line feed.
fn next_line(version: Version, text: &str) -> Option<(CarriedLine, &str)>
    ensures some { IfSome result (λ it. option_append (with_newline (carried_text version it.0)) (Some it.1.now) ≡ Some text.now) }
    ensures shorter { IfSome result (λ it. length it.1.now < length text.now) }
    ensures none { IfNone result (HasNoCarried version text.now) }
{
    let (line, rest) = text.split_once('\n')?;
    match read_carried(version, line) {
        Some(line) => Some((line, rest)),
        None => None,
    }
}
