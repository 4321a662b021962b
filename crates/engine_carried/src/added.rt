// Adding a line to those that are there.

ghost use Rattle.std.specs.Prelude.{◌≡◌, ◌++◌, [], ◌∷◌, OnOk};

use std::alloc::AllocError;
use world_calls::CarriedLine;

/// Adds a line after those that are there.
pub(crate) fn add(lines: &mut Vec<CarriedLine>, line: CarriedLine) -> Result<(), AllocError>
    ensures { OnOk result (lines.new.items ≡ lines.old.items ++ line ∷ []) }
{
    lines.push(line)?;
    Ok(())
}
