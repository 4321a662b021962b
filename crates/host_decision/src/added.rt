// One line more.

ghost use Rattle.std.specs.Prelude.{◌≡◌, ◌++◌, [], ◌∷◌, OnOk};

use std::alloc::AllocError;
use world_calls::CarriedLine;

/// Adds a line after the others.
pub(crate) fn add(lines: &mut Vec<CarriedLine>, line: CarriedLine) -> Result<(), AllocError>
    ensures { OnOk result (lines.new.items ≡ lines.old.items ++ line ∷ []) }
{
    lines.push(line)?;
    Ok(())
}
