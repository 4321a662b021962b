// What lines may say in a version's texts. It relies on `world_calls` for versions.

ghost use Rattle.std.specs.Prelude.{◌≡◌};
ghost use Rattle.trace_lines.specs.Versions.{has_classes};

use world_calls::Version;

/// Whether CCBs have a class and an advice in the texts of a version.
pub fn has_classes(version: Version) -> bool
    ensures { result ≡ has_classes version }
{
    match version {
        Version::One => false,
        Version::Two => false,
        Version::Three => true,
    }
}
