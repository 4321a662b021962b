// The first line of a trace that begins with carried lines. It relies on `world_calls` for versions.

ghost use Rattle.std.specs.Prelude.{◌≡◌};
ghost use Rattle.carried_lines.specs.FirstLine.{continued_header};

use world_calls::Version;

/// The first line of a trace that begins with carried lines, with its line feed.
pub fn continued_header(version: Version) -> &'static str
    ensures { result.now ≡ continued_header version }
{
    match version {
        Version::One => "camr-trace 1 continued\n",
        Version::Two => "camr-trace 2 continued\n",
        Version::Three => "camr-trace 3 continued\n",
    }
}
