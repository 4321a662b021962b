// The first line of a segment, which says the version of its records, and whether carried lines come after it. It relies on nothing.

ghost use Rattle.std.specs.Prelude.{◌≡◌, ◌≢◌, ◌++◌, ◌∷◌, [], MatchOption};
ghost use Rattle.host_recovery.specs.Carries.{IsFirstFault, first_text};
ghost use Rattle.host_recovery.specs.LinesRead.{IsOneLine};
ghost use Rattle.host_recovery.specs.declared.first_line.First.{First as TheFirst};

use replay::ReplayFault;
use world_calls::Version;

/// A first line.
#[derive(Clone, Copy, Debug, PartialEq, Eq)]
pub(crate) enum First {
    /// That of an engine which took over nothing.
    Plain(Version),
    /// That of an engine which took over what the carried lines say.
    Continued(Version),
}

/// The first line that this line is, which stands without its line feed.
pub(crate) fn first_of_line(line: &[u8]) -> Option<First>
    requires { IsOneLine line.now }
    ensures { MatchOption result ((first : TheFirst) → line.now ++ 10 ∷ [] ≢ first_text first) (λ first. line.now ++ 10 ∷ [] ≡ first_text first) }
{
    if line == b"camr-trace 1".as_slice() {
        Some(First::Plain(Version::One))
    } else if line == b"camr-trace 2".as_slice() {
        Some(First::Plain(Version::Two))
    } else if line == b"camr-trace 3".as_slice() {
        Some(First::Plain(Version::Three))
    } else if line == b"camr-trace 1 continued".as_slice() {
        Some(First::Continued(Version::One))
    } else if line == b"camr-trace 2 continued".as_slice() {
        Some(First::Continued(Version::Two))
    } else if line == b"camr-trace 3 continued".as_slice() {
        Some(First::Continued(Version::Three))
    } else {
        None
    }
}

/// X3 of the first line, if it is of another version than the configuration.
pub(crate) fn first_fault(version: Version, its: Version) -> Option<ReplayFault>
    ensures { IsFirstFault version its result }
{
    if version == its {
        None
    } else {
        Some(ReplayFault::Header)
    }
}
