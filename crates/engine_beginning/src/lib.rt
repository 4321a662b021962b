// What an engine takes over from the engine before it, entered line by line: the first line that no engine could begin with after the
// lines before it is refused. It relies on `engine_config` for what the engine is opened with, on `engine_transport` for CCBs, freezes and
// the clock, and on `engine_runs` for tables.
#![tactic(auto)]

mod beginning;
mod laws;

pub use beginning::{Beginning, DoesNotFit};
pub use laws::{lines_are_exact, lines_go_on, says_its_lines};
