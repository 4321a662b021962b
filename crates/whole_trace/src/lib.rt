// The text of a whole trace: of an engine that was opened, or of one that took over from another, whose records come after the lines of
// what was carried over. It relies on `trace` for records and the last line, and on `carried_lines` for the lines before them.
#![tactic(auto)]

mod continued;
mod front;
pub mod laws;
mod reader;

pub use front::print_front;
pub use reader::{WholeTrace, read};
