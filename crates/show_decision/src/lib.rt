// What a queue's policy decides of a failed command, in words: a line a call, or a table of all sense data. It relies on `host_decision` for
// runs and what came of them, and on `show_account` for the words of lines.
#![tactic(auto)]

mod decisions;
mod printing;
mod rows;
mod sense;
mod table;
mod undecided;
mod words;
mod writing;

pub use printing::decide;
pub use table::decide_all;
pub use undecided::put_undecided;
