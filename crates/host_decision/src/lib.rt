// What a queue's policy decides of a failed command, from an engine in which that one CCB is active. It relies on `engine_succession` for the
// engine, so that its run is one of the engine's, and on `show_question` for what is asked.
#![tactic(auto)]

mod added;
mod decided;
mod decision;
mod opening_lines;
mod opening_words;
mod ran;
mod undecided;

pub use decided::{Decided, decision_on, lines};
pub use decision::{Decision, End, LeftFreeze};
pub use ran::{Ran, run_from};
pub use undecided::{DecisionError, LAST_READING, Undecided, has_word};
