// The scenario: what happens to a transport, one command a line, and the reader of its text. It relies on `trace_lines` for the lines
// of calls.
#![tactic(auto)]

mod command;
mod reading;
mod scenario;
mod steps;

pub use command::{Command, is_of_run};
pub use reading::{FaultyLine, ScenarioError, is_skipped, read};
pub use scenario::Scenario;
pub use steps::{Step, Steps};
