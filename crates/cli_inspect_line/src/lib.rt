// The words that ask the program `camr_inspect` for something, and the plan that they ask for. It relies on `cli_line` for the
// command line, which both programs have, on `explain_codes` for codes, on `show_events` for which events are wanted, and on `show_question`
// for what is asked of a policy.
#![tactic(auto)]

mod deciding;
mod plans;
mod reported;
mod showing;
mod trying;
mod words;

pub use plans::{Drawing, Extent, Form, Plan};
pub use words::plan;
