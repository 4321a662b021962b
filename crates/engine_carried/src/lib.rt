// What an engine leaves to the one that follows it: whether that fits another configuration, and its lines. It relies on `engine_core` for
// the engine, and on `engine_beginning` for what lines mean.
#![tactic(auto)]

mod added;
mod carried_ccbs;
mod carried_freezes;
mod carried_numbers;
mod carried_openings;
mod carried_words;
mod fitting;
mod freezes;
mod laws;
mod lines;
mod numbering;

pub use fitting::{fits, fits_numbered};
pub use laws::leaves_a_beginning;
pub use lines::{carried_lines, carried_lines_numbered};
pub use numbering::Numbering;
