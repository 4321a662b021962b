// Cases of a program's tests as data: a command with its files, and what it has to show, in a text that people
// write by hand. It relies on `base` for escapes.
#![tactic(auto)]

mod calls;
mod case;
mod draft;
mod escapes;
mod fault;
mod given;
mod outcome;
mod reader;
mod text;

pub use case::{Case, File};
pub use fault::CaseError;
pub use outcome::Outcome;
pub use reader::read;
