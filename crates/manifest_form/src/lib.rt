// What a manifest has to be, by its form alone: its keys, the types and ranges of their values, how many entries
// there are and their names; and what it says then. It relies on `toml` for the document, on `base` for code that is
// written as bytes, and on `engine_config` for how much there may be.
#![tactic(auto)]

mod code;
pub mod document;
mod entries;
mod form;
mod form_fault;
mod migration;
mod names;

pub use entries::{FormError, ProgramEntry, QueueEntry, Source, TableEntry};
pub use form::{Plan, read};
pub use form_fault::FormFault;
pub use migration::migrated;
pub use names::{has_lawful_names, has_lawful_numbers};
