// Which timer lets its freeze go next, and what becomes of all that are due. It relies on `freeze_ledger` for the
// entries and who holds them.
#![tactic(auto)]

pub mod laws;
mod timers;

pub use timers::{expire_due, next_due};
