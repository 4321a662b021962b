// The live runs with the rights to give back the freezes that they hold, and the tables that they share. It relies on
// `world` for what contracts see, on `interpreter` for what a run did, and on `table_store` for tables.
#![tactic(auto)]

mod held_tokens;
mod places;
mod run_place;
mod run_record;
mod runs;
mod started;

pub use run_place::RunPlace;
pub use runs::{MAX_RUNS, Runs};
pub use started::Started;
