// How many records of a trace are so: the columns of a summary, counted over the records alone. It relies on `world_calls` for records.
#![tactic(auto)]

mod cells;
mod counts;
mod first;
mod tally;
mod told;

pub use counts::{CODES, Counts, HELPERS, count_records};
