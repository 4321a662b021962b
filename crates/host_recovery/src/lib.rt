// What a crash leaves of an engine's trace, read line by line and replayed, so that the engine can go on where it was. It relies on `trace`
// and `carried_lines` for lines, on `whole_trace` for what the text of a continued trace is, and on `replay`, `engine_succession` and
// `engine_core` for the engine.
#![tactic(auto)]

mod carried;
mod carrying;
mod fault;
mod first_line;
pub mod laws;
mod lines;
mod reading;
mod recovering;
mod source;

pub use fault::{RecoveryError, RecoveryFault};
pub use recovering::{MOST_WHOLE, Recovered, recover};
pub use source::{ReadFailed, Source};
