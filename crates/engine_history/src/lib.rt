// The history of an engine, of which the front may have been handed on: contracts see it whole, and memory has what was not handed on.
// It relies on `base_chunked_list` for what is kept.
#![tactic(auto)]

mod forgotten;
mod history;

pub use history::{EngineHistory, MOST_RECORDS};
