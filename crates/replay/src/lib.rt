// Replays a trace: whether its records lead from the opening of a configuration, or from what its carried lines say, and its last line is
// their sums. It relies on `engine_core` for an engine that keeps no history, on `engine_succession` for one that begins with carried
// lines, and on `world_calls` for records.
#![tactic(auto)]

mod continued;
mod fault;
mod following;
pub mod laws;
mod likeness;
mod replaying;

pub use continued::replay_continued;
pub use fault::{ReplayError, ReplayFault};
pub use following::follows;
pub use replaying::replay;
