// The sums of an engine that threads share, beside its lock: a cell that is read without the lock, and shows the sums of a
// beginning of the engine's history. Whoever shares the engine has a seat at the cell, which knows what was seen of the history.
// It relies on `world` for what a history is and on `crossbeam_utils` for a cell that keeps a rule under any number of threads;
// it knows nothing of the engine.
#![tactic(auto)]

mod caller_part;
mod keeper;
mod knowledge;
mod monitor;
mod origin;
mod receipt;
mod rule;
mod steps;
mod watch;

pub use caller_part::CallerPart;
pub use keeper::Keeper;
pub use monitor::Monitor;
pub use origin::{Opened, Origin};
pub use receipt::Receipt;
pub use rule::Told;
pub use watch::Watch;
