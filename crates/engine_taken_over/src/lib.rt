// The world that an engine took over from the engine before it: only proofs see it.
#![tactic(auto)]

mod taken_over;

pub use taken_over::TakenOver;
