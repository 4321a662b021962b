// The world's definition: what an engine is opened with, its state, its steps and its runs, and what the laws over them say
// (specs/); `world_laws` has their proofs. The code is the plain data that these definitions and the engine share. It relies on
// `world_calls` for what is asked and answered, on `ccb` and `freeze_ledger` for what CCBs and freezes are, and on `bpf_semantics`
// for what a program means.
#![tactic(auto)]

mod ccb_state;
mod queue_info;

pub use ccb_state::CcbState;
pub use queue_info::QueueInfo;

/// How many controllers there may be.
pub const MAX_CONTROLLERS: u8 = 8;
