// What is recorded of a run that has not exited. It relies on `held_tokens` for the rights to give freezes back, and on
// `bpf_accepted` and `bpf_machine` for what the run executes.

use crate::held_tokens::HeldTokens;
use bpf_accepted::Accepted;
use bpf_machine::Machine;
use ccb::{CcbId, QueueId};
use std::sync::Arc;

/// A run that has not exited: its number, for which CCB of which queue it is and under which controller, its program, the machine in
/// which it goes on, and whether it is out. And the rights to give back the freezes that it holds, in the order of their numbers.
#[derive(Drop)]
pub(crate) struct RunRecord {
    pub(crate) number: u32,
    pub(crate) ccb: CcbId,
    pub(crate) queue: QueueId,
    pub(crate) controller: u32,
    pub(crate) program: Arc<Accepted>,
    // apart, as the tokens are, so that a record is moved as a few words
    pub(crate) machine: Box<Machine>,
    pub(crate) out: bool,
    pub(crate) tokens: Box<HeldTokens>,
}
