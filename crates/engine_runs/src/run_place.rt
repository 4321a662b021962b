// Where a run that starts is recorded. It relies on `held_tokens` and on `bpf_machine` for what stands there.

use crate::held_tokens::HeldTokens;
use bpf_machine::Machine;

/// The places for a run's machine and for its rights to give freezes back. What stands in them means nothing.
#[derive(Drop)]
pub struct RunPlace {
    pub(crate) machine: Box<Machine>,
    pub(crate) tokens: Box<HeldTokens>,
}
