// The interpreter of accepted programs: it executes the instructions that are private to their run, up to the
// place where the run comes to the engine, and passes a helper call that the engine answered. It needs no lock
// and no memory. That no register is tested for what it holds rests on `bpf_accepted`; what an instruction does is
// `bpf_machine`'s.
#![tactic(auto)]

pub mod laws;
mod resuming;
mod running;
mod segment;

pub use resuming::{pass, resume};
pub use running::{go_to_stop, stop_of, to_stop};
pub use segment::Segment;
