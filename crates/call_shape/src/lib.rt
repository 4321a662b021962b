// The shape of a program: its functions end, jumps lead forward within their function, and no chain of local calls
// comes back. What is said of its ways, the static paths, rests on this alone. It relies on `bpf_insn`, and on `bpf_stack_frame`
// for how many frames there may be.
#![tactic(auto)]

mod checks;
mod cycle;
mod fault;
mod frames;
mod functions;
mod insn_faults;
mod lawful_shape;
pub mod laws;
mod onward;
mod postorder;
mod walk;
mod written_out;

pub use checks::shape;
pub use fault::ShapeFault;
pub use lawful_shape::{MAX_WRITTEN_OUT, Shape};
pub use onward::Onward;
