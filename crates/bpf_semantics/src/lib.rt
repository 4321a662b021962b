// What a program means (specs/): machines, their steps, when a machine is stuck, and which machines a program reaches; with
// the law that a machine which is not stuck has a step, and with where a run comes to the engine. It relies on `bpf_words` for
// what operations compute, on `bpf_insn` for instructions, on `bpf_stack_frame` for stack bytes, and on `helpers` for the rules of
// helper calls.
#![tactic(auto)]

mod bounds;
pub mod laws;
mod stop;

pub use bounds::MAX_HELD;
pub use stop::Stop;
