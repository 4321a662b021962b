// The machine of the code, which executes private instructions up to a stop and passes a helper call that was answered. It
// relies on `bpf_semantics` for what a program means, on `bpf_words` for what operations compute, on `bpf_insn` for
// instructions, and on `bpf_stack_frame` for stack bytes.
#![tactic(auto)]

mod arms;
mod following;
mod held_freezes;
mod machine;
mod memory;
mod open_calls;
mod registers;
mod stepping;

pub use machine::Machine;
