// A program that was accepted, as a type: of whatever makes one it asks for the proof that no run is ever stuck and that
// none executes more instructions than its budget. It relies on `bpf_semantics` for what that means, on `bpf_insn` for
// programs and on `helpers` for the limits.
#![tactic(auto)]

mod accepted;

pub use accepted::Accepted;
