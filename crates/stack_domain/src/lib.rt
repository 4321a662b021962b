// Which stack bytes of which live frame are written, and which numbers stand in them, as far as a verifier knows that follows a
// program's paths. It relies on `bpf_stack_frame` for sets of bytes and for what a store writes, and on `scalar_domain` for numbers.
#![tactic(auto)]

pub mod laws;
mod numbers;
mod slots;
mod stack;

pub use numbers::{NumberPlace, StackNumber, StackNumbers};
pub use stack::Stack;
