// What arithmetic, loads, stores and jumps make of what is known of a machine. It relies on `check_description` for what is known
// of a machine, on `check_register_kinds` for what is known of one register and of freezes, on `stack_domain` for stack bytes, and
// on `bpf_semantics` for what machines and instructions mean.
#![tactic(auto)]

mod freeze;
mod jumping;
mod memory;
mod operands;
mod straight;
mod way;

pub use jumping::jump_if;
pub use straight::{change, compute, extend, load, load_immediate, store_operand};
pub use way::Way;
