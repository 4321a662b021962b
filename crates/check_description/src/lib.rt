// What is known of a machine where a program's paths come by, and what it says of one: of each register, of the stack, of
// its freezes, of the CCB, and of the functions that wait for one that they called. It relies on `check_register_kinds` for what is
// known of one register and of freezes, on `stack_domain` for stack bytes, and on `bpf_semantics` for what machines mean.
#![tactic(auto)]

mod description;
mod freeze;
mod loaded;
mod memory;
mod places;
mod registers;
mod saved;
mod spill;
mod spills;

pub use description::{Description, Loaded};
pub use saved::{SavedRegister, SavedRegisters};
pub use spill::Spill;
pub use spills::Spills;
