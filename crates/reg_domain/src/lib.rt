// What each instruction makes of what is known of a machine, and what is known at a program's entry and where paths meet. It
// relies on `check_private_insns` for arithmetic, memory and jumps, and on `check_helper_calls` for calls of helpers. What is known
// of a machine is of `check_description`, of one register and of freezes of `check_register_kinds`, and of stack bytes of
// `stack_domain`.
#![tactic(auto)]

mod following;
mod joining;
mod start;

pub use following::follow;
pub use joining::join;
pub use start::entry;
