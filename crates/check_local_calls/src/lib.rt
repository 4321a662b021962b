// What is known of a machine at the start of a local function, and back in its caller. It relies on `check_description` for what is
// known of a machine and of functions that wait, and on `stack_domain` for frames.
#![tactic(auto)]

mod local_calls;
mod saved;

pub use local_calls::{enter, leave};
