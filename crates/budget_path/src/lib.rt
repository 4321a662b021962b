// The budget of a program: the greatest number of instructions on a static path. It relies on `call_shape`
// for the lawful shape, in which every path leads forward.
#![tactic(auto)]

mod longest;

pub use longest::{budget, lengths};
