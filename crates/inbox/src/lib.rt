// The inbox: completions wait here, in the order in which they were put, between the threads that report them and those that handle them.
// It relies on `ccb` for the completion, and on `crossbeam_queue` for a bounded queue that keeps a rule under any number of threads.
#![tactic(auto)]

mod account;
mod closing;
mod inbox;
pub mod laws;
mod put_pass;
mod receipt;
mod rule;
mod take_pass;

pub use closing::{CloseFault, Unclosed};
pub use inbox::{Inbox, MAX_CAPACITY, MAX_PASSES};
pub use put_pass::PutPass;
pub use receipt::Receipt;
pub use take_pass::TakePass;
