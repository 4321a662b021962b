// An engine that many threads share: each call is one section under its lock. It relies on `engine_core` for what a call
// does.
#![tactic(auto)]

mod caller;
mod closing;
mod comparing;
mod fault;
mod locked;
mod object;
mod publishing;
mod shared;

pub use caller::Caller;
pub use closing::Unclosed;
pub use fault::LockFault;
pub use object::{Object, Opened};
pub use shared::{Pause, Shared};
