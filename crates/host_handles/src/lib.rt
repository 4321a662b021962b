// What a host of an engine holds: the runs that are out, and the tokens of guests' freezes. It is asked by plain calls, asks an
// engine by events, and keeps what it is given or what comes back. It relies on `engine_core` for events and replies.
#![tactic(auto)]

mod held;
mod held_handles;
mod keeping;
mod making;
mod responder;
mod sorted;
mod unanswered;

pub use held_handles::HeldHandles;
pub use responder::Responder;
pub use unanswered::Unanswered;
