// An engine that follows another one: it begins with the lines of what that one leaves. It relies on `engine_beginning` for what lines make
// of an engine, and on `engine_core` for the engine.
#![tactic(auto)]

mod beginning;
mod laws;
mod numbered;
mod stepwise;
mod succession;

pub use beginning::{BeginFault, begin, begin_numbered};
pub use engine_carried::Numbering;
pub use laws::{one_refusal, refused_lines_have_no_world};
pub use numbered::succeed_numbered;
pub use stepwise::StepwiseBeginning;
pub use succession::{SuccessionFault, Successor, succeed};
