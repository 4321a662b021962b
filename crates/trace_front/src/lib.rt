// The text of a trace as far as it was written: whole, or without its last line, and with a line that was cut off. It relies on `trace` for
// the last line, and on `whole_trace` for the text of a whole trace.
#![tactic(auto)]

mod feeds;
mod front;

pub use front::{TraceFront, read_front};
