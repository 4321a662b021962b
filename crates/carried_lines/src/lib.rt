// The lines with which the trace of an engine begins that takes over from another engine. This crate prints such a line, reads one, and
// says which line may come after those before it, and which line is the first of such a trace. It relies on `world_calls` for what the
// lines say, on `trace_lines` for texts and numbers, and on `freeze_ledger` and `ccb` for freezes and what they freeze.
#![tactic(auto)]

mod fields;
mod first_line;
mod kind;
mod laws;
mod order;
mod printing;
mod reading;

pub use first_line::continued_header;
pub use laws::{lines_have_own_texts, texts_are_no_other_lines};
pub use order::Order;
pub use printing::{CARRIED, print_carried};
pub use reading::read_carried;
