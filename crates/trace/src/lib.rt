// The trace: an engine's whole history with its sums, as text, printed and read. It relies on `world_calls` for records, and on `trace_lines`
// for the lines of calls.
#![tactic(auto)]

mod entry;
mod fault;
mod fitting;
mod growing;
pub mod laws;
mod page;
mod printer;
mod reader;
mod sink;
mod sums;
mod version;

pub use entry::read_record;
pub use fault::{PrintFault, TraceError, TraceFault};
pub use growing::Growing;
pub use printer::{print, print_entry};
pub use reader::{read, read_lines};
pub use sink::{Sink, WriteFailed};
pub use sums::{print_totals, read_totals};
pub use version::header;
