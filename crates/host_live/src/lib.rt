// An engine that is asked over a pipe: a line of the input is carried out as it comes, and the trace's lines of what it led to go out
// before the next one is waited for. It relies on `engine_core` for the engine, which keeps no history, on `trace_lines` for the lines of
// calls, on `trace` for what goes out, and on `host_metrics` for what is counted.
#![tactic(auto)]

mod answering;
mod carrying;
mod draft;
mod driving;
mod ending;
mod host;
mod input;
mod lending;
mod lines;
mod manner;
mod outlet;
mod printed;
mod printed_engine;
mod putting;
mod reports;
mod request;
mod served;
mod serving;
mod telling;

pub use input::{Came, Input};
pub use lines::Lines;
pub use manner::Manner;
pub use outlet::Outlet;
pub use putting::put_all;
pub use reports::{LineFault, Moment, Reports, Unfollowed};
pub use request::{Request, Succession, request_of};
pub use serving::{LiveFault, serve};
