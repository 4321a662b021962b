// Workers: threads that take completions from an inbox, and drive the runs that these start over one shared engine. It relies
// on `engine_lock` for calls, on `inbox` for completions, and on the runs' own code for what they execute by themselves.
#![tactic(auto)]

mod driving;
mod gate;
mod seat;
mod serving;
mod settling;
mod worker;

pub use driving::{Undriven, Why, drive};
pub use gate::{Gate, Open};
pub use seat::{Seat, Unseated, seated};
pub use serving::{MAX_WORKERS, Served, Unserved, serve};
pub use settling::{Settled, settle};
