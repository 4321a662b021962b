// A scenario, carried out on an engine of its own: the guests' calls, and the completions that workers serve. It relies on
// `engine_lock` for what each call leads to, on `workers` for serving, on `host_handles` for what the host keeps, and on `scenario`.
#![tactic(auto)]

mod asking;
mod counting;
mod host;
mod running;
mod turns;
mod watching;

pub use host::RunFault;
pub use running::run;
