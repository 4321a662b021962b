// What an engine's records add up to, as they are made: by queue, by code and by program, and the text of it that Prometheus reads. It keeps
// no record, and asks an engine for what it has before a record is made. It relies on `world_calls` for records, on `engine_transport` and
// `engine_runs` for what an engine has, and on `manifest_form` for the names of programs.
#![tactic(auto)]

mod before;
mod metrics;
mod names;
mod programs;
mod tables;
mod text;
mod told;

pub use before::Before;
pub use metrics::Metrics;
pub use text::print;
pub use told::{CODES, CONTROLLERS, QUEUES};
