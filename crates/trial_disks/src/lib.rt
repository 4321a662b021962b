// What devices a file says that a policy is tried on: how long each takes, when it fails with what, and what heals it. It relies on
// `manifest_form` for what stands under a key of a TOML table, on `trace_lines` for how a completion is spelled, and on `cli_text_page` for
// the line that says what is wrong.
#![tactic(auto)]

mod completions;
mod data;
mod devices;
mod failures;
mod fault;
mod keys;
mod line;
mod queues;
mod reading;

pub use data::{Device, Disks, Failure, LAST_TIME, MILLION, Span};
pub use fault::{DisksError, DisksFault};
pub use reading::read;
