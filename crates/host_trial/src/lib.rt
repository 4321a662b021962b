// A policy tried on devices, in virtual time: one host submits requests to an engine of a manifest's configuration, devices of a file answer
// them, and what happens is recorded. It relies on `engine_core` for the engine, so that the records are a history of it, and on
// `trial_disks` for the devices.
#![tactic(auto)]

mod answers;
mod drives;
mod ending;
mod hosted;
mod hosting;
mod patience;
mod recorded;
mod rules;
mod submissions;
mod trial;

pub use ending::{Ending, Halt};
pub use trial::{Trial, Untried, run};
