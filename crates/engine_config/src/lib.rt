// What an engine is opened with: the limits of the helper calls, the controllers, the first words of tables, and the device queues
// with their openings and their accepted programs. It relies on `bpf_accepted` for these and on `world` for what a setup is.
#![tactic(auto)]

mod config;
mod given;

pub use config::{Config, MAX_QUEUES, MAX_TABLES, MAX_WORDS};
pub use world::MAX_CONTROLLERS;
