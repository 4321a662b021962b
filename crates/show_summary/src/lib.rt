// The summary of a trace: by queue, by controller and by program how often what happened, and what is left at its end. How often is
// counted over the records alone, by `show_counts`; how long, over the events, which `show_events` tells.
#![tactic(auto)]

mod advices;
mod attempts;
mod data;
mod durations;
mod frozen;
mod left;
mod left_data;
mod openings;
mod places;
mod programs;
mod queues;
mod refusals;
mod reports;
mod seen;
mod summary;
mod sums;
mod withdrawals;
mod words;

pub use data::write_summary;
pub use summary::summarise;
