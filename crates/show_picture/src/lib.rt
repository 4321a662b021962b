// The picture of a trace over its clock, as SVG: a lane for each queue and each controller. It relies on `show_events` for the events.
#![tactic(auto)]

mod drawing;
mod escaped;
mod frame;
mod lanes;
mod marks;
mod picture;
mod scale;
mod stretch;
mod tracking;
mod widths;

pub use picture::draw;
