// A trace as trace events: the JSON that Perfetto and Chrome draw. It relies on `show_events` for what happened, and on `show_json` for JSON.
#![tactic(auto)]

mod ccbs;
mod freezes;
mod lanes;
mod output;
mod runs;
mod time;
mod tracks;
mod writing;

pub use writing::write_trace_events;
