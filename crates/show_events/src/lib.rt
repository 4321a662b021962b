// What the records of a trace tell, over the world through which they lead: who reads a trace in words, as sums or as a picture
// goes by the same events. It relies on `engine_core` for the world, and on `world_calls` for records.
#![tactic(auto)]

mod advanced;
mod called;
mod event;
mod filter;
mod happening;
mod programs;
mod shown;
mod timers;
mod times;
mod walk;

pub use event::{Cause, Event, Subject, Values};
pub use filter::{Filter, RefusedFilter, SenseFilter};
pub use happening::Happening;
pub use programs::{NamedAccepted, Programs};
pub use shown::{Ending, Shown};
pub use times::{FreezeTimes, RunTimes};
pub use walk::Walk;
