// The words after the program's name, and the plan that they ask for. One command line, whose texts of usage and help are those of
// `clap`, serves two programs: `camr`, whose plans stand here, and `camr_inspect`, which explains, shows, decides and tries.
#![tactic(auto)]

mod decide_usage;
mod living;
mod plans;
mod show_usage;
mod try_usage;
mod usage;
mod value_faults;
mod words;

pub use decide_usage::decide_command;
pub use living::is_true;
pub use plans::{LaterVersion, MAX_WORKERS, MIN_WORKERS, Manner, Plan, Watch, is_stream, reads_of};
pub use show_usage::show_command;
pub use try_usage::try_command;
pub use usage::camr_command;
pub use words::{UsageFault, matches, not_utf8, plan, read_twice, spelled_out};
