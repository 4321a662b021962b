// What the program `camr` does with a plan: it verifies a manifest's programs, runs a scenario and prints its trace, or replays a trace,
// over the bytes of the files and two writers. It relies on the readers, on `host_scenario` and on `trace`.
#![tactic(auto)]

mod auditing;
mod carrying;
mod fault;
mod files;
mod following;
mod handing;
mod journal_engine;
mod journal_reports;
mod journaling;
mod metering;
mod refusals;
mod replaying;
mod serving;
mod usage;
mod verdicts;

pub use auditing::audit_journal;
pub use carrying::{carry, run, write_trace};
pub use fault::Fault;
pub use files::{status, text, unwritten};
pub use following::{GivenManifest, ManifestUnread};
pub use handing::{AnsweringSink, WriterSink};
pub use journaling::serve_journal;
pub use metering::{MetricsFile, MetricsUnwritten};
pub use replaying::replayed;
pub use serving::serve;
pub use usage::report_usage;
pub use verdicts::print as print_verdicts;
