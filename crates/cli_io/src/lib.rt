// The machine's side of the programs: files that are read up to a bound and written whole, standard input as it comes, the machine's clock,
// the words of the line, and what is told on standard error. It relies on `host_live` for what an input is, and on `world_calls` for notices.
#![tactic(auto)]

mod clocked;
mod disk;
mod feed;
mod folder;
mod inputs;
mod journal_disk;
mod line;
mod patient;
mod reading;
mod relay;
mod replacing;
mod stopwatch;
mod telling;

pub use clocked::Clocked;
pub use disk::{Disk, are_same, stands_in};
pub use feed::Feeder;
pub use folder::{Folder, Look, Rights};
pub use inputs::{
    MOST_MANIFEST, MOST_PROGRAM, MOST_SCENARIO, MOST_TEXT, MOST_TRACE, read_all, read_file,
};
pub use journal_disk::JournalDisk;
pub use line::words;
pub use patient::Patient;
pub use reading::Reading;
pub use relay::{Relay, Relayer};
pub use replacing::replace;
pub use stopwatch::Stopwatch;
pub use telling::Telling;
