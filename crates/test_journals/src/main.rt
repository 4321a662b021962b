// The checks of a journal whose folder is in memory: what no contract says of a folder that stops at a write. It prints the name of each check
// that fails, and how many pass; with words it runs the checks of these names alone. It relies on `cli_commands` and `host_journal`.
#![tactic(auto)]

mod memory;
mod stops;

use std::alloc::Global;
use std::io;
use std::process::ExitCode;
use test_tally::{Tally, is_wanted, words};

/// All checks, with their names and whether the segment is synced.
const CHECKS: [(&str, bool); 2] = [
    ("each_write_of_a_journal_stopped", false),
    ("each_write_of_a_synced_journal_stopped", true),
];

fn main(rt: HostRuntime) -> io::Result<ExitCode> {
    let wanted = words(&rt)?;
    let mut tally = Tally::default();
    for (name, is_synced) in CHECKS {
        if is_wanted(&wanted, name) {
            let holds = stops::each_write_stopped(rt.alloc(), is_synced) == Some(true);
            tally.see(&rt, name, holds)?;
        }
    }
    tally.end(&rt)
}
