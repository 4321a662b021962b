// Texts and policies that are hostile: each is read or refused, and what is accepted runs to its end within its budget. It prints the
// name of each check that fails, and how many pass; with words it runs the checks of these names alone.
#![tactic(auto)]

mod policies;
mod texts;

use std::alloc::Global;
use std::io;
use std::process::ExitCode;
use test_tally::{Tally, is_wanted, words};

/// A check.
#[derive(Clone, Copy, Debug, PartialEq, Eq)]
enum Check {
    Policies,
    Manifests,
    Traces,
    ChangedTraces,
}

/// All checks, with their names.
const CHECKS: [(&str, Check); 4] = [
    ("one_byte_of_a_policy_changed", Check::Policies),
    ("fronts_of_a_manifest", Check::Manifests),
    ("fronts_of_a_trace", Check::Traces),
    ("one_byte_of_a_trace_changed", Check::ChangedTraces),
];

impl Check {
    // Whether it holds; nothing if it came to no end, as if memory is refused.
    fn holds(self, alloc: Global) -> Option<bool> {
        match self {
            Check::Policies => policies::one_byte_changed(alloc),
            Check::Manifests => texts::fronts_of_a_manifest(alloc),
            Check::Traces => texts::fronts_of_a_trace(alloc),
            Check::ChangedTraces => texts::one_byte_of_a_trace_changed(alloc),
        }
    }
}

fn main(rt: HostRuntime) -> io::Result<ExitCode> {
    let wanted = words(&rt)?;
    let mut tally = Tally::default();
    for (name, check) in CHECKS {
        if is_wanted(&wanted, name) {
            tally.see(&rt, name, check.holds(rt.alloc()) == Some(true))?;
        }
    }
    tally.end(&rt)
}
