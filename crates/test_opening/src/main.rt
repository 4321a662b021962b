// The checks of an engine as a host holds it that is written in another language: what no contract says of a recovery, of each result of
// a call, and of the trace's text. It prints the name of each check that fails, and how many pass; with words it runs the checks of these
// names alone. It relies on `host_opening` and `host_embedding`.
#![tactic(auto)]

mod calling;
mod checks;
mod metrics;
mod recoveries;
mod successions;

use std::alloc::Global;
use std::io;
use std::process::ExitCode;
use test_tally::{Tally, is_wanted, words};

/// A check.
#[derive(Clone, Copy, Debug, PartialEq, Eq)]
enum Check {
    Handles,
    Recovery,
    Lines,
    Taking,
    Refusals,
    Freezes,
    Parks,
    Manifests,
    Texts,
    Same,
    Fresh,
    Manifest,
    Unfollowed,
    LiveRun,
    Carried,
    Records,
    Ccbs,
    InRecovery,
    Empty,
    RunOut,
    ParkedRun,
    Order,
    Guests,
    Ended,
    Continued,
    Faults,
    CarriedFaults,
    First,
    Counted,
    CountedOn,
}

/// All checks, with their names.
const CHECKS: [(&str, Check); 30] = [
    ("handles_go_from_thread_to_thread", Check::Handles),
    ("recovers", Check::Recovery),
    ("lines_go_on", Check::Lines),
    ("lines_are_taken_once", Check::Taking),
    ("refused", Check::Refusals),
    ("freezes_by_number", Check::Freezes),
    ("parks", Check::Parks),
    ("faulty_manifests", Check::Manifests),
    ("results_have_texts", Check::Texts),
    ("follows_under_the_same_numbers", Check::Same),
    ("follows_under_fresh_numbers", Check::Fresh),
    ("follows_by_another_manifest", Check::Manifest),
    ("refused_successions", Check::Unfollowed),
    ("a_live_run_is_told_first", Check::LiveRun),
    ("carried_lines_go_on", Check::Carried),
    ("records_follow_the_carried_lines", Check::Records),
    ("ccbs_are_listed", Check::Ccbs),
    ("a_ccb_in_recovery_is_listed", Check::InRecovery),
    ("recovers_an_empty_trace", Check::Empty),
    ("recovers_a_run_that_is_out", Check::RunOut),
    ("recovers_a_parked_run", Check::ParkedRun),
    ("takes_runs_in_order", Check::Order),
    ("recovers_guests_freezes", Check::Guests),
    ("recovers_an_ended_trace", Check::Ended),
    ("recovers_a_continued_trace", Check::Continued),
    ("faulty_traces", Check::Faults),
    ("faulty_carried_lines", Check::CarriedFaults),
    ("faulty_manifests_come_first", Check::First),
    ("what_is_counted_is_put", Check::Counted),
    ("counts_go_on_where_an_engine_follows", Check::CountedOn),
];

impl Check {
    // Whether it holds; nothing if it came to no end, as if memory is refused.
    fn holds(self, alloc: Global) -> Option<bool> {
        match self {
            Check::Handles => checks::handles_go_from_thread_to_thread(alloc),
            Check::Recovery => checks::recovers(alloc),
            Check::Lines => checks::lines_go_on(alloc),
            Check::Taking => checks::lines_are_taken_once(alloc),
            Check::Refusals => checks::refused(alloc),
            Check::Freezes => checks::freezes_by_number(alloc),
            Check::Parks => checks::parks(alloc),
            Check::Manifests => checks::faulty_manifests(alloc),
            Check::Texts => Some(checks::results_have_texts()),
            Check::Same => successions::follows_under_the_same_numbers(alloc),
            Check::Fresh => successions::follows_under_fresh_numbers(alloc),
            Check::Manifest => successions::follows_by_another_manifest(alloc),
            Check::Unfollowed => successions::refused_successions(alloc),
            Check::LiveRun => successions::a_live_run_is_told_first(alloc),
            Check::Carried => successions::carried_lines_go_on(alloc),
            Check::Records => successions::records_follow_the_carried_lines(alloc),
            Check::Ccbs => successions::ccbs_are_listed(alloc),
            Check::InRecovery => successions::a_ccb_in_recovery_is_listed(alloc),
            Check::Empty => recoveries::recovers_an_empty_trace(alloc),
            Check::RunOut => recoveries::recovers_a_run_that_is_out(alloc),
            Check::ParkedRun => recoveries::recovers_a_parked_run(alloc),
            Check::Order => recoveries::takes_runs_in_order(alloc),
            Check::Guests => recoveries::recovers_guests_freezes(alloc),
            Check::Ended => recoveries::recovers_an_ended_trace(alloc),
            Check::Continued => recoveries::recovers_a_continued_trace(alloc),
            Check::Faults => recoveries::faulty_traces(alloc),
            Check::CarriedFaults => recoveries::faulty_carried_lines(alloc),
            Check::First => recoveries::faulty_manifests_come_first(alloc),
            Check::Counted => metrics::what_is_counted_is_put(alloc),
            Check::CountedOn => metrics::counts_go_on_where_an_engine_follows(alloc),
        }
    }
}

fn main(rt: HostRuntime) -> io::Result<ExitCode> {
    let wanted = words(&rt)?;
    let mut tally = Tally::default();
    for (name, check) in CHECKS {
        if is_wanted(&wanted, name) {
            tally.see(&rt, name, check.holds(rt.alloc()) == Some(true))?;
        }
    }
    tally.end(&rt)
}
