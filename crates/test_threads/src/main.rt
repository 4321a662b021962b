// The checks of what threads share, the inbox and the engine, and of those that serve: what no contract says of them, with wrong bodies
// that no contract refuses. It prints the name of each check that fails, and how many pass; with words it runs the checks of these names
// alone. It relies on these crates, and on `manifest` for engines. What it prints depends on no schedule.
#![tactic(auto)]

mod asking;
mod at_once;
mod crew;
mod engines;
mod inboxes;
mod on_engine;
mod recoveries;
mod refusals;
mod services;
mod serving;
mod settling;
mod sharing;
mod watching;

use inboxes::many;
use on_engine::{OfEngine, holds_of_engine};
use std::alloc::Global;
use std::io;
use std::process::ExitCode;
use std::sync::Wait;
use std::thread::Threads;
use test_tally::{Tally, is_wanted, words};

/// A check.
#[derive(Clone, Copy)]
enum Check {
    WrongBodies,
    Capacities,
    WhatIsLeft,
    PassMissing,
    WhyNotClosed,
    ManyThreads,
    WhyNoCaller,
    /// One of an engine that is shared.
    Engine(OfEngine),
    /// Two of these, each of an engine of its own.
    Engines(OfEngine, OfEngine),
}

/// All checks, with their names.
const CHECKS: [(&str, Check); 22] = [
    (
        "finds_out_bodies_that_never_give_or_never_take_in",
        Check::WrongBodies,
    ),
    ("holds_as_many_as_its_capacity_in_order", Check::Capacities),
    ("gives_back_what_is_left_in_order", Check::WhatIsLeft),
    ("refuses_to_close_without_a_pass", Check::PassMissing),
    ("says_why_it_was_not_closed", Check::WhyNotClosed),
    (
        "many_threads_take_each_completion_once_in_order",
        Check::ManyThreads,
    ),
    (
        "shows_ten_thousand_recoveries_in_their_order",
        Check::Engine(OfEngine::Recoveries),
    ),
    (
        "drives_each_short_run_in_one_section",
        Check::Engine(OfEngine::AtOnce),
    ),
    (
        "served_and_memory_refused_once",
        Check::Engine(OfEngine::Served),
    ),
    (
        "traced_and_memory_refused_once",
        Check::Engine(OfEngine::Traced),
    ),
    (
        "parks_no_run_where_there_is_memory",
        Check::Engine(OfEngine::ParksNone),
    ),
    (
        "drives_each_run_in_a_thread_of_its_own",
        Check::Engines(OfEngine::TwoRuns, OfEngine::SixteenRuns),
    ),
    (
        "finds_out_bodies_of_one_thread_or_of_none",
        Check::Engines(OfEngine::OneThread, OfEngine::Nobody),
    ),
    (
        "serves_completions_of_each_kind",
        Check::Engines(OfEngine::EachKindByOne, OfEngine::EachKindByFour),
    ),
    (
        "parks_a_run_that_goes_on_later",
        Check::Engine(OfEngine::Parked),
    ),
    (
        "gives_back_a_run_of_another_engine",
        Check::Engine(OfEngine::OfAnother),
    ),
    ("gives_out_64_callers", Check::Engine(OfEngine::AllCallers)),
    (
        "ends_with_all_callers_alone",
        Check::Engine(OfEngine::CallerMissing),
    ),
    (
        "says_why_it_gives_no_caller_or_is_not_closed",
        Check::WhyNoCaller,
    ),
    (
        "shows_two_runs_while_they_are_held_up",
        Check::Engine(OfEngine::HeldUp),
    ),
    (
        "is_read_while_a_call_is_held_up_in_its_section",
        Check::Engine(OfEngine::ReadBeside),
    ),
    (
        "finds_out_a_monitor_that_takes_the_lock",
        Check::Engine(OfEngine::ReadUnderLock),
    ),
];

// Whether a check holds; nothing if it came to no end, as if memory is refused.
fn holds<R: Threads + Wait + Sync>(rt: &R, alloc: Global, check: Check) -> Option<bool> {
    match check {
        Check::WrongBodies => inboxes::finds_out_wrong_bodies(rt, alloc),
        Check::Capacities => inboxes::holds_its_capacity(rt, alloc),
        Check::WhatIsLeft => inboxes::gives_back_what_is_left(rt, alloc),
        Check::PassMissing => inboxes::refuses_to_close_without_a_pass(rt, alloc),
        Check::WhyNotClosed => inboxes::says_why(alloc),
        Check::ManyThreads => many::each_is_taken_once(rt, alloc),
        Check::WhyNoCaller => sharing::says_why(alloc),
        Check::Engine(check) => holds_of_engine(rt, alloc, check),
        Check::Engines(first, second) => {
            Some(holds_of_engine(rt, alloc, first)? && holds_of_engine(rt, alloc, second)?)
        }
    }
}

fn main(rt: HostRuntime) -> io::Result<ExitCode> {
    let wanted = words(&rt)?;
    let mut tally = Tally::default();
    for (name, check) in CHECKS {
        if is_wanted(&wanted, name) {
            let holds = holds(&rt, rt.alloc(), check) == Some(true);
            tally.see(&rt, name, holds)?;
        }
    }
    tally.end(&rt)
}
