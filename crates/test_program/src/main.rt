// The checks of the program that no command shows. It prints the name of each that fails, and how many pass; with words it runs the checks
// of these names alone. It relies on `cli_commands`, on `trace`, on `host_live` for what an input is, and on `cli_io` for files.
#![tactic(auto)]

mod clocks;
mod folders;
mod noticing;
mod printing;
mod traces;
mod writers;

use std::alloc::Global;
use std::io;
use std::process::ExitCode;
use std::rt::Files;
use std::sync::Wait;
use std::thread::Threads;
use test_tally::{Tally, is_wanted, words};
use writers::Task;

/// A check.
#[derive(Clone, Copy, Debug, PartialEq, Eq)]
enum Check {
    NoticeWords,
    RunTells,
    ReplayTells,
    FewBytes,
    EachWrite,
    Records,
    OfNoClasses,
    OfControllers,
    OfClasses,
    Reading,
    Writers,
    RunWithoutMemory,
    AssemblyWithoutMemory,
    Line,
    Folder,
    NewFile,
    Names,
    LateClock,
    Done(Task),
}

/// All checks, with their names.
const CHECKS: [(&str, Check); 21] = [
    ("words_of_notices", Check::NoticeWords),
    ("a_run_tells", Check::RunTells),
    ("a_replay_tells", Check::ReplayTells),
    ("few_bytes_at_a_time", Check::FewBytes),
    ("each_write_fails_once", Check::EachWrite),
    ("lines_of_records", Check::Records),
    ("lines_of_no_classes", Check::OfNoClasses),
    ("lines_of_controllers", Check::OfControllers),
    ("lines_of_classes", Check::OfClasses),
    ("read_and_memory_refused_once", Check::Reading),
    ("writers_that_fail", Check::Writers),
    ("run_with_a_writer_without_memory", Check::RunWithoutMemory),
    (
        "assembly_with_a_writer_without_memory",
        Check::AssemblyWithoutMemory,
    ),
    ("line_that_cannot_be_written", Check::Line),
    ("each_call_of_a_folder_fails_once", Check::Folder),
    ("a_new_file_is_whole_or_not_there", Check::NewFile),
    ("names_are_planted", Check::Names),
    ("a_clock_beyond_the_last_reading", Check::LateClock),
    ("run_and_memory_refused_once", Check::Done(Task::Run)),
    (
        "replayed_and_memory_refused_once",
        Check::Done(Task::Replay),
    ),
    (
        "assembled_and_memory_refused_once",
        Check::Done(Task::Assembly),
    ),
];

// Whether a check holds; nothing if it came to no end, as if memory is refused.
fn holds<R: Files + AllocGlobal + Threads + Wait + Sync>(
    rt: &R,
    alloc: Global,
    check: Check,
) -> Option<bool> {
    match check {
        Check::NoticeWords => noticing::words_of_notices(alloc).ok(),
        Check::RunTells => noticing::a_run_tells(rt, alloc).ok(),
        Check::ReplayTells => noticing::a_replay_tells(rt, alloc).ok(),
        Check::FewBytes => printing::few_bytes_at_a_time(alloc),
        Check::EachWrite => printing::each_write_fails_once(alloc),
        Check::Records => traces::lines_of_records(rt),
        Check::OfNoClasses => traces::lines_of_no_classes(rt),
        Check::OfControllers => traces::lines_of_controllers(rt),
        Check::OfClasses => traces::lines_of_classes(rt),
        Check::Reading => traces::read_and_memory_refused_once(alloc),
        Check::Writers => writers::writers_that_fail(rt, alloc).ok(),
        Check::RunWithoutMemory => writers::run_with_a_writer_without_memory(rt, alloc).ok(),
        Check::AssemblyWithoutMemory => {
            writers::assembly_with_a_writer_without_memory(rt, alloc).ok()
        }
        Check::Line => writers::line_that_cannot_be_written(rt, alloc).ok(),
        Check::Folder => folders::each_call_of_a_folder_fails_once(alloc).ok(),
        Check::NewFile => folders::a_new_file_is_whole_or_not_there(alloc).ok(),
        Check::Names => folders::names_are_planted(alloc).ok(),
        Check::LateClock => Some(clocks::a_clock_beyond_the_last_reading(alloc)),
        Check::Done(task) => Some(writers::done_and_memory_refused_once(rt, alloc, task)),
    }
}

fn main(rt: HostRuntime) -> io::Result<ExitCode> {
    let wanted = words(&rt)?;
    let mut tally = Tally::default();
    for (name, check) in CHECKS {
        if is_wanted(&wanted, name) {
            let holds = holds(&rt, rt.alloc(), check) == Some(true);
            tally.see(&rt, name, holds)?;
        }
    }
    tally.end(&rt)
}
