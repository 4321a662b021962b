// What the runs of an engine did with their CCBs, by its records. It relies on `world_calls` for records.

ghost use Rattle.std.specs.Prelude.{◌≡◌, ◌<◌, ◌≤◌, ◌+◌, drop, length, vec_capacity};
ghost use Rattle.host_embedding.specs.Fates.{IsNoted, IsPut, code_of, course_after, course_at, course_over, fate_at, fate_found, fate_of, kept_at, number_of, requeued_or, without_run};

use crate::text_lines::entry;
use engine_core::Engine;
use helpers::Helper;
use std::alloc::Global;
use world_calls::{Record, StoppedAt};

/// What a run has done with its CCB.
#[derive(Clone, Copy, Debug, PartialEq, Eq)]
pub enum Fate {
    /// It has not disposed of it.
    Kept,
    /// The CCB waits again.
    Requeued,
    /// The CCB is finished, with that code.
    Finished(u8),
}

impl Fate {
    /// Its number, from 0.
    pub fn number(self) -> u32
        ensures { result ≡ number_of self }
    {
        match self {
            Fate::Kept => 0,
            Fate::Requeued => 1,
            Fate::Finished(_) => 2,
        }
    }

    /// The code with which the CCB is finished, or 0.
    pub fn code(self) -> u8
        ensures { result ≡ code_of self }
    {
        match self {
            Fate::Kept | Fate::Requeued => 0,
            Fate::Finished(code) => code,
        }
    }
}

/// What a run has done, and what of it is kept.
#[derive(Clone, Copy)]
pub(crate) struct Course {
    pub(crate) kept: Fate,
    pub(crate) told: Fate,
}

/// A run that has disposed of its CCB and has not exited.
#[derive(Clone, Copy)]
pub(crate) struct RunFate {
    pub(crate) run: u32,
    pub(crate) fate: Fate,
}

/// What is kept of that run.
pub(crate) fn fate_of(fates: &[RunFate], run: u32) -> Fate
    ensures { result ≡ fate_of run fates.now }
{
    match fate_found(fates, run) {
        Some(fate) => fate,
        None => Fate::Kept,
    }
}

fn fate_found(fates: &[RunFate], run: u32) -> Option<Fate>
    ensures { result ≡ fate_found run fates.now }
{
    fates.iter().find(|it| it.run == run).map(|it| it.fate)
}

// Keeps that of a run, and nothing if it has done nothing.
#[tactic(auto, using(crate::proofs::Courses::put_nothing, crate::proofs::Courses::put_last))]
fn put(fates: &mut Vec<RunFate>, run: u32, fate: Fate)
    requires { length fates.old.items < vec_capacity fates.old }
    ensures { IsPut run fate fates.old.items fates.new.items }
{
    take_out(fates, run);
    match fate {
        Fate::Kept => {}
        Fate::Requeued => fates.push_reserved(RunFate { run, fate }),
        Fate::Finished(_) => fates.push_reserved(RunFate { run, fate }),
    }
}

// Keeps nothing of a run.
fn take_out(fates: &mut Vec<RunFate>, run: u32)
    ensures items { fates.new.items ≡ without_run run fates.old.items }
    ensures few { length fates.new.items ≤ length fates.old.items }
    ensures capacity { vec_capacity fates.new ≡ vec_capacity fates.old }
{
    fates.retain(move |it| it.run != run);
}

/// Keeps what the run of that number did in the records since there were so many, and returns what it has done.
pub(crate) fn note(engine: &Engine, fates: &mut Vec<RunFate>, was: u64, run: u32) -> Fate
    requires kept { engine.now.taken ≤ was }
    requires within { was ≤ length engine.now.history }
    requires room { length fates.old.items < vec_capacity fates.old }
    ensures { IsNoted run (drop was engine.now.history) fates.old.items fates.new.items result }
{
    let before = fate_of(fates.as_slice(), run);
    let course = course_since(engine, was, run, before);
    put(fates, run, course.kept);
    course.told
}

// What the run did in the records since there were so many, by what it had done before.
#[tactic(auto, using(crate::proofs::Courses::none_yet))]
fn course_since(engine: &Engine, was: u64, run: u32, before: Fate) -> Course
    requires kept { engine.now.taken ≤ was }
    requires within { was ≤ length engine.now.history }
    ensures { result ≡ course_over run (record { kept = before; told = before }) (drop was engine.now.history) }
{
    let mut course = Course {
        kept: before,
        told: before,
    };
    for number in was..engine.recorded() {
        course = course_after(course, run, entry(engine, number));
    }
    course
}

fn course_after(course: Course, run: u32, told: &Record) -> Course
    ensures { result ≡ course_after run course told.now }
{
    match told {
        Record::Called { .. } => course,
        Record::Advance { run: its, stop, .. } => {
            if *its == run {
                course_at(course.kept, stop)
            } else {
                course
            }
        }
    }
}

fn course_at(kept: Fate, stop: &StoppedAt) -> Course
    ensures { result ≡ course_at kept stop.now }
{
    Course {
        kept: kept_at(kept, stop),
        told: fate_at(kept, stop),
    }
}

fn kept_at(before: Fate, stop: &StoppedAt) -> Fate
    ensures { result ≡ kept_at before stop.now }
{
    match stop {
        StoppedAt::Helper(helper) => requeued_or(*helper, before),
        StoppedAt::Trace(_, _) => before,
        StoppedAt::Finish(_, code) => Fate::Finished(*code),
        StoppedAt::Exit => Fate::Kept,
    }
}

fn fate_at(before: Fate, stop: &StoppedAt) -> Fate
    ensures { result ≡ fate_at before stop.now }
{
    match stop {
        StoppedAt::Helper(helper) => requeued_or(*helper, before),
        StoppedAt::Trace(_, _) => before,
        StoppedAt::Finish(_, code) => Fate::Finished(*code),
        StoppedAt::Exit => before,
    }
}

fn requeued_or(helper: Helper, before: Fate) -> Fate
    ensures { result ≡ requeued_or helper before }
{
    if matches!(helper, Helper::Requeue) {
        Fate::Requeued
    } else {
        before
    }
}
