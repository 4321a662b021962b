// The summary of a whole trace. It relies on `sums` for what it says, and on `queues`, `places` and `left` for how.

use crate::left::print_left;
use crate::places::print_controllers;
use crate::queues::{cell, print_queue};
use crate::sums::Sums;
use cli_text_page::Page;
use engine_config::Config;
use helpers::Helper;
use show_account::put_carried_sums;
use show_counts::{Counts, HELPERS};
use show_events::{Ending, NamedAccepted, Shown};
use std::alloc::Global;
use std::io;
use std::io::Write;

/// Writes the summary of a trace of this configuration: a table for each queue, each controller and each program, and what is left at
/// its end. Times are milliseconds of its clock. The programs are the manifest's, with their names; if two have the same
/// instructions, the first stands for both. The trace is one that a replay accepts, or is open. It fails if memory is refused, as such an error
/// and with nothing out, or if the writer does; some may be out then.
pub fn summarise<W: Write>(
    alloc: Global,
    config: &Config,
    named: &[NamedAccepted<'_>],
    shown: Shown<'_>,
    out: &mut W,
) -> io::Result<()> {
    let sums = Sums::of(alloc, config, named, shown)?;
    let mut page = Page::new(alloc);
    page.fill("{} records\n", &[shown.trace.records.len() as u64]);
    if let Some(lines) = shown.carried {
        put_carried_sums(lines, &mut page);
    }
    if let Ending::Open | Ending::Cut = shown.ending {
        page.fill(shown.words(), &[shown.line()]);
        page.text("\n");
    }
    print_all(&sums, &mut page);
    page.write_to(out)
}

fn print_all(sums: &Sums<'_>, page: &mut Page) {
    sums.seen.refused.print(page);
    for queue in 0..sums.config.queues() {
        print_queue(sums, queue, page);
    }
    print_controllers(sums, sums.config.controllers(), page);
    for program in 0..sums.programs.len() {
        print_program(sums, program, page);
    }
    sums.seen.tried.print(page);
    sums.seen.advices.print(page);
    sums.seen.words.print(page);
    print_left(&sums.walk, page);
}

// The table of a program.
fn print_program(sums: &Sums<'_>, program: usize, page: &mut Page) {
    let mut runs = 0u64;
    for queue in 0..sums.config.queues() {
        if sums.programs.of(queue) == program {
            runs = runs.saturating_add(Counts::at(&sums.counts.recoveries, queue as usize));
        }
    }
    page.text("program ");
    page.foreign(sums.programs.name(program));
    let budget = sums.programs.budget(program);
    sums.seen.instructions.of(program).print(runs, budget, page);
    print_calls(sums, program, page);
}

// How often each helper was called by a program's runs, and how often it answered 0.
fn print_calls(sums: &Sums<'_>, program: usize, page: &mut Page) {
    for number in 1..HELPERS {
        let (mut calls, mut zeros) = (0u64, 0u64);
        for queue in 0..sums.config.queues() {
            if sums.programs.of(queue) == program {
                let at = cell(queue as usize, HELPERS, number);
                calls = calls.saturating_add(Counts::at(&sums.counts.calls, at));
                zeros = zeros.saturating_add(Counts::at(&sums.counts.zeros, at));
            }
        }
        if calls > 0 {
            page.fill("  helper {}, ", &[u64::from(number)]);
            page.text(name_of(number));
            page.fill(words_of(calls, zeros), &[calls, zeros]);
        }
    }
}

// A pattern for how often a helper was called, which is more than never, and how often of these it answered 0.
fn words_of(calls: u64, zeros: u64) -> &'static str {
    if calls > 1 {
        ": {} calls, {} of them answered 0\n"
    } else if zeros > 0 {
        ": {} call, answered 0\n"
    } else {
        ": {} call, not answered 0\n"
    }
}

fn name_of(helper: u32) -> &'static str {
    let number = i32::try_from(helper).unwrap_or(0);
    match Helper::with_number(number) {
        Some(helper) => helper.name(),
        None => "",
    }
}
