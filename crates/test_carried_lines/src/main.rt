// The checks of the lines that say what an engine takes over: worked texts of each kind of line, texts that no line has, and orders that
// are refused. It prints the name of each check that fails, and how many pass; with words it runs the checks of these names alone. It
// relies on `carried_lines`.
#![tactic(auto)]

mod orders;
mod texts;

use std::io;
use std::process::ExitCode;
use test_tally::{Tally, is_wanted, words};

/// A check.
#[derive(Clone, Copy, Debug, PartialEq, Eq)]
enum Check {
    Lines,
    Again,
    Unread,
    Longest,
    Held,
    Order,
    Complete,
}

/// All checks, with their names.
const CHECKS: [(&str, Check); 7] = [
    ("lines_have_these_texts", Check::Lines),
    ("texts_are_printed_again", Check::Again),
    ("texts_of_no_line", Check::Unread),
    ("longest_texts_fit", Check::Longest),
    ("a_freeze_of_a_run_has_no_text", Check::Held),
    ("lines_in_and_out_of_order", Check::Order),
    ("complete_from_the_clock_on", Check::Complete),
];

impl Check {
    fn holds(self) -> bool {
        match self {
            Check::Lines => texts::lines_have_these_texts(),
            Check::Again => texts::texts_are_printed_again(),
            Check::Unread => texts::texts_of_no_line(),
            Check::Longest => texts::longest_texts_fit(),
            Check::Held => texts::a_freeze_of_a_run_has_no_text(),
            Check::Order => orders::lines_in_and_out_of_order(),
            Check::Complete => orders::complete_from_the_clock_on(),
        }
    }
}

fn main(rt: HostRuntime) -> io::Result<ExitCode> {
    let wanted = words(&rt)?;
    let mut tally = Tally::default();
    for (name, check) in CHECKS {
        if is_wanted(&wanted, name) {
            tally.see(&rt, name, check.holds())?;
        }
    }
    tally.end(&rt)
}
