// The subcommand `show` as `clap` is given it. It relies on `usage` for paths.

ghost use Rattle.std.specs.Prelude.{◌≡◌, IfOk};
ghost use Rattle.cli_line.specs.RunCommand.{IsArgument, IsCommand, drawn_command, flag_rule, formed_command, numbered_command, option_rule, reported_command, show_command, timed_command};

use crate::usage::{manifest, trace};
use clap::{Arg, ArgAction, Command};
use std::alloc::{AllocError, Global};

/// What help of it has at its end.
const TOGETHER: &str = "\
The options from --ccb to --refused choose events: the account shows those that fit all of them.
None of these goes with --summary or --svg, and --summary does not go with --svg.
--json goes with all but --svg, and --perfetto with none of all these.";

/// The subcommand `show` by itself.
pub fn show_command<'a>(alloc: Global) -> Result<Command<'a>, AllocError>
    ensures { IfOk result (IsCommand show_command) }
{
    drawn_command(alloc)?
        .after_help(TOGETHER)
        .arg(manifest(alloc))?
        .arg(trace(alloc))
}

// The subcommand without its paths: with the options for what is written into a file of its own.
fn drawn_command<'a>(alloc: Global) -> Result<Command<'a>, AllocError>
    ensures { IfOk result (IsCommand drawn_command) }
{
    let picture = option(
        alloc,
        "svg",
        "OUT",
        "Draws into that file, in place of the account; `-` is standard output",
    );
    let events = option(
        alloc,
        "perfetto",
        "OUT",
        "Writes trace events for Perfetto into that file; `-` is standard output",
    );
    formed_command(alloc)?.arg(picture)?.arg(events)
}

// The subcommand with those for what is printed, and in which form.
fn formed_command<'a>(alloc: Global) -> Result<Command<'a>, AllocError>
    ensures { IfOk result (IsCommand formed_command) }
{
    let summary = flag(alloc, "summary", "Counts, in place of the account");
    let json = flag(
        alloc,
        "json",
        "Prints JSON, in place of text: an object a line",
    );
    reported_command(alloc)?.arg(summary)?.arg(json)
}

// The subcommand with the options that are about what was reported.
fn reported_command<'a>(alloc: Global) -> Result<Command<'a>, AllocError>
    ensures { IfOk result (IsCommand reported_command) }
{
    let status = option(
        alloc,
        "status",
        "SS",
        "Completions with that SCSI status, as `28`",
    );
    let sense = option(
        alloc,
        "sense",
        "SENSE",
        "Completions with that sense data: `6`, `6/29` or `6/29/00`",
    );
    let refused = option(
        alloc,
        "refused",
        "CODE",
        "Calls that are refused so, as `Q2`, or `any`",
    );
    timed_command(alloc)?.arg(status)?.arg(sense)?.arg(refused)
}

// The subcommand with those that are about times.
fn timed_command<'a>(alloc: Global) -> Result<Command<'a>, AllocError>
    ensures { IfOk result (IsCommand timed_command) }
{
    let from = option(
        alloc,
        "from",
        "T",
        "Events at that clock reading in milliseconds or later",
    );
    let to = option(alloc, "to", "T", "Events at that clock reading or earlier");
    numbered_command(alloc)?.arg(from)?.arg(to)
}

// The subcommand with those that are about something with a number.
fn numbered_command<'a>(alloc: Global) -> Result<Command<'a>, AllocError>
    ensures { IfOk result (IsCommand numbered_command) }
{
    let ccb = option(alloc, "ccb", "N", "Events of the CCB of that number");
    let queue = option(alloc, "queue", "N", "Events of that queue, 0 to 63");
    let run = option(alloc, "run", "N", "Events of the run of that number");
    let freeze = option(alloc, "freeze", "N", "Events of the freeze of that number");
    Command::new(alloc, "show")
        .about("Reports in words what happened in a trace")
        .arg(ccb)?
        .arg(queue)?
        .arg(run)?
        .arg(freeze)
}

/// An option of one word, which may be left out.
pub(crate) fn option<'a>(alloc: Global, name: &'a str, value: &'a str, help: &'a str) -> Arg<'a>
    ensures { IsArgument (option_rule name.entry.now) result }
{
    Arg::new(alloc, name)
        .long(name)
        .value_name(value)
        .help(help)
}

/// A flag, which may be left out.
pub(crate) fn flag<'a>(alloc: Global, name: &'a str, help: &'a str) -> Arg<'a>
    ensures { IsArgument (flag_rule name.entry.now) result }
{
    Arg::new(alloc, name)
        .long(name)
        .action(ArgAction::SetTrue)
        .help(help)
}
