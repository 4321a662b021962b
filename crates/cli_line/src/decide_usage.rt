// The subcommand `decide` as `clap` is given it. It relies on `usage` for words that have to be there.

ghost use Rattle.std.specs.Prelude.{◌≡◌, IfOk};
ghost use Rattle.cli_line.specs.RunCommand.{IsArgument, IsCommand, classed_command, decide_command, default_rule, failing_command, repeated_rule, standing_command, wide_command};

use crate::show_usage::flag;
use crate::usage::{manifest, path};
use clap::{Arg, ArgAction, Command};
use std::alloc::{AllocError, Global};

/// What help of it has at its end.
const READ: &str = "\
STATUS, SCSI and SENSE are spelled as in the line of a completion: 0c 02 700006000000000a0000000029000000.";

/// The subcommand `decide` by itself.
pub fn decide_command<'a>(alloc: Global) -> Result<Command<'a>, AllocError>
    ensures { IfOk result (IsCommand decide_command) }
{
    let scsi = path(alloc, "SCSI", "Its SCSI status, as `02`");
    let sense = path(
        alloc,
        "SENSE",
        "Its sense data, two digits a byte, or `-` for none",
    );
    failing_command(alloc)?
        .after_help(READ)
        .arg(scsi)?
        .arg(sense)
}

// The subcommand with its options, its manifest, and the first words of the failure.
fn failing_command<'a>(alloc: Global) -> Result<Command<'a>, AllocError>
    ensures { IfOk result (IsCommand failing_command) }
{
    let queue = path(alloc, "QUEUE", "The queue of the command that fails");
    let status = path(
        alloc,
        "STATUS",
        "The CAM status with which it fails, as `0b`",
    );
    wide_command(alloc)?
        .arg(manifest(alloc))?
        .arg(queue)?
        .arg(status)
}

// The subcommand with all its options.
fn wide_command<'a>(alloc: Global) -> Result<Command<'a>, AllocError>
    ensures { IfOk result (IsCommand wide_command) }
{
    let word = repeated(
        alloc,
        "word",
        "K:I=W",
        "Word I of table K is W; may be given more than once",
    );
    let all = flag(
        alloc,
        "all-sense",
        "Prints a table of what is decided of all sense keys, ASC and ASCQ",
    );
    classed_command(alloc)?.arg(word)?.arg(all)
}

// The subcommand with the option for what the command is, too.
fn classed_command<'a>(alloc: Global) -> Result<Command<'a>, AllocError>
    ensures { IfOk result (IsCommand classed_command) }
{
    let class = defaulting(
        alloc,
        "class",
        "N",
        "0",
        "What the command is, as its submission says; in version 3",
    );
    standing_command(alloc)?.arg(class)
}

// The subcommand with the options for the command that fails, and for the clock.
fn standing_command<'a>(alloc: Global) -> Result<Command<'a>, AllocError>
    ensures { IfOk result (IsCommand standing_command) }
{
    let retries = defaulting(
        alloc,
        "retries",
        "N",
        "5",
        "How often the command may still be tried again",
    );
    let attempts = defaulting(
        alloc,
        "attempts",
        "N",
        "1",
        "How often the command was started",
    );
    let clock = defaulting(
        alloc,
        "clock",
        "T",
        "0",
        "What the clock reads, in milliseconds",
    );
    Command::new(alloc, "decide")
        .about("Says what a queue's policy does with a failed command")
        .arg(retries)?
        .arg(attempts)?
        .arg(clock)
}

// An option of one word, with the word that it has if it is not given.
fn defaulting<'a>(
    alloc: Global,
    name: &'a str,
    value: &'a str,
    default: &'a str,
    help: &'a str,
) -> Arg<'a>
    ensures { IsArgument (default_rule name.entry.now default.entry.now) result }
{
    Arg::new(alloc, name)
        .long(name)
        .value_name(value)
        .default_value(default)
        .help(help)
}

// An option of one word that may be given more than once.
fn repeated<'a>(alloc: Global, name: &'a str, value: &'a str, help: &'a str) -> Arg<'a>
    ensures { IsArgument (repeated_rule name.entry.now) result }
{
    Arg::new(alloc, name)
        .long(name)
        .value_name(value)
        .action(ArgAction::Append)
        .help(help)
}
