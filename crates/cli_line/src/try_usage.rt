// The subcommand `try` as `clap` is given it. It relies on `usage` for paths, and on `show_usage` for options.

ghost use Rattle.std.specs.Prelude.{◌≡◌, IfOk};
ghost use Rattle.cli_line.specs.RunCommand.{IsCommand, seeded_command, try_command};

use crate::show_usage::option;
use crate::usage::{manifest, path};
use clap::Command;
use std::alloc::{AllocError, Global};

/// The subcommand `try` by itself.
pub fn try_command<'a>(alloc: Global) -> Result<Command<'a>, AllocError>
    ensures { IfOk result (IsCommand try_command) }
{
    let disks = path(
        alloc,
        "DISKS",
        "The device of each queue, as TOML; `-` is standard input",
    );
    seeded_command(alloc)?.arg(manifest(alloc))?.arg(disks)
}

// The subcommand with its options.
fn seeded_command<'a>(alloc: Global) -> Result<Command<'a>, AllocError>
    ensures { IfOk result (IsCommand seeded_command) }
{
    let seed = option(
        alloc,
        "seed",
        "N",
        "Draws by that seed, and not by the file's",
    );
    let trace = option(
        alloc,
        "trace",
        "OUT",
        "Writes the trace into that file; `-` is standard output, in place of the summary",
    );
    Command::new(alloc, "try")
        .about("Tries the policies of a manifest on devices, in virtual time")
        .arg(seed)?
        .arg(trace)
}
