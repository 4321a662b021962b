// The command line as `clap` is given it: its subcommands with their options and paths, and what help says of
// them. It relies on `show_usage` for those of `show`, on `decide_usage` for those of `decide`, and on `try_usage` for those of `try`.

ghost use Rattle.std.specs.Prelude.{◌≡◌, IfOk, codes};
ghost use Rattle.clap.specs.Words.{new_rule};
ghost use Rattle.cli_line.specs.RunCommand.{IsArgument, IsCommand, camr_command};
ghost use Rattle.cli_line.specs.RunCommand.{asm_command, audit_command, bare_command, check_command, decides_command, default_rule, dis_command, explain_command, manifests_command, migrate_command};
ghost use Rattle.cli_line.specs.RunCommand.{path_rule, programs_command, replay_command, run_command, run_options, runs_command, shows_command, texts_command, traces_command};
ghost use Rattle.cli_line.specs.RunCommand.{watch_rule, workers_rule};

use crate::decide_usage::decide_command;
use crate::living::live_command;
use crate::show_usage::{flag, show_command};
use crate::try_usage::try_command;
use clap::{Arg, Command, value_parser};
use std::alloc::{AllocError, Global};

/// What `--version` prints after the program's name: its version, and the profile of its policies.
const VERSION: &str = "1.0.0, policy profile 3";

/// What help has at its end.
const EXAMPLE: &str = "\
Example:
  camr run examples/first/manifest.toml examples/first/scenario.txt";

/// The whole command line.
pub fn camr_command<'a>(alloc: Global) -> Result<Command<'a>, AllocError>
    ensures { IfOk result (IsCommand camr_command) }
{
    let tried = try_command(alloc)?;
    decides_command(alloc)?.subcommand(tried)
}

// The command without the one that tries policies.
fn decides_command<'a>(alloc: Global) -> Result<Command<'a>, AllocError>
    ensures { IfOk result (IsCommand decides_command) }
{
    let decide = decide_command(alloc)?;
    shows_command(alloc)?.subcommand(decide)
}

// The command without the one that says what a policy decides.
fn shows_command<'a>(alloc: Global) -> Result<Command<'a>, AllocError>
    ensures { IfOk result (IsCommand shows_command) }
{
    let show = show_command(alloc)?;
    traces_command(alloc)?.subcommand(show)
}

/// The command line as it is shown: that `--watch` may stand without its word.
pub(crate) fn shown_command<'a>(alloc: Global) -> Result<Command<'a>, AllocError> {
    let run = shown_run_command(alloc)?;
    let live = live_command(alloc)?;
    let runs = manifests_command(alloc)?.subcommand(run)?.subcommand(live)?;
    shown_traces_command(alloc, runs)
}

fn shown_run_command<'a>(alloc: Global) -> Result<Command<'a>, AllocError> {
    run_command(alloc)?.mut_arg("watch", |watch| {
        Ok(watch.num_args(0..=1).require_equals(true))
    })
}

// The shown command with those that read a trace too, and with `decide` and `try`.
fn shown_traces_command<'a>(alloc: Global, runs: Command<'a>) -> Result<Command<'a>, AllocError> {
    let replay = replay_command(alloc)?;
    let audit = audit_command(alloc)?;
    let show = show_command(alloc)?;
    let decide = decide_command(alloc)?;
    let tried = try_command(alloc)?;
    runs.subcommand(replay)?
        .subcommand(audit)?
        .subcommand(show)?
        .subcommand(decide)?
        .subcommand(tried)
}

// The command without those that tell what happened and what is decided.
fn traces_command<'a>(alloc: Global) -> Result<Command<'a>, AllocError>
    ensures { IfOk result (IsCommand traces_command) }
{
    let replay = replay_command(alloc)?;
    let audit = audit_command(alloc)?;
    runs_command(alloc)?.subcommand(replay)?.subcommand(audit)
}

// The command without those that read a trace.
fn runs_command<'a>(alloc: Global) -> Result<Command<'a>, AllocError>
    ensures { IfOk result (IsCommand runs_command) }
{
    let run = run_command(alloc)?;
    let live = live_command(alloc)?;
    manifests_command(alloc)?.subcommand(run)?.subcommand(live)
}

// The command with all that is for programs and manifests alone.
fn manifests_command<'a>(alloc: Global) -> Result<Command<'a>, AllocError>
    ensures { IfOk result (IsCommand manifests_command) }
{
    let explain = explain_command(alloc)?;
    let migrate = migrate_command(alloc)?;
    programs_command(alloc)?
        .subcommand(explain)?
        .subcommand(migrate)
}

// The command with all that is for programs alone.
fn programs_command<'a>(alloc: Global) -> Result<Command<'a>, AllocError>
    ensures { IfOk result (IsCommand programs_command) }
{
    let asm = asm_command(alloc)?;
    let dis = dis_command(alloc)?;
    let check = check_command(alloc)?;
    texts_command(alloc, asm, dis)?.subcommand(check)
}

// The command with `asm` and `dis` alone.
fn texts_command<'a>(
    alloc: Global,
    asm: Command<'a>,
    dis: Command<'a>,
) -> Result<Command<'a>, AllocError>
    requires asm { IsCommand asm_command asm }
    requires dis { IsCommand dis_command dis }
    ensures { IfOk result (IsCommand texts_command) }
{
    bare_command(alloc)?.subcommand(asm)?.subcommand(dis)
}

// The command without subcommands.
fn bare_command<'a>(alloc: Global) -> Result<Command<'a>, AllocError>
    ensures { IfOk result (IsCommand bare_command) }
{
    Command::new(alloc, "camr")
        .about("A CAM transport whose error recovery is written as BPF programs")
        .version(VERSION)
        .after_help(EXAMPLE)
        .no_binary_name(true)
        .subcommand_required(true)
        .arg_required_else_help(true)
        .bin_name("camr")
}

fn asm_command<'a>(alloc: Global) -> Result<Command<'a>, AllocError>
    ensures { IfOk result (IsCommand asm_command) }
{
    let text = path(
        alloc,
        "IN",
        "A program as text, an instruction a line; `-` is standard input",
    );
    let program = path(alloc, "OUT", "The file that gets the program's bytes");
    Command::new(alloc, "asm")
        .about("Assembles the text of a program")
        .arg(text)?
        .arg(program)
}

fn dis_command<'a>(alloc: Global) -> Result<Command<'a>, AllocError>
    ensures { IfOk result (IsCommand dis_command) }
{
    let program = path(
        alloc,
        "FILE",
        "The bytes of a program; `-` is standard input",
    );
    Command::new(alloc, "dis")
        .about("Prints the text of a program")
        .arg(program)
}

fn check_command<'a>(alloc: Global) -> Result<Command<'a>, AllocError>
    ensures { IfOk result (IsCommand check_command) }
{
    Command::new(alloc, "check")
        .about("Verifies the programs of a manifest and prints their budgets")
        .arg(manifest(alloc))
}

/// The subcommand `explain` by itself.
pub(crate) fn explain_command<'a>(alloc: Global) -> Result<Command<'a>, AllocError>
    ensures { IfOk result (IsCommand explain_command) }
{
    let word = path(
        alloc,
        "WORD",
        "A code, as `V8`, or a manifest; `./V8` is a file of that name, and `-` is standard input",
    );
    let file = given_file(alloc);
    Command::new(alloc, "explain")
        .about("Explains what a code means, or why a manifest, a scenario or a trace is refused")
        .arg(word)?
        .arg(file)
}

/// The subcommand `migrate` by itself.
pub(crate) fn migrate_command<'a>(alloc: Global) -> Result<Command<'a>, AllocError>
    ensures { IfOk result (IsCommand migrate_command) }
{
    let old = path(
        alloc,
        "IN",
        "A manifest of a lower version; `-` is standard input",
    );
    let migrated = path(alloc, "OUT", "The file that gets it as one of that version");
    Command::new(alloc, "migrate")
        .about("Writes a manifest anew in a later version")
        .arg(later_version(alloc))?
        .arg(old)?
        .arg(migrated)
}

/// The subcommand `run` by itself.
pub fn run_command<'a>(alloc: Global) -> Result<Command<'a>, AllocError>
    ensures { IfOk result (IsCommand run_command) }
{
    let scenario = path(
        alloc,
        "SCENARIO",
        "What happens, a command a line; `-` is standard input",
    );
    run_options(alloc)?.arg(manifest(alloc))?.arg(scenario)
}

// The same with its options alone.
fn run_options<'a>(alloc: Global) -> Result<Command<'a>, AllocError>
    ensures { IfOk result (IsCommand run_options) }
{
    let strict = flag(
        alloc,
        "strict",
        "Counts on standard error the calls that were refused, and fails if any was",
    );
    Command::new(alloc, "run")
        .about("Runs a scenario and prints its trace")
        .arg(workers(alloc))?
        .arg(strict)?
        .arg(watch(alloc))
}

/// The subcommand `replay` by itself.
pub(crate) fn replay_command<'a>(alloc: Global) -> Result<Command<'a>, AllocError>
    ensures { IfOk result (IsCommand replay_command) }
{
    Command::new(alloc, "replay")
        .about("Replays a trace and says whether it is lawful")
        .arg(manifest(alloc))?
        .arg(trace(alloc))
}

fn audit_command<'a>(alloc: Global) -> Result<Command<'a>, AllocError>
    ensures { IfOk result (IsCommand audit_command) }
{
    let folder = path(alloc, "DIR", "The folder of a journal");
    Command::new(alloc, "audit")
        .about("Replays a journal and says whether it is lawful")
        .arg(folder)
}

fn workers<'a>(alloc: Global) -> Arg<'a>
    ensures { IsArgument workers_rule result }
{
    Arg::new(alloc, "workers")
        .long("workers")
        .value_name("N")
        .value_parser(value_parser!(u8).range(1..=16))
        .default_value("1")
        .help("How many workers serve completions, 1 to 16")
}

fn later_version<'a>(alloc: Global) -> Arg<'a>
    ensures { IsArgument (default_rule (codes "to") (codes "2")) result }
{
    Arg::new(alloc, "to")
        .long("to")
        .value_name("VERSION")
        .default_value("2")
        .help("The version: 2, which has controllers, or 3, which also has classes and advice")
}

fn watch<'a>(alloc: Global) -> Arg<'a>
    ensures { IsArgument watch_rule result }
{
    Arg::new(alloc, "watch")
        .long("watch")
        .value_name("WHEN")
        .default_value("never")
        .help(
            "Reports sums on standard error: with `terminal`, if that is a terminal; with `lines`, always",
        )
}

/// The manifest that is read.
pub(crate) fn manifest<'a>(alloc: Global) -> Arg<'a>
    ensures { IsArgument (path_rule (codes "MANIFEST")) result }
{
    path(
        alloc,
        "MANIFEST",
        "The queues, their programs and their tables; `-` is standard input",
    )
}

/// The manifest, where it may be left out.
pub(crate) fn given_manifest<'a>(alloc: Global) -> Arg<'a>
    ensures { IsArgument (new_rule (codes "MANIFEST")) result }
{
    Arg::new(alloc, "MANIFEST").help(
        "The queues, their programs and their tables; left out, a journal's own",
    )
}

// The scenario or the trace that is explained, where it may be left out.
fn given_file<'a>(alloc: Global) -> Arg<'a>
    ensures { IsArgument (new_rule (codes "FILE")) result }
{
    Arg::new(alloc, "FILE").help("A scenario or a trace, over that manifest; `-` is standard input")
}

/// The trace that is read.
pub(crate) fn trace<'a>(alloc: Global) -> Arg<'a>
    ensures { IsArgument (path_rule (codes "TRACE")) result }
{
    path(
        alloc,
        "TRACE",
        "What was recorded, a line a record; `-` is standard input",
    )
}

/// A path, or another word, that has to be there.
pub(crate) fn path<'a>(alloc: Global, name: &'a str, help: &'a str) -> Arg<'a>
    ensures { IsArgument (path_rule name.entry.now) result }
{
    Arg::new(alloc, name).required(true).help(help)
}
