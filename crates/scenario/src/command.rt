// What a line of a scenario asks for: a call of the engine, or a drain. It relies on `trace_lines` for the lines of calls.

ghost use Rattle.std.specs.Prelude.{◌≡◌, IfOk, List, Some, ℕ};
ghost use Rattle.trace_lines.specs.Lines.{line_text};
ghost use Rattle.trace_lines.specs.Written.{Reads};
ghost use Rattle.scenario.specs.Commands.{as_command, command_made, command_text, is_drain, is_of_run, is_said, may_say};

use std::alloc::{AllocError, Global};
use trace_lines::{Slots, Value, Word, call_of, has_classes, read_line, word_of};
use world_calls::{Call, Version};

/// What a line asks for.
#[derive(Debug, Drop)]
pub enum Command {
    /// The line of a call, but of none that names a run.
    Call(Call),
    /// `drain`: the completions that were reported are served.
    Drain,
}

/// The command of a line, which stands without its line feed. None where it is that of no command which a scenario of the version may have.
/// It takes memory for sense bytes alone.
pub(crate) fn command_of(
    alloc: Global,
    version: Version,
    line: &str,
) -> Result<Option<Command>, AllocError>
    ensures { IfOk result (Reads (command_text version) line.now) }
{
    if is_drain(line) {
        return Ok(Some(Command::Drain));
    }
    match read_line(line) {
        Some((word, held)) => command_made(alloc, version, word, &held),
        None => Ok(None),
    }
}

/// Whether the line is `drain`.
pub(crate) fn is_drain(line: &str) -> bool
    ensures { result ≡ is_drain line.now }
{
    line == "drain"
}

// The command of that word and these values, if a scenario of the version may have it.
fn command_made(
    alloc: Global,
    version: Version,
    word: Word,
    held: &Slots<Value>,
) -> Result<Option<Command>, AllocError>
    ensures { (text : List ℕ) → line_text word held.now ≡ Some text → IfOk result (λ made. made ≡ command_made version word held.now) }
{
    match call_of(alloc, word, held)? {
        Some(call) => Ok(as_command(version, call)),
        None => Ok(None),
    }
}

// The command, if a scenario of the version may have it.
fn as_command(version: Version, call: Call) -> Option<Command>
    ensures { result ≡ as_command version (Some call) }
{
    if is_said(version, &call) {
        Some(Command::Call(call))
    } else {
        None
    }
}

// Whether a scenario of the version may have the line of the call.
fn is_said(version: Version, call: &Call) -> bool
    ensures { result ≡ is_said version call.now }
{
    !is_of_run(word_of(call)) && may_say(version, call)
}

// Whether it is no submission with a class where CCBs have none.
fn may_say(version: Version, call: &Call) -> bool
    ensures { result ≡ may_say version call.now }
{
    match call {
        Call::Submit { class, .. } => match class {
            Some(_) => has_classes(version),
            None => true,
        },
        _ => true,
    }
}

/// Whether the lines of that word are of a run: of these a scenario has none.
pub fn is_of_run(word: Word) -> bool
    ensures { result ≡ is_of_run word }
{
    matches!(word, Word::Advance | Word::Park | Word::Resume)
}
