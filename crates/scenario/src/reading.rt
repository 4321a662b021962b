// Reads a scenario: a command a line, by the rows of the calls' lines, and `drain`. It relies on `command` for a line.

ghost use Rattle.std.specs.Prelude.{◌≡◌, ◌++◌, [], IfErr, IfOk};
ghost use Rattle.scenario.specs.Keeping.{Keeps, calls_in};
ghost use Rattle.scenario.specs.Said.{IfFault, IsFaultyLine, Say, is_skipped, lines_of};

use crate::command::{Command, command_of, is_drain};
use crate::scenario::Scenario;
use base::OrMemory;
use std::alloc::{AllocError, Global};
use world_calls::{Call, Version};

/// N1: the line of that number, from 1, is not of the form.
#[derive(Clone, Copy, Debug, PartialEq, Eq)]
pub struct FaultyLine(pub usize);

/// Why a scenario was not read: memory was refused, or a line is faulty.
pub type ScenarioError = OrMemory<FaultyLine>;

/// Reads the whole scenario for an engine whose histories have that version: a step a line, in their order. Empty lines and those that
/// begin with `#` are skipped. N1 tells the first line that is not of the form.
pub fn read(alloc: Global, version: Version, text: &str) -> Result<Scenario<'_>, ScenarioError>
    ensures said { IfOk result (λ scenario. Say version (lines_of text.now) scenario) }
    ensures faulty { IfErr result (IfFault (IsFaultyLine version text.now)) }
{
    let mut calls = room_for(alloc, text);
    let (mut rest, mut number) = (text, 1usize);
    while let Some((line, behind)) = rest.split_once('\n') {
        keep(alloc, version, &mut calls, number, line)?;
        rest = behind;
        number += 1;
    }
    keep(alloc, version, &mut calls, number, rest)?;
    Ok(Scenario { text, calls })
}

// No calls, with room for those of the text if there is memory for all at once.
fn room_for(alloc: Global, text: &str) -> Vec<Call>
    ensures { result.items ≡ [] }
{
    match Vec::with_capacity(alloc, count_of(text)) {
        Ok(calls) => calls,
        Err(AllocError) => Vec::new(alloc),
    }
}

// How many lines of a text are to be those of calls.
fn count_of(text: &str) -> usize {
    let mut count = 0usize;
    for line in text.lines() {
        if !is_skipped(line) && !is_drain(line) {
            count = count.saturating_add(1);
        }
    }
    count
}

// Keeps what the line of that number asks for, if it says anything.
fn keep(
    alloc: Global,
    version: Version,
    calls: &mut Vec<Call>,
    number: usize,
    line: &str,
) -> Result<(), ScenarioError>
    ensures { Keeps version number line.now calls.old.items result calls.new.items }
{
    if is_skipped(line) {
        return Ok(());
    }
    match command_of(alloc, version, line)? {
        Some(command) => Ok(keep_call(calls, command)?),
        None => Err(OrMemory::Fault(FaultyLine(number))),
    }
}

// Keeps the call of a command that is no drain.
fn keep_call(calls: &mut Vec<Call>, command: Command) -> Result<(), AllocError>
    ensures { IfOk result (λ _. calls.new.items ≡ calls.old.items ++ calls_in command) }
{
    match command {
        Command::Call(call) => calls.push(call).map_err(AllocError::from),
        Command::Drain => Ok(()),
    }
}

/// Whether the line says nothing: it is empty, or begins with `#`.
pub fn is_skipped(line: &str) -> bool
    ensures { result ≡ is_skipped line.now }
{
    line.is_empty() || line.starts_with('#')
}
