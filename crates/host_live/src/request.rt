// What a line asks for: a call, or what is none. It relies on `trace_lines` for numbers, and for the lines of calls and what a version has.

ghost use Rattle.std.specs.Prelude.{◌≡◌, ◌++◌, ℕ, IfOk, List, MatchOption};
ghost use Rattle.scenario.specs.Commands.{may_say};
ghost use Rattle.trace_lines.specs.Texts.{number_text};
ghost use Rattle.trace_lines.specs.Written.{Reads};
ghost use Rattle.world.specs.World.{class_in};
ghost use Rattle.host_live.specs.Requests.{AsksFor, call_text, call_told, class_told, drive_text, own_text, request_text, request_told, said_in, spelled_call, step_text, succession_text, told_text, named_text};

use std::alloc::{AllocError, Global};
use trace_lines::{call_of, has_classes, long_number, read_line};
use world_calls::{Call, Version};

/// How another engine is to follow.
#[derive(Clone, Copy, Debug, PartialEq, Eq)]
pub struct Succession {
    /// The manifest is read again. Otherwise the one in force stays.
    pub is_reloaded: bool,
    /// CCBs, freezes and runs are numbered from 1 again.
    pub is_fresh: bool,
}

/// What a line asks for.
#[derive(Debug, Drop)]
pub enum Request {
    /// The line of a call: the engine is asked for it.
    Call(Call),
    /// `step R`: run R is driven to its next stop.
    Step(u32),
    /// `drive R`: run R is driven to its end.
    Drive(u32),
    /// `drain`: as in a scenario, that all runs came to their ends.
    Drain,
    /// `totals`: the sums are told.
    Totals,
    /// `ccbs`: the live CCBs are told.
    Ccbs,
    /// `rotate`, `rotate fresh`, `reload` or `reload fresh`: another engine is to follow this one.
    Succeed(Succession),
    /// `quit`: the input ends here. Only where lines are answered.
    Quit,
    /// `help`: the list of the requests is told. Only where lines are answered.
    Help,
}

/// What a line asks for, which stands without its line feed, of an engine whose records have that version, where lines are answered or not.
/// None where no request is spelled so. It takes memory for sense bytes alone.
pub fn request_of(
    alloc: Global,
    version: Version,
    line: &str,
    is_told: bool,
) -> Result<Option<Request>, AllocError>
    // `quit` and `help` are read only where lines are answered.
    ensures { IfOk result (Reads (request_text version is_told) line.now) }
{
    match named_request(line, is_told) {
        Some(request) => Ok(Some(request)),
        None => match call_in(alloc, version, line) {
            Ok(Some(call)) => Ok(Some(Request::Call(call))),
            Ok(None) => Ok(None),
            Err(fault) => Err(fault),
        },
    }
}

/// The same, as the records of that version tell it: where CCBs have a class, a submission whose line says none has the class 0.
pub(crate) fn asked_by(
    alloc: Global,
    version: Version,
    line: &str,
    is_told: bool,
) -> Result<Option<Request>, AllocError>
    ensures { IfOk result (AsksFor version is_told line.now) }
{
    match request_of(alloc, version, line, is_told) {
        Ok(Some(request)) => Ok(Some(told(version, request))),
        Ok(None) => Ok(None),
        Err(fault) => Err(fault),
    }
}

// What is asked for, as the records of a version tell it.
fn told(version: Version, request: Request) -> Request
    ensures { result ≡ request_told version request }
{
    match request {
        Request::Call(call) => Request::Call(call_told(version, call)),
        Request::Step(run) => Request::Step(run),
        Request::Drive(run) => Request::Drive(run),
        Request::Drain => Request::Drain,
        Request::Totals => Request::Totals,
        Request::Ccbs => Request::Ccbs,
        Request::Succeed(how) => Request::Succeed(how),
        Request::Quit => Request::Quit,
        Request::Help => Request::Help,
    }
}

// A line's call, as a record of the version tells it.
fn call_told(version: Version, call: Call) -> Call
    ensures { result ≡ call_told version call }
{
    match call {
        Call::Submit {
            queue,
            priority,
            retries,
            class,
        } => Call::Submit {
            queue,
            priority,
            retries,
            class: class_told(version, class),
        },
        Call::Dispatch { queue } => Call::Dispatch { queue },
        Call::Complete { completion } => Call::Complete { completion },
        Call::Withdraw { ccb } => Call::Withdraw { ccb },
        Call::GuestFreeze { place, guest } => Call::GuestFreeze { place, guest },
        Call::GuestRelease { freeze } => Call::GuestRelease { freeze },
        Call::Clock { reading } => Call::Clock { reading },
        Call::Park { run } => Call::Park { run },
        Call::Resume { run } => Call::Resume { run },
    }
}

// The class that the record of a submission says.
fn class_told(version: Version, class: Option<u32>) -> Option<u32>
    ensures { result ≡ class_told version class }
{
    if has_classes(version) {
        Some(class_in(class))
    } else {
        None
    }
}

// The class of a CCB by that of its submission.
fn class_in(class: Option<u32>) -> u32
    ensures { result ≡ class_in class }
{
    match class {
        Some(class) => class,
        None => 0,
    }
}

// The call of a line, if a line of the version may say it.
fn call_in(alloc: Global, version: Version, line: &str) -> Result<Option<Call>, AllocError>
    ensures { IfOk result (Reads (call_text version) line.now) }
{
    match call_read(alloc, line) {
        Ok(Some(call)) => Ok(said(version, call)),
        Ok(None) => Ok(None),
        Err(fault) => Err(fault),
    }
}

// The call, if a line of the version may say it.
fn said(version: Version, call: Call) -> Option<Call>
    ensures { result ≡ said_in version call }
{
    if may_say(version, &call) {
        Some(call)
    } else {
        None
    }
}

// Whether it is no submission with a class where CCBs have none.
fn may_say(version: Version, call: &Call) -> bool
    ensures { result ≡ may_say version call.now }
{
    match call {
        Call::Submit { class, .. } => match class {
            Some(_) => has_classes(version),
            None => true,
        },
        _ => true,
    }
}

// The call of a line, in any version.
fn call_read(alloc: Global, line: &str) -> Result<Option<Call>, AllocError>
    ensures { IfOk result (Reads spelled_call line.now) }
{
    match read_line(line) {
        Some((word, held)) => call_of(alloc, word, &held),
        None => Ok(None),
    }
}

// What a line asks for that is none of a call.
fn named_request(line: &str, is_told: bool) -> Option<Request>
    ensures { Reads (named_text is_told) line.now result }
{
    match told_request(line, is_told) {
        Some(request) => Some(request),
        None => own_request(line),
    }
}

// What a line asks for only where lines are answered.
fn told_request(line: &str, is_told: bool) -> Option<Request>
    ensures { Reads (told_text is_told) line.now result }
{
    if !is_told {
        return None;
    }
    if line == "quit" {
        return Some(Request::Quit);
    }
    if line == "help" {
        return Some(Request::Help);
    }
    None
}

// What a line asks for that is none of a call, whether lines are answered or not.
fn own_request(line: &str) -> Option<Request>
    ensures { Reads own_text line.now result }
{
    if line == "drain" {
        return Some(Request::Drain);
    }
    if line == "totals" {
        return Some(Request::Totals);
    }
    if line == "ccbs" {
        return Some(Request::Ccbs);
    }
    match succession_in(line) {
        Some(how) => Some(Request::Succeed(how)),
        None => match step_request(line) {
            Some(stepped) => Some(Request::Step(stepped)),
            None => match drive_request(line) {
                Some(driven) => Some(Request::Drive(driven)),
                None => None,
            },
        },
    }
}

// How another engine is to follow.
fn succession_in(line: &str) -> Option<Succession>
    ensures { Reads succession_text line.now result }
{
    if line == "rotate" {
        return Some(Succession {
            is_reloaded: false,
            is_fresh: false,
        });
    }
    if line == "rotate fresh" {
        return Some(Succession {
            is_reloaded: false,
            is_fresh: true,
        });
    }
    if line == "reload" {
        return Some(Succession {
            is_reloaded: true,
            is_fresh: false,
        });
    }
    if line == "reload fresh" {
        return Some(Succession {
            is_reloaded: true,
            is_fresh: true,
        });
    }
    None
}

// The run that is to be driven to its next stop.
fn step_request(line: &str) -> Option<u32>
    ensures { Reads step_text line.now result }
{
    match behind(line, "step ") {
        Some(rest) => number(rest),
        None => None,
    }
}

// The run that is to be driven to its end.
fn drive_request(line: &str) -> Option<u32>
    ensures { Reads drive_text line.now result }
{
    match behind(line, "drive ") {
        Some(rest) => number(rest),
        None => None,
    }
}

// What follows a word.
fn behind<'a>(line: &'a str, word: &str) -> Option<&'a str>
    ensures { MatchOption result ((rest : _) → ¬ (line.now ≡ word.now ++ rest)) (λ rest. line.now ≡ word.now ++ rest.now) }
{
    line.strip_prefix(word)
}

// A number below 2^32, as a line spells it.
fn number(word: &str) -> Option<u32>
    ensures { Reads number_text word.now result }
{
    match long_number(word) {
        Some(number) => u32::try_from(number).ok(),
        None => None,
    }
}
