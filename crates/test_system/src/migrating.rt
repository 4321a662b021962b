// The case of a run, over its manifest as `camr migrate` makes it: the trace has to be the same but for what the version adds. It relies on
// `cli_line` for the words and on `cli_commands` for the rest.

ghost use Rattle.std.specs.Prelude.{◌≡◌, length};

use crate::running::words_of;
use cli_commands::carry;
use cli_line::{LaterVersion, Plan, plan};
use std::alloc::{AllocError, Global};
use std::sync::Wait;
use std::thread::Threads;
use test_cases::{Case, File, Outcome};
use world_calls::Silent;

/// How a trace begins, and the version's place in it.
const HEADER: &[u8] = b"camr-trace ";

const VERSION: usize = 11;

/// The same case over its manifest migrated to each later version in which the trace is known: none if it runs no scenario to its end,
/// or has a call that its version does not know.
pub fn migrated<'a, R: Threads + Wait + Sync>(
    rt: &R,
    alloc: Global,
    case: &Case<'a>,
) -> Result<Vec<Case<'a>>, AllocError> {
    let mut cases = Vec::new(alloc);
    let out = case.wanted.out.as_slice();
    if !out.starts_with(HEADER) || has_line(out, b"withdraw ") {
        return Ok(cases);
    }
    let Some(words) = words_of(alloc, case)? else {
        return Ok(cases);
    };
    let Ok(Plan::Run(_, _, manifest, _)) = plan(alloc, words.as_slice()) else {
        return Ok(cases);
    };
    match out.get(VERSION) {
        Some(b'1') if !has_line(out, b"cfreeze ") => {
            cases.push(over(rt, alloc, case, manifest.as_str(), LaterVersion::Two)?)?;
            cases.push(over(rt, alloc, case, manifest.as_str(), LaterVersion::Three)?)?;
        }
        Some(b'2') => {
            cases.push(over(rt, alloc, case, manifest.as_str(), LaterVersion::Three)?)?;
        }
        _ => {}
    }
    Ok(cases)
}

// The case over its manifest migrated to that version.
fn over<'a, R: Threads + Wait + Sync>(
    rt: &R,
    alloc: Global,
    case: &Case<'a>,
    manifest: &str,
    to: LaterVersion,
) -> Result<Case<'a>, AllocError> {
    Ok(Case {
        name: case.name,
        line: case.line,
        words: copied(alloc, &case.words)?,
        files: migrated_files(rt, alloc, case, manifest, to)?,
        input: case.input.as_slice().to_vec(alloc)?,
        wanted: Outcome {
            out: retold(alloc, case.wanted.out.as_slice(), to)?,
            err: case.wanted.err.as_slice().to_vec(alloc)?,
            status: case.wanted.status,
        },
    })
}

// The trace as one of that version: in version 3 a submission has its class, and a start its advice.
fn retold(alloc: Global, trace: &[u8], to: LaterVersion) -> Result<Vec<u8>, AllocError> {
    let mut out = Vec::with_capacity(alloc, trace.len())?;
    for (place, line) in trace.split(|byte| *byte == b'\n').enumerate() {
        if place > 0 {
            out.push(b'\n')?;
        }
        match to {
            LaterVersion::Three => retell(line, &mut out)?,
            LaterVersion::Two => out.extend_from_slice(line)?,
        }
    }
    if let Some(version) = out.as_mut_slice().get_mut(VERSION) {
        *version = match to {
            LaterVersion::Two => b'2',
            LaterVersion::Three => b'3',
        };
    }
    Ok(out)
}

// A line as one of version 3.
fn retell(line: &[u8], out: &mut Vec<u8>) -> Result<(), AllocError> {
    let Some(equals) = line.iter().position(|byte| *byte == b'=') else {
        out.extend_from_slice(line)?;
        return Ok(());
    };
    let (call, answer) = line.split_at(equals);
    out.extend_from_slice(call)?;
    if call.starts_with(b"submit ") {
        out.extend_from_slice(b"0 ")?;
    }
    out.extend_from_slice(answer)?;
    if call.starts_with(b"dispatch ") && answer.starts_with(b"= ccb ") {
        out.extend_from_slice(b" advice 0")?;
    }
    Ok(())
}

fn has_line(trace: &[u8], begins: &[u8]) -> bool {
    trace
        .split(|byte| *byte == b'\n')
        .any(|line| line.starts_with(begins))
}

/// Copies of words.
pub(crate) fn copied(alloc: Global, words: &[Vec<u8>]) -> Result<Vec<Vec<u8>>, AllocError> {
    let mut copies = Vec::new(alloc);
    for word in words {
        copies.push(word.as_slice().to_vec(alloc)?)?;
    }
    Ok(copies)
}

// The case's files, of which the manifest is migrated.
fn migrated_files<'a, R: Threads + Wait + Sync>(
    rt: &R,
    alloc: Global,
    case: &Case<'a>,
    manifest: &str,
    to: LaterVersion,
) -> Result<Vec<File<'a>>, AllocError> {
    let mut files = Vec::new(alloc);
    for file in &case.files {
        let bytes = file.bytes.as_slice().to_vec(alloc)?;
        let bytes = if file.name == manifest {
            migrate(rt, alloc, bytes, to)?
        } else {
            bytes
        };
        files.push(File {
            name: file.name,
            bytes,
        })?;
    }
    Ok(files)
}

// What `camr migrate` makes of a manifest; where it refuses it, what it says.
fn migrate<R: Threads + Wait + Sync>(
    rt: &R,
    alloc: Global,
    manifest: Vec<u8>,
    to: LaterVersion,
) -> Result<Vec<u8>, AllocError> {
    let plan = Plan::Migrate(
        to,
        String::from_str(alloc, "old.toml")?,
        String::from_str(alloc, "new.toml")?,
    );
    let mut out = Vec::new(alloc);
    let mut err = Vec::new(alloc);
    match carry(rt, alloc, &plan, &[manifest], &Silent, &mut out, &mut err) {
        0 => Ok(out),
        _ => Ok(err),
    }
}
