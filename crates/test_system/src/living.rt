// The case of a run once more, as it is asked over a pipe: after each completion the scenario says `drain`, as a live engine does by itself, and
// what goes out is to be the same. It relies on `cli_line` for the words, and on `running` for what is shown.

use crate::migrating::copied;
use crate::running;
use crate::running::words_of;
use cli_line::{Plan, plan};
use std::alloc::{AllocError, Global};
use std::sync::Wait;
use std::thread::Threads;
use test_cases::{Case, File, Outcome};

/// The case of `camr live` over the manifest and the scenario of a run, and what `camr run` shows of these; none where the case is none of a run
/// to its end.
pub fn live<'a, R: Threads + Wait + Sync>(
    rt: &R,
    alloc: Global,
    case: &Case<'a>,
) -> Result<Option<Case<'a>>, AllocError> {
    if case.wanted.status != 0 {
        return Ok(None);
    }
    let Some(words) = words_of(alloc, case)? else {
        return Ok(None);
    };
    let Ok(Plan::Run(_, _, manifest, scenario)) = plan(alloc, words.as_slice()) else {
        return Ok(None);
    };
    let run = drained(alloc, case, scenario.as_str())?;
    let input = match run.files.iter().find(|file| file.name == scenario.as_str()) {
        Some(file) => file.bytes.as_slice().to_vec(alloc)?,
        None => return Ok(None),
    };
    let wanted = running::run(rt, alloc, &run)?;
    let mut words = Vec::new(alloc);
    words.push(b"live".to_vec(alloc)?)?;
    words.push(b"--".to_vec(alloc)?)?;
    words.push(manifest.into_bytes())?;
    Ok(Some(Case {
        name: case.name,
        line: case.line,
        words,
        files: run.files,
        input,
        wanted,
    }))
}

// The same case, with `drain` after each completion, and with one worker.
fn drained<'a>(alloc: Global, case: &Case<'a>, scenario: &str) -> Result<Case<'a>, AllocError> {
    let mut files = Vec::new(alloc);
    for file in &case.files {
        let bytes = if file.name == scenario {
            with_drains(alloc, &file.bytes)?
        } else {
            file.bytes.as_slice().to_vec(alloc)?
        };
        files.push(File {
            name: file.name,
            bytes,
        })?;
    }
    Ok(Case {
        name: case.name,
        line: case.line,
        words: copied(alloc, &case.words)?,
        files,
        input: Vec::new(alloc),
        wanted: Outcome {
            out: Vec::new(alloc),
            err: Vec::new(alloc),
            status: 0,
        },
    })
}

// The lines of a scenario, each with its line feed, and with `drain` after each completion.
fn with_drains(alloc: Global, scenario: &[u8]) -> Result<Vec<u8>, AllocError> {
    let mut lines = Vec::new(alloc);
    for line in scenario.split(|byte| *byte == b'\n') {
        lines.extend_from_slice(line)?;
        lines.push(b'\n')?;
        if line.starts_with(b"complete ") {
            lines.extend_from_slice(b"drain\n")?;
        }
    }
    Ok(lines)
}
