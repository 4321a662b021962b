// The checks of the engine as data: what is asked of two engines, line by line, and what is told of it. It reads the cases of the files
// that its words name, and carries each out in each manner in which an engine is asked. Memory that is refused once changes nothing of
// what is told: .ci/refusals refuses each call for memory in turn. It relies on `test_cases` for cases. What a script may say stands in
// data/README.
#![tactic(auto)]

mod asking;
mod desk;
mod side;

use asking::Manner;
use desk::Desk;
use side::{Side, engine_of};
use std::alloc::{AllocError, Global};
use std::process::ExitCode;
use std::rt::Files;
use std::{fs, io};
use test_cases::{Case, CaseError};
use test_tally::{Tally, words};

/// The manners in which an engine is asked.
const MANNERS: [Manner; 3] = [Manner::Events, Manner::Methods, Manner::Segments];

fn main(rt: HostRuntime) -> io::Result<ExitCode> {
    let mut tally = Tally::default();
    for path in &words(&rt)? {
        check_file(&rt, path.as_str(), &mut tally)?;
    }
    tally.end(&rt)
}

// The text of a file. If memory is refused, the same call succeeds the second time.
fn text_of<R: Files + AllocGlobal>(rt: &R, path: &str) -> io::Result<String> {
    match fs::read_to_string(rt, path) {
        Ok(text) => Ok(text),
        Err(_) => fs::read_to_string(rt, path),
    }
}

// The cases of a text. If memory is refused, the same call succeeds the second time.
fn cases_of(alloc: Global, text: &str) -> Result<Vec<Case<'_>>, CaseError> {
    match test_cases::read(alloc, text) {
        Err(CaseError::OutOfMemory) => test_cases::read(alloc, text),
        cases => cases,
    }
}

fn check_file<R: Files + Print + AllocGlobal>(
    rt: &R,
    path: &str,
    tally: &mut Tally,
) -> io::Result<()> {
    let text = text_of(rt, path)?;
    match cases_of(rt.alloc(), text.as_str()) {
        Ok(cases) => {
            for case in &cases {
                let holds = holds(rt, path, case)?;
                tally.see(rt, case.name, holds)?;
            }
            Ok(())
        }
        Err(fault) => {
            println!(rt; "{path}: {fault}")?;
            tally.see(rt, path, false)
        }
    }
}

// Whether what is told is what the case wants, in each manner. What is told else is printed.
fn holds<R: Print + AllocGlobal>(rt: &R, path: &str, case: &Case<'_>) -> io::Result<bool> {
    for manner in MANNERS {
        let told = told(rt.alloc(), case, manner)?;
        if told.as_slice() != case.wanted.out.as_slice() {
            println!(rt; "{path}, line {}, by {manner:?}:", case.line)?;
            match str::from_utf8(&told) {
                Ok(text) => print!(rt; "{text}")?,
                Err(_) => println!(rt; "no text")?,
            }
            return Ok(false);
        }
    }
    Ok(true)
}

// The text of the case's first file, if it has one.
fn manifest_of<'a>(case: &'a Case<'_>) -> Option<&'a str> {
    str::from_utf8(&case.files.first()?.bytes).ok()
}

// What is told of the case's script over two engines of its file, which are asked in this manner; nothing if it has no such script or
// file.
fn told(alloc: Global, case: &Case<'_>, manner: Manner) -> Result<Vec<u8>, AllocError> {
    let desk = match manifest_of(case) {
        Some(manifest) => desk_of(alloc, manifest, manner)?,
        None => None,
    };
    match desk {
        Some(desk) => told_at(desk, str::from_utf8(&case.input).unwrap_or("")),
        None => Ok(Vec::new(alloc)),
    }
}

// Two engines of a manifest's text, if it has no fault.
fn desk_of(alloc: Global, manifest: &str, manner: Manner) -> Result<Option<Desk>, AllocError> {
    let Some(asked) = side_of(alloc, manifest, manner)? else {
        return Ok(None);
    };
    match side_of(alloc, manifest, manner) {
        Ok(Some(other)) => Ok(Some(Desk::of(alloc, asked, other))),
        Ok(None) => {
            asked.end();
            Ok(None)
        }
        Err(fault) => {
            asked.end();
            Err(fault)
        }
    }
}

// One of them.
fn side_of(alloc: Global, manifest: &str, manner: Manner) -> Result<Option<Side>, AllocError> {
    Ok(match engine_of(alloc, manifest)? {
        Some(engine) => Some(Side::of(alloc, engine, manner)),
        None => None,
    })
}

// What is told of the script.
fn told_at(mut desk: Desk, script: &str) -> Result<Vec<u8>, AllocError> {
    let carried = desk.carry_out_all(script);
    let told = desk.end();
    carried?;
    told
}
