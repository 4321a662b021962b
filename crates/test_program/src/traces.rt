// Texts that are traces are printed again as they stood. If all else of a text is in order, its line alone stands in data/: in
// records.txt those of all versions, in of_no_classes.txt those of the first two, in of_controllers.txt those of the last two, and in
// of_classes.txt those of the third alone. What is no trace stands in the cases of `test_system`.

use base::OrMemory;
use cli_commands::WriterSink;
use std::alloc::{AllocError, Global};
use std::fs;
use std::io::Write;
use std::rt::Files;
use trace::{print, read};

/// The lines of all versions, and how many there are.
const RECORDS: &str = "records.txt";

const RECORD_COUNT: u32 = 31;

/// The lines of the versions in which CCBs have no class and no advice.
const OF_NO_CLASSES: &str = "of_no_classes.txt";

const NO_CLASS_COUNT: u32 = 4;

/// The lines of the versions that have controllers.
const OF_CONTROLLERS: &str = "of_controllers.txt";

const CONTROLLER_COUNT: u32 = 7;

/// The lines of the version in which CCBs have a class and an advice.
const OF_CLASSES: &str = "of_classes.txt";

const CLASS_COUNT: u32 = 9;

/// A small trace.
const SMALL: &str =
    "camr-trace 1\ncomplete 1 0c 02 700006 = run 1 freeze 1\nadvance 1 3 helper 10 00ff = 0\nend 2 1 0 1\n";

// What is read of a text, printed again, or what is wrong with it.
fn told(alloc: Global, text: &str) -> Result<Vec<u8>, AllocError> {
    let mut out = Vec::new(alloc);
    match read(alloc, text) {
        Ok(trace) => {
            if print(&trace, &mut WriterSink::new(&mut out)).is_err() {
                return Err(AllocError);
            }
        }
        Err(OrMemory::Fault(fault)) => {
            if write!(out, "{fault}").is_err() {
                return Err(AllocError);
            }
        }
        Err(OrMemory::OutOfMemory) => return Err(AllocError),
    }
    Ok(out)
}

// The trace of the version that has this line alone.
fn around(alloc: Global, version: u32, line: &str) -> Result<String, AllocError> {
    format!(in alloc; "camr-trace {version}\n{line}\nend 18446744073709551615 0 4294967295 1\n")
}

// Whether the line stands in a trace of the version.
fn is_read(alloc: Global, version: u32, line: &str) -> Result<bool, AllocError> {
    let text = around(alloc, version, line)?;
    Ok(told(alloc, text.as_str())?.as_slice() == text.as_bytes())
}

// How many lines of the text there are, if each stands in a trace of each of these versions.
fn all_read(alloc: Global, text: &str, versions: &[u32]) -> Result<Option<u32>, AllocError> {
    let mut count = 0u32;
    for line in text.lines() {
        for version in versions {
            if !is_read(alloc, *version, line)? {
                return Ok(None);
            }
        }
        count = count.saturating_add(1);
    }
    Ok(Some(count))
}

// The same of a file.
fn all_read_of<R: Files + AllocGlobal>(rt: &R, path: &str, versions: &[u32]) -> Option<u32> {
    match fs::read_to_string(rt, path) {
        Ok(text) => all_read(rt.alloc(), text.as_str(), versions).ok()?,
        Err(_) => None,
    }
}

pub fn lines_of_records<R: Files + AllocGlobal>(rt: &R) -> Option<bool> {
    Some(all_read_of(rt, RECORDS, &[1, 2, 3])? == RECORD_COUNT)
}

pub fn lines_of_no_classes<R: Files + AllocGlobal>(rt: &R) -> Option<bool> {
    Some(all_read_of(rt, OF_NO_CLASSES, &[1, 2])? == NO_CLASS_COUNT)
}

pub fn lines_of_controllers<R: Files + AllocGlobal>(rt: &R) -> Option<bool> {
    Some(all_read_of(rt, OF_CONTROLLERS, &[2, 3])? == CONTROLLER_COUNT)
}

pub fn lines_of_classes<R: Files + AllocGlobal>(rt: &R) -> Option<bool> {
    Some(all_read_of(rt, OF_CLASSES, &[3])? == CLASS_COUNT)
}

/// If memory is refused that alone is told, and the same text is read then. Which call for memory is refused is set from outside.
pub fn read_and_memory_refused_once(alloc: Global) -> Option<bool> {
    let said = match told(alloc, SMALL) {
        Ok(said) => said,
        Err(AllocError) => told(alloc, SMALL).ok()?,
    };
    Some(said.as_slice() == SMALL.as_bytes())
}
