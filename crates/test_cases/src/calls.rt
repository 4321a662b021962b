// The calls of a trace. It relies on nothing.

use std::alloc::{AllocError, Global};

/// How a trace begins.
const HEADER: &str = "camr-trace ";

/// The lines of the scenario whose trace this is: of each line that is a call what stands before its answer. None where it is no trace.
pub fn calls_of(alloc: Global, trace: &[u8]) -> Result<Option<Vec<u8>>, AllocError> {
    let Ok(trace) = str::from_utf8(trace) else {
        return Ok(None);
    };
    if !trace.starts_with(HEADER) {
        return Ok(None);
    }
    let mut calls = Vec::new(alloc);
    for line in trace.split('\n') {
        if is_call(line) {
            let (call, _) = line.split_once(" = ").unwrap_or((line, ""));
            calls.extend_from_slice(call.as_bytes())?;
            calls.push(b'\n')?;
        }
    }
    Ok(Some(calls))
}

fn is_call(line: &str) -> bool {
    !(line.is_empty()
        || line.starts_with(HEADER)
        || line.starts_with("advance ")
        || line.starts_with("end "))
}
