// The names of the programs of a manifest's queues. It relies on `manifest_form` for what a manifest says.

use base::OrMemory;
use manifest_form::{Plan, has_lawful_names, read};
use std::alloc::{AllocError, Global};
use toml::Value;

/// The name of each queue's program, in the order of the queues; none if the text is no manifest.
pub(crate) fn program_names(alloc: Global, manifest: &[u8]) -> Result<Vec<String>, AllocError> {
    let Ok(text) = str::from_utf8(manifest) else {
        return Ok(Vec::new(alloc));
    };
    match toml::table_from_str(alloc, text) {
        Ok(table) => names_in(alloc, &Value::Table(table)),
        Err(error) if error.is_memory() => Err(AllocError),
        Err(_) => Ok(Vec::new(alloc)),
    }
}

fn names_in(alloc: Global, document: &Value) -> Result<Vec<String>, AllocError> {
    match read(alloc, document) {
        Ok(plan) => names_of(alloc, &plan),
        Err(OrMemory::OutOfMemory) => Err(AllocError),
        Err(OrMemory::Fault(_)) => Ok(Vec::new(alloc)),
    }
}

fn names_of(alloc: Global, plan: &Plan<'_>) -> Result<Vec<String>, AllocError> {
    let mut names = Vec::new(alloc);
    if has_lawful_names(plan) {
        for queue in &plan.queues {
            names.push(String::from_str(alloc, queue.program)?)?;
        }
    }
    Ok(names)
}
