// The text of what is counted, in a place of a host's. It relies on `host_metrics` for the text.

ghost use Rattle.std.specs.Prelude.{◌≡◌, ◌≤◌, List, ℕ, length};
ghost use Rattle.host_embedding.specs.Counting.{PutsWhole};

use crate::call_result::CallResult;
use crate::hosted_engine::HostedEngine;
use crate::text_lines::put_behind;
use host_metrics::print;
use std::alloc::{AllocError, Global};

impl HostedEngine {
    /// Puts the text of what is counted, and of the engine as it stands, into a place: all of it, or if it finds no room nothing. How long it
    /// is, is reported of both. What stands after it stays as it was.
    pub fn put_metrics(&self, alloc: Global, place: &mut [u8], count: &mut usize) -> CallResult
        ensures { (text : List ℕ) × PutsWhole result text place.old place.new count.new }
    {
        match self.metrics_text(alloc) {
            Ok(text) => put_whole(text.as_bytes(), place, count),
            Err(AllocError) => {
                *count = 0;
                CallResult::OutOfMemory
            }
        }
    }

    // The text.
    fn metrics_text(&self, alloc: Global) -> Result<String, AllocError> {
        let engine = &self.engine.engine;
        let controllers = engine.config().controllers();
        print(
            alloc,
            &self.metrics,
            controllers,
            engine.transport(),
            engine.runs(),
        )
    }
}

// Puts all of a text into a place, or nothing.
fn put_whole(text: &[u8], place: &mut [u8], count: &mut usize) -> CallResult
    ensures { PutsWhole result text.now place.old place.new count.new }
{
    *count = text.len();
    match put_behind(text, place, 0) {
        Some(_) => CallResult::Done,
        None => CallResult::NoRoom,
    }
}
