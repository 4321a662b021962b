// A trace that is to be shown. It relies on `world_calls` for traces.

use world_calls::{CarriedLine, Trace};

/// How a trace ends: with its last line; without it; or within a line.
#[derive(Clone, Copy)]
pub enum Ending {
    Whole,
    Open,
    Cut,
}

/// A trace as far as it goes, with the lines of what its engine took over, if it took over anything, and how it ends.
#[derive(Clone, Copy)]
pub struct Shown<'a> {
    pub carried: Option<&'a [CarriedLine]>,
    pub trace: &'a Trace,
    pub ending: Ending,
}

impl Shown<'_> {
    /// What is said of how it ends: a pattern for the number of the line after its records; nothing if it is whole.
    pub fn words(&self) -> &'static str {
        match self.ending {
            Ending::Whole => "",
            Ending::Open => "the trace is open: it goes up to line {}",
            Ending::Cut => "the trace is open: line {} is cut",
        }
    }

    /// The number of that line: of the last one that is whole, or of the one that is cut. The first line is before the records, and so are
    /// carried lines.
    pub fn line(&self) -> u64 {
        let carried = match self.carried {
            Some(lines) => lines.len() as u64,
            None => 0,
        };
        let records = self.trace.records.len() as u64;
        let whole = records.saturating_add(carried).saturating_add(1);
        match self.ending {
            Ending::Cut => whole.saturating_add(1),
            Ending::Whole | Ending::Open => whole,
        }
    }
}
