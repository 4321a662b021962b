// What there is to tell, and its text.

use crate::totals::Totals;
use std::fmt;

/// How far a work is.
#[derive(Clone, Copy, Debug, PartialEq, Eq)]
pub enum Notice {
    /// The sums of an engine's history, at some moment.
    Sums(Totals),
    /// So many records of a trace were replayed, of so many.
    Replayed(u64, u64),
}

impl fmt::Display for Notice {
    fn fmt<W: fmt::Write>(&self, f: &mut fmt::Formatter<W>) -> fmt::Result {
        match self {
            Notice::Sums(totals) => write!(
                f,
                "{} records, {} freezes, {} active CCBs, {} live runs",
                totals.history, totals.frozen, totals.active, totals.runs
            ),
            Notice::Replayed(done, all) => write!(f, "{done} of {all} records"),
        }
    }
}
