// The helper functions that a recovery program may call: their table, what is asked and answered, and the limits of
// what a call may name. It relies on `base` for the bytes that a call names.
#![tactic(auto)]

mod columns;
mod limits;
mod request;
mod table;

pub use columns::{ArgKind, Asks, Change, Gives, Needs, Tells};
pub use limits::{HelperLimits, HelperSet, TableLengths};
pub use request::{Answer, Arguments, Request, Written};
pub use table::{HELPERS, Helper, HelperEffect, Row};
