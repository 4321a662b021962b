// What there is to say of a scenario or a trace that is refused: which line, which part of it, what is against that part, and the form
// that was expected; and of a trace whose lines are all of the form, which line would have followed. The readers of lines judge, and
// what is said goes by the rows that they read. It relies on `scenario`, `trace` and `trace_lines` for lines, on `engine_core` for what
// would have followed, on `explain_layout` for how a line is shown, and on `explain_codes` for what the codes mean.
#![tactic(auto)]

mod answers;
mod bytes;
mod fields;
mod firsts;
mod following;
mod forms;
mod here;
mod lines;
mod numbers;
mod scenarios;
mod slips;
mod stops;
mod telling;
mod traces;
mod unheld;

pub use following::{put as put_unfollowed, put_unended};
pub use lines::is_trace;
pub use scenarios::put as put_faulty_lines;
pub use traces::{is_unended, put as put_no_trace};
pub use unheld::{lines_before, put as put_unheld};
