// The account of a trace: what its records tell in words and times, a line an event. It relies on `show_events` for the events and for
// which of them are wanted, and on `cli_text_page` for the page that the lines are put on.
#![tactic(auto)]

mod carried;
mod fitting;
mod known;
mod line;
mod names;
mod writing;

pub use carried::put_carried_sums;
pub use fitting::fits;
pub use known::{Known, Missing};
pub use line::{put_advice, put_code, put_failure, put_why_not};
pub use names::{advice_name, name_of_code, status_name};
pub use writing::account;
