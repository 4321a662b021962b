// Where tables, keys and values stand in a manifest's text, and how a part of any text is shown with its line. It relies on `toml_parser`
// for keys, strings and blanks, and on `cli_text_page` for what is shown; what a manifest says is not its concern.
#![tactic(auto)]

pub mod excerpt;
mod lines;
mod places;
mod reading;

pub use lines::{Line, line_at, nth_line, without_mark};
pub use places::{Entry, Layout, Span, TableAt};
pub use reading::layout;
