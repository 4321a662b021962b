// The lines by which calls are written: a row for each, with its word, the kinds of its fields and the form of its answer.
// Whoever prints a line and whoever reads one goes by the same rows. It relies on `world_calls` for what is written.
#![tactic(auto)]

mod answers;
mod call;
mod kind;
pub mod laws;
mod lines;
mod no_text;
mod printing;
mod reading;
mod table;
mod text;
mod value;
mod version;
mod word;

pub use answers::ANSWER;
pub use call::{call_of, values_of, word_of};
pub use kind::{Kind, Slots};
pub use lines::{FIELDS, LINE, print_fields, print_line, read_fields, read_line};
pub use no_text::NoText;
pub use printing::{LONG_NUMBER, print_long_number, print_number};
pub use reading::long_number;
pub use table::{Form, LINES, Row};
pub use text::{ROOM, Text};
pub use value::{
    Stop, Value, byte_in, bytes_in, long_number_at, long_number_in, number_at, number_in,
    status_in, stop_in,
};
pub use version::has_classes;
pub use word::Word;
