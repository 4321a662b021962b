// What every floor uses: lists and bytes of at most so many values in a place of fixed size, a call's own fault or memory
// that was refused, and hexadecimal digits. It relies on nothing.
#![tactic(auto)]

mod blank;
pub mod hexadecimal;
mod or_memory;
mod padded_list;
mod short_bytes;

pub use blank::Blank;
pub use or_memory::OrMemory;
pub use padded_list::PaddedList;
pub use short_bytes::{MAX_BYTES, ShortBytes};
