// A list that only grows, in chunks: a value never moves once it is pushed, and where the list grows none is copied. It relies on
// nothing.
#![tactic(auto)]

mod chunked_list;
mod iter;

pub use chunked_list::{CHUNK, ChunkedList};
pub use iter::Iter;
