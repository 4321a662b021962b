// The 512 bytes of a stack frame, each unwritten or written, the frames that are live, and sets of such bytes: all of
// fixed size, so that they are copied and compared without memory. It relies on `byteorder` for words in memory, and on
// `padded_list` for how frames are kept.
#![tactic(auto)]

mod alike;
mod byte_set;
mod frame;
mod frames;

pub use alike::{same_bytes, same_words};
pub use byte_set::{ByteSet, MOST_BYTES};
pub use frame::Frame;
pub use frames::{Frames, MAX_FRAMES};
