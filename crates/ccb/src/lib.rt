// What a CAM Control Block (CCB, ANSI X3.232) is to the recovery engine: its number and queue, status
// and flags, the completion that a device answers it with, the context that a program reads, and what
// can be frozen: a device queue or a controller; and why a call is refused.
// It relies on `sense_record` for the sense fields, `bitflags` for flags, `byteorder` for words.
#![tactic(auto)]

mod call_refusal;
mod cam_status;
mod ccb;
mod ccb_flags;
mod completion;
mod context_bytes;
mod place;

pub use crate::call_refusal::{CallRefusal, REFUSALS, RefusalRow, RefusedCalls};
pub use crate::cam_status::CamStatus;
pub use crate::ccb::Ccb;
pub use crate::ccb_flags::CcbFlags;
pub use crate::completion::Completion;
pub use crate::context_bytes::{CONTEXT_BYTES, context};
pub use crate::place::Place;

/// The number of a CCB. Numbers are given from 1 upward and never used again.
#[derive(Clone, Copy, Debug, PartialEq, Eq, Hash, PartialOrd, Ord)]
pub struct CcbId(pub u32);

/// The number of a device queue, from 0.
#[derive(Clone, Copy, Debug, PartialEq, Eq, Hash, PartialOrd, Ord)]
pub struct QueueId(pub u32);
