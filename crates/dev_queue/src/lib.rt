// One device queue: which CCBs wait, how many are active or in recovery, and how many openings the
// device has for active ones. The least waiting CCB starts, by priority and then by number, only where
// the queue is not frozen and has an opening. It relies on `ccb` for the names of CCBs.
#![tactic(auto)]

mod dev_queue;
mod frozen;
pub mod laws;
mod queue_fault;
mod starts_before;
mod waiting_ccb;
mod waiting_heap;

pub use dev_queue::{DevQueue, MAX_LIVE, MAX_STEPS};
pub use frozen::Frozen;
pub use queue_fault::QueueFault;
pub use waiting_ccb::WaitingCcb;
