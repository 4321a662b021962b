// What CAM keeps: the device queues with their openings, the live CCBs in the order of their numbers, the freezes, and
// the clock. It relies on `world` for what its calls mean, on `dev_queue` for which CCB starts, on `freeze_ledger` for
// freezes, and on `timer_events` for those that a clock reading lets go.
#![tactic(auto)]

mod beginning;
mod ccb_list;
mod live_ccb;
mod queue_list;
mod transport;

pub use live_ccb::LiveCcb;
pub use transport::Transport;
