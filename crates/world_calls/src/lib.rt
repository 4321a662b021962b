// The vocabulary of the engine's calls: a call, what it is answered, and the record of both, for hosts, histories and texts.
// It relies on `ccb` for what a call names, on `freeze_ledger` for what freezes, on `helpers` for where a run stops, and on `base_chunked_list` for histories.
#![tactic(auto)]

mod call;
mod call_answer;
mod carried_line;
mod completion_record;
mod notice;
mod notices;
mod record;
mod start;
mod totals;
mod trace;
mod traced_bytes;

pub use call::Call;
pub use call_answer::CallAnswer;
pub use carried_line::{CarriedCcb, CarriedLine};
pub use ccb::CallRefusal;
pub use completion_record::CompletionRecord;
pub use notice::Notice;
pub use notices::{Notices, Silent};
pub use record::{Record, StoppedAt};
pub use start::Start;
pub use totals::Totals;
pub use trace::{Trace, Version};
pub use traced_bytes::TracedBytes;
