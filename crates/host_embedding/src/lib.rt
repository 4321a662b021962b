// An engine with its guests' tokens, and a run, as a host holds them that is written in another language: a function for each
// call, with a result that has a number and a text. It relies on `engine_core` for what each call does, on `engine_carried` and
// `engine_succession` for an engine that follows another one, on `host_metrics` for what is counted, and knows no pointers.
#![tactic(auto)]

mod call_result;
mod ccbs;
mod config_again;
mod continued;
mod counting;
mod engine_handle;
mod fates;
mod hosted_engine;
mod likeness;
mod metrics_text;
mod outstanding;
mod recovering;
mod remaking;
mod run_calls;
mod run_handle;
mod succession;
mod text_lines;
mod texts;

pub use call_result::{CallResult, RESULTS};
pub use engine_carried::Numbering;
pub use engine_handle::EngineHandle;
pub use fates::Fate;
pub use hosted_engine::HostedEngine;
pub use run_handle::{HeldRun, RunHandle};
pub use text_lines::{LONGEST_TAKEN, PutLines};
pub use texts::put_front;
