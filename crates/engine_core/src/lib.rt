// The engine: one call at a time on the world's device queues, CCBs, freezes and recovery runs, each answer one
// record of a history that is kept whole. It relies on `world` for what the calls mean, on `engine_transport` for CCBs, queues and
// freezes, and on `engine_runs` for runs.
#![tactic(auto)]

mod answers;
mod beginning;
mod by_event;
mod ccb_events;
mod commit_segment;
mod completion_action;
mod driving;
mod engine;
mod event;
mod freeze_events;
mod guest_tokens;
mod helper_effects;
pub mod laws;
mod methods;
mod numbered_engine;
mod parts;
mod reply;
mod run;
mod run_events;
mod run_info;
mod segments;
mod setting;
mod stopped;
mod told;

pub use answers::{AdvanceAnswer, AdvanceFault, CallFault, CompleteAnswer, ReleaseFault};
pub use driving::DriveFault;
pub use engine::Engine;
pub use engine_config::Config;
pub use engine_transport::LiveCcb;
pub use event::Event;
pub use guest_tokens::{GuestToken, put_token, take_token};
pub use numbered_engine::NumberedEngine;
pub use reply::{Reply, Returned, Success};
pub use run::Run;
pub use run_info::RunInfo;
pub use stopped::Stopped;
pub use world::{CcbState, QueueInfo};
pub use world_calls::{Call, CallAnswer, CallRefusal, Record, StoppedAt, Totals, Trace};
