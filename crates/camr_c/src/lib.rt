// The engine for a host that is written in C: an export for each call, over the slots in which the host holds an engine and runs.
// It relies on `host_embedding` for what each call does. `include/camr_engine.h` declares what stands here.
#![tactic(auto)]

mod engine_exports;
mod engine_slot;
mod metrics_export;
mod raw_box;
mod recovery_exports;
mod result_exports;
mod run_exports;
mod run_slot;
mod succession_exports;
mod trace_exports;
