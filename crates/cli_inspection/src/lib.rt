// What the program `camr_inspect` does with a plan: it explains a code, a manifest, a scenario or a trace, shows what happened in a
// trace, says what a policy decides, or tries policies on devices, over the bytes of the files and two writers. It relies on `explain_manifest`, on `explain_lines`, on
// the crates that show traces and on `show_decision`, and on `cli_commands` for faults and verdicts.
#![tactic(auto)]

mod carrying;
mod closing;
mod deciding;
mod explaining;
mod judging;
mod tracing;
mod trying;
mod unread;
mod untried;

pub use carrying::carry;
pub use unread::report_unread;
