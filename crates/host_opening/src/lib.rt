// An engine of a manifest's text, as a host holds it that is written in another language, one that follows it, and one that stands where the
// text of a trace led. It relies on `manifest` and `trace_front` for the texts, on `replay` for the verdict on a trace, and on
// `host_embedding` for what is held.
#![tactic(auto)]

mod opening;
mod recovering;

pub use manifest::ManifestFault;
pub use opening::{OpenFault, open, put_fault, succeed};
pub use recovering::{RecoverFault, put_recover_fault, recover};
pub use replay::ReplayFault;
pub use trace::TraceFault;
