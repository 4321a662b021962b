// What there is to say of a manifest beside the verdict: why it is refused, or what is known of its programs where they are accepted. It
// relies on `manifest` for the verdict, on `explain_form`, `explain_source` and `explain_program` for what is said of its parts, and on
// `explain_layout` for places in the text.
#![tactic(auto)]

mod accepting;
mod explaining;
mod refusing;

pub use explaining::{Explanation, explain};
