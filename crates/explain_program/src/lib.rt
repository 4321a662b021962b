// Why a program is refused: which rule is broken and by what values, and by which path the place is reached; and what is known of one that is
// accepted. It relies on `explain_path` for what the verifier tracks, on `explain_layout` for places in the text, and on `explain_codes` for
// what the codes mean.
#![tactic(auto)]

mod arguments;
mod calls;
mod causes;
mod compute;
mod functions;
mod giving;
mod kinds;
pub mod listing;
pub mod notes;
pub mod program;
mod reaching;
mod retries;
mod sources;
mod steps;
pub mod survey;
mod unwritten;
