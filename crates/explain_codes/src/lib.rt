// All codes by which the program tells refusals, and what there is to say of each. It relies on `cli_text_page` for the page that this is
// put on.
#![tactic(auto)]

mod calls;
mod code;
mod explanation;
mod files;
mod mending;
mod policies;
mod programs;
mod rule;
mod unknown;

pub use code::{Code, SERIES, Series};
pub use explanation::{Explanation, POLICY, POLICY_BYTES, Shown, print};
pub use mending::{code_in, put_mending};
pub use rule::put_rule;
pub use unknown::{is_spelled_as_code, put_unknown};
