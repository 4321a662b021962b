// The verifier: a program is accepted where no run of it can be stuck, and then its budget is known. It
// describes what holds at each place before it is executed, in one pass from a function's first slot to its last, since
// every jump leads forward, and once for each chain of local calls by which control comes there. It relies on `call_shape`
// for that, on `reg_domain` for what an instruction makes of what is known of a machine (`check_description`), and on
// `check_local_calls` for what a call of a function does. The budget is of `budget_path`, what is proved of `bpf_semantics`, and
// the answer of `bpf_accepted`.
#![tactic(auto)]

mod known;
mod pass;
mod refusal;
mod table;
mod verification;
mod ways;
mod witness;

pub use check_register_kinds::Cause;
pub use refusal::{Refusal, VerifyError};
pub use verification::{verify, verify_before};
pub use witness::{Nobody, Witness};
