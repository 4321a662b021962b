// What is known of one register, a number, an address or a freeze, through operations, comparisons and accesses; of the
// freezes that are held; and why a check fails. It relies on `scalar_domain` for numbers and on `bpf_semantics` for what
// instructions mean.
#![tactic(auto)]

mod access;
mod addresses;
mod arithmetic;
mod cause;
mod comparison;
mod freeze_name;
mod held;
mod kind;
mod region;

pub use access::{Access, accessed};
pub use arithmetic::{changed, computed, extended};
pub use cause::Cause;
pub use comparison::{Finding, compared};
pub use freeze_name::FreezeName;
pub use held::{Certainty, GREATEST_FREEZE, Held, HeldFreeze};
pub use kind::Kind;
pub use region::{Offsets, Region};
