// What the operations of instructions compute of words, by width: arithmetic, byte orders, extensions by the sign and
// comparisons (RFC 9669, sections 4.1 to 4.3). It relies on `bpf_insn` for their names.
#![tactic(auto)]

mod extensions;
mod low;
mod quick_ops;
mod swaps;
mod words;
mod words32;
mod words64;

pub use extensions::extend;
pub use low::low32;
pub use quick_ops::quick;
pub use swaps::swap;
pub use words::{alu, alu32, holds, in_place, negated32, negated64};
pub use words32::holds32;
pub use words64::{alu64, holds64};
