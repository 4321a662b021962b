// What is known of a word that a program computes: its unsigned and its signed range and some of its bits, through each
// operation, on both ways of a comparison, and where ways join. `Has` (specs/Scalar.antt) says which words a scalar
// stands for. It relies on `bpf_words` for what operations compute and on `bpf_insn` for their names.
#![tactic(auto)]

mod arithmetic;
mod bits;
mod comparing;
mod halves;
mod limits;
mod moves;
mod narrowing;
mod scalars;
mod shifts;
mod signed_division;
mod single_operand;
mod spans;
mod sums;
mod wide;

pub use arithmetic::alu;
pub use bits::KnownBits;
pub use narrowing::{Sides, narrow};
pub use scalars::Scalar;
pub use single_operand::{extend, in_place};
pub use spans::Span;
