// The decoder: bytes to programs by RFC 9669, sections 3 to 5. What it accepts is stated by
// `Spells`, and what it refuses by `HasFault`. It relies on `bpf_insn` for what a program is, and on
// `byteorder` for little-endian words.
#![tactic(auto)]

mod decoder;
mod encoder;
mod fault;
mod fields;
mod insn;
mod kind;
pub mod laws;
mod opcodes;
mod row;
mod transfer;
mod used;

pub use decoder::{DecodeError, decode};
pub use encoder::encode;
pub use fault::{DecodeFault, InsnFault};
