// Why the text or the bytes of a program are none: which line or which field is at fault, and what was meant. It relies on `bpf_asm` and
// `bpf_decode` for what is lawful, and on `explain_layout` for how a part of the text is shown.
#![tactic(auto)]

mod asm_commas;
pub mod asm_line;
mod asm_near;
mod asm_numbers;
pub mod fields;
