// The assembler: text to programs and back. Which text says which program is stated by `Says`, what it refuses by `HasFault`, and
// the one text that a program is printed as by `canon`. It relies on `bpf_insn` for what a program is.
#![tactic(auto)]

mod assembler;
mod bytes;
mod disassembler;
mod fault;
mod form;
mod labels;
pub mod laws;
mod lexeme;
mod mnemonic;
mod number;
mod reader;
mod statement;
mod table;
mod token;

pub use assembler::{AsmError, assemble};
pub use disassembler::disassemble;
pub use fault::{AsmFault, LineFault};
pub use token::{Token, tokens};
