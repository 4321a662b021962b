// What a BPF program is: instructions by their meaning, in a table with an entry for each slot of 8
// bytes (RFC 9669). It relies on nothing; how instructions stand in bytes is the crate `bpf_decode`'s.
#![tactic(auto)]

mod insn;
mod opcode;
mod operation;
mod program;
mod reg;
mod row;
mod target;
mod words;

pub use insn::{
    AluOp, ByteOrder, Callee, Condition, Distance, InPlaceOp, Insn, LoadForm, Operand,
    SignExtension, StoreSize, Width, WordSize,
};
pub use opcode::{Opcode, QUICK_OPS, QuickOp};
pub use operation::{ALU_OPS, CONDITIONS};
pub use program::{MAX_SLOTS, Program, ProgramBuilder, Slot};
pub use reg::Reg;
pub use row::Row;
pub use target::jump_target;
