// What holds of the definitions alone: a text spells one program and a program has one text, and bytes
// that spell no program have one fault. Each law is the contract of a function that does nothing.

ghost use Rattle.std.specs.Prelude.{◌≡◌, ℕ, List};
ghost use Rattle.bpf_insn.specs.declared.program.Slot.{Slot};
ghost use Rattle.bpf_decode.specs.declared.fault.DecodeFault.{DecodeFault};
ghost use Rattle.bpf_decode.specs.Spells.{Spells};
ghost use Rattle.bpf_decode.specs.FirstFault.{HasFault};

/// A text spells at most one program.
pub fn one_program()
    ensures { (text : List ℕ) (p q : List Slot) → Spells text p → Spells text q → p ≡ q }
{}

/// A program has at most one text.
pub fn one_text()
    ensures { (a b : List ℕ) (program : List Slot) → Spells a program → Spells b program → a ≡ b }
{}

/// Bytes have at most one fault: the one that comes first.
pub fn one_fault()
    ensures { (bytes : List ℕ) (f g : DecodeFault) → HasFault bytes f → HasFault bytes g → f ≡ g }
{}

/// A text that spells a program has no fault.
pub fn no_fault_of_text()
    ensures { (text : List ℕ) (program : List Slot) (fault : DecodeFault) →
        Spells text program → ¬ HasFault text fault }
{}
