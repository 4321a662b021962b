// What holds of the definitions alone: the text that a program is printed as says that program again, each instruction is found by its
// name, and tokens leave out nothing of a text but what may stand between them. Each law is the contract of a function that does nothing.

ghost use Rattle.std.specs.Prelude.{◌≡◌, ℕ, List, Some, Ok, true, false, flat_map};
ghost use Rattle.std.specs.List.{AllByRecursion, list_all};
ghost use Rattle.bpf_insn.specs.declared.program.Slot.{Slot};
ghost use Rattle.bpf_insn.specs.Program.{IsProgram, insns_in};
ghost use Rattle.bpf_asm.specs.declared.mnemonic.Mnemonic.{Mnemonic};
ghost use Rattle.bpf_asm.specs.Mnemonics.{name_of, mnemonic_of};
ghost use Rattle.bpf_asm.specs.declared.fault.AsmFault.{AsmFault};
ghost use Rattle.bpf_asm.specs.declared.token.Token.{Token};
ghost use Rattle.bpf_asm.specs.Lexemes.{lines, lexemes};
ghost use Rattle.bpf_asm.specs.Numbers.{is_token};
ghost use Rattle.bpf_asm.specs.Tokens.{tokens_of, TokensCover};
ghost use Rattle.bpf_asm.specs.Assembly.{Says, HasFault};
ghost use Rattle.bpf_asm.specs.Canon.{canon, HasNumbers};

/// The text of a program says the program. Its numbers are those that an instruction can hold.
pub fn canon_says_the_program()
    ensures { (program : List Slot) → IsProgram program → AllByRecursion HasNumbers (insns_in program) →
        Says (canon program) program }
{}

/// A text says at most one program.
pub fn one_program()
    ensures { (text : List ℕ) (p q : List Slot) → Says text p → Says text q → p ≡ q }
{}

/// A text that says a program has no fault.
pub fn no_fault_of_text()
    ensures { (text : List ℕ) (program : List Slot) (fault : AsmFault) → Says text program → ¬ HasFault text fault }
{}

/// No two instructions have one name, and none is forgotten in the table.
pub fn found_by_name()
    ensures { (mnemonic : Mnemonic) → mnemonic_of (name_of mnemonic) ≡ Some mnemonic }
{}

/// What is found by a name is the mnemonic that has this name.
pub fn called_as_found()
    ensures { (word : List ℕ) (mnemonic : Mnemonic) → mnemonic_of word ≡ Some mnemonic → name_of mnemonic ≡ word }
{}

/// The tokens of a text are the lexemes of its lines, each of them a name, a number or a mark, at their places in the text: between them
/// stand only blanks, comments and line feeds.
pub fn tokens_cover_the_text()
    ensures { (text : List ℕ) (tokens : List Token) → tokens_of text ≡ Ok tokens →
        TokensCover false 0 text tokens (flat_map lexemes (lines text)) × (list_all is_token (flat_map lexemes (lines text)) ≡ true) }
{}
