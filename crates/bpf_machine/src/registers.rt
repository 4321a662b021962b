// The registers of a machine, in a place of fixed size: a word for each, and beside the words which are written, so
// that an instruction reads and writes words and tests nothing. After the words is one that is always 0, the source of a
// row that has a constant. It relies on `bpf_insn` for the registers' names and for rows.

ghost use Rattle.std.specs.Prelude.{◌≡◌, ◌≤◌, ◌↔◌, IsTrue, ◌∷◌, ◌++◌, Some, None, [], drop, pos, replicate, take, slice_index_or, slice_set, length};
ghost use Rattle.std.specs.Int.{w64, cast_unsigned};
ghost use Rattle.bpf_insn.specs.Reg.{number_of};
ghost use Rattle.bpf_insn.specs.Rows.{no_source};
ghost use Rattle.bpf_machine.specs.RegisterWords.{word_of};
ghost use Rattle.bpf_machine.specs.Unchecked.{second_word, word_at, word_for, with_word};

use bpf_insn::{Operand, Reg, Row};
use bpf_stack_frame::same_words;
use std::marker::Model;

/// Where the word stands that is always 0.
const ZERO: usize = 11;

/// The registers R0 to R10. Contracts see the list, in which an unwritten register is `None`.
#[derive(Clone, Copy, Debug, PartialEq, Eq)]
pub struct Registers {
    // 0 where nothing is written, and after the registers
    words: [u64; 12],
    written: [bool; 11],
}

impl Model for Registers {
    ghost use Rattle.std.specs.Prelude.{ℕ, List, Option};
    ghost use Rattle.bpf_machine.specs.RegisterWords.{registers_of, words_kept, written_of, AreRegisters};

    ghost Value = { List (Option ℕ) };

    ghost view = { λ r. registers_of r.words r.written };

    ghost invariant = { λ r. AreRegisters r.words r.written };

    ghost inverse = { λ registers. record { words = words_kept registers; written = written_of registers } };

    ghost inverse_ok = { λ r is i. record { words = is.same_words i; written = is.same_written i } };
}

impl Registers {
    /// Nothing is written.
    pub fn unwritten() -> Self
        ensures { result ≡ replicate 11 None }
    {
        Registers {
            words: [0; 12],
            written: [false; 11],
        }
    }

    /// Whether both hold the same.
    pub fn is_same(&self, other: &Self) -> bool
        ensures { IsTrue result ↔ (self.now ≡ other.now) }
    {
        same_words(&self.words, &other.words) && self.written == other.written
    }

    /// What a register holds, where it is written.
    pub fn get(&self, reg: Reg) -> Option<u64>
        ensures { result ≡ slice_index_or self.now (number_of reg) None }
    {
        let index = usize::from(reg.number());
        if self.written[index] {
            Some(self.words[index])
        } else {
            None
        }
    }

    /// What a register holds, and 0 where it is unwritten.
    #[inline(always)]
    pub fn word(&self, reg: Reg) -> u64
        ensures { result ≡ word_at self.now reg }
    {
        self.words[usize::from(reg.number())]
    }

    /// What an operand stands for, where an unwritten register counts as 0: a constant is sign-extended.
    pub fn word_for(&self, source: Operand) -> u64
        ensures { result ≡ word_for self.now source }
    {
        match source {
            Operand::Immediate(value) => i64::from(value).cast_unsigned(),
            Operand::Register(reg) => self.word(reg),
        }
    }

    /// What a row's second operand stands for, where an unwritten register counts as 0. Of the source's word and the
    /// constant one is 0, so that the row is not asked which it has.
    #[inline(always)]
    pub fn second(&self, row: &Row) -> u64
        requires { row.now.src ≤ no_source }
        ensures { result ≡ second_word self.now row.now }
    {
        self.source_word(row).wrapping_add(constant_word(row))
    }

    /// The same of a row whose second operand is a constant.
    #[inline(always)]
    pub fn constant(&self, row: &Row) -> u64
        requires { row.now.src ≡ no_source }
        ensures { result ≡ second_word self.now row.now }
    {
        constant_word(row)
    }

    /// The same of a row whose second operand is a register.
    #[inline(always)]
    pub fn source(&self, row: &Row) -> u64
        requires range { row.now.src ≤ no_source }
        requires form { row.now.constant ≡ pos 0 }
        ensures { result ≡ second_word self.now row.now }
    {
        self.source_word(row)
    }

    // The word of a row's source, and the 0 after the registers where it has none.
    #[inline(always)]
    fn source_word(&self, row: &Row) -> u64
        requires { row.now.src ≤ no_source }
        ensures word { result ≡ word_of (slice_index_or self.now row.now.src None) }
        ensures none { row.now.src ≡ no_source → result ≡ 0 }
    {
        self.words[usize::from(row.src)]
    }

    /// Writes a register.
    #[inline(always)]
    pub fn set(&mut self, reg: Reg, word: u64)
        ensures { self.new ≡ with_word self.old reg word }
    {
        let index = usize::from(reg.number());
        self.words[index] = word;
        self.written[index] = true;
    }

    /// Writes the word after the registers, which is 0 already, so nothing changes. It is for a jump that is taken: what
    /// writes is not done ahead, so the processor guesses the jump and does not wait for what it compares.
    #[inline(always)]
    pub fn write_zero(&mut self)
        ensures { self.new ≡ self.old }
    {
        self.words[ZERO] = 0;
    }

    /// Makes a register an unwritten one.
    fn clear(&mut self, reg: Reg)
        ensures { self.new ≡ slice_set self.old (number_of reg) None }
    {
        let index = usize::from(reg.number());
        self.words[index] = 0;
        self.written[index] = false;
    }

    /// What a helper call leaves: R0 is the answer and R1 to R5 are unwritten.
    pub fn answer(&mut self, r0: u64)
        ensures { self.new ≡ Some r0 ∷ replicate 5 None ++ drop 6 self.old }
    {
        // The proof knows how many registers there are once a field is read.
        let _words = &self.words;
        self.set(Reg::R0, r0);
        self.clear(Reg::R1);
        self.clear(Reg::R2);
        self.clear(Reg::R3);
        self.clear(Reg::R4);
        self.clear(Reg::R5);
    }

    // Makes a register another's copy, unwritten where that is.
    fn put(&mut self, reg: Reg, word: Option<u64>)
        ensures { self.new ≡ slice_set self.old (number_of reg) word }
    {
        match word {
            Some(word) => self.set(reg, word),
            None => self.clear(reg),
        }
    }

    /// R6 to R9, which a call keeps for its caller.
    pub fn saved(&self) -> [Option<u64>; 4]
        ensures { result ≡ take 4 (drop 6 self.now) }
    {
        // The proof knows how many registers there are once a field is read.
        let _words = &self.words;
        [
            self.get(Reg::R6),
            self.get(Reg::R7),
            self.get(Reg::R8),
            self.get(Reg::R9),
        ]
    }

    /// What a local function begins with: its arguments in R1 to R5 and its frame pointer in R10. All else is unwritten.
    pub fn enter(&mut self, frame_pointer: u64)
        ensures { self.new ≡ None ∷ take 5 (drop 1 self.old) ++ replicate 4 None ++ Some frame_pointer ∷ [] }
    {
        // The proof knows how many registers there are once a field is read.
        let _words = &self.words;
        self.clear(Reg::R0);
        self.clear(Reg::R6);
        self.clear(Reg::R7);
        self.clear(Reg::R8);
        self.clear(Reg::R9);
        self.set(Reg::R10, frame_pointer);
    }

    /// What its caller goes on with: the result in R0, R6 to R9 as they were kept, and its own frame pointer in R10. R1
    /// to R5 are unwritten.
    pub fn leave(&mut self, saved: &[Option<u64>; 4], frame_pointer: u64)
        ensures { self.new ≡ take 1 self.old ++ replicate 5 None ++ saved.now ++ Some frame_pointer ∷ [] }
    {
        // The proof knows how many registers there are once a field is read.
        let _words = &self.words;
        self.clear(Reg::R1);
        self.clear(Reg::R2);
        self.clear(Reg::R3);
        self.clear(Reg::R4);
        self.clear(Reg::R5);
        self.put(Reg::R6, saved[0]);
        self.put(Reg::R7, saved[1]);
        self.put(Reg::R8, saved[2]);
        self.put(Reg::R9, saved[3]);
        self.set(Reg::R10, frame_pointer);
    }
}

// The word of a row's constant: it is sign-extended.
#[inline(always)]
fn constant_word(row: &Row) -> u64
    ensures { result ≡ cast_unsigned w64 row.now.constant }
{
    i64::from(row.constant).cast_unsigned()
}
