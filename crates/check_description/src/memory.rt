// Bytes of a frame where a machine is described: those that are written, and addresses and freezes that are spilled. It
// relies on `stack_domain` for which stack bytes are written, and on `spills` for what stands there besides numbers.

ghost use Rattle.std.specs.Prelude.{◌≡◌, ◌↔◌, ◌<◌, ◌≤◌, ◌+◌, ◌*◌, ◌^◌, ℕ, List, length, IfOk, IfSome, IsTrue};
ghost use Rattle.scalar_domain.specs.Scalar.{Has};
ghost use Rattle.bpf_semantics.specs.MachineState.{MachineState};
ghost use Rattle.check_description.specs.declared.saved.SavedRegisters.{SavedRegisters};
ghost use Rattle.check_description.specs.Description.{DescribesWith};
ghost use Rattle.check_description.specs.Memory.{ChangesStack, HasThere, LeavesMarked, StoresNumber, Writes, WritesWord, word_there};
ghost use Rattle.check_description.specs.Spills.{AreUnspilled, kind_of, spill_at, spill_of};
ghost use Rattle.check_register_kinds.specs.declared.region.Region.TheVariants.{Frame};
ghost use Rattle.check_register_kinds.specs.Freezes.{FreezeNumbers};
ghost use Rattle.check_register_kinds.specs.Kinds.{HoldsKind, IsNumber, LiesAt};

use crate::description::Description;
use crate::spill::Spill;
use check_register_kinds::{Kind, Offsets};
use scalar_domain::Scalar;
use stack_domain::NumberPlace;
use std::alloc::AllocError;

/// How many bytes a spill takes.
const SPILL_BYTES: u16 = 8;

impl Description {
    /// Writes bytes, at most 16, to a live frame. They are known to be written where they begin at one offset, and what
    /// was spilled where they may be is a spill no more.
    pub fn write_in(&mut self, frame: u8, offsets: Offsets, bytes: u16)
        requires live { frame < length self.old.stack }
        requires inside { offsets.most + bytes ≤ 512 }
        requires few { bytes ≤ 16 }
        ensures writes { Writes self.old frame offsets bytes self.new }
        ensures leaves { (from : ℕ) → offsets ≡ record { least = from; most = from } → LeavesMarked self.old frame from bytes self.new }
        ensures only { ChangesStack self.old self.new }
        ensures ends { AreUnspilled self.new.spills frame offsets.least (offsets.most + bytes) }
    {
        self.spills
            .overwrite(frame, offsets.least, offsets.most + bytes);
        let end = offsets.most + bytes;
        self.numbers.overwrite(frame, offsets.least, end);
        self.loaded = None;
        if offsets.least == offsets.most {
            let offset = usize::from(offsets.least);
            self.stack
                .mark(usize::from(frame), offset, usize::from(bytes));
        }
    }

    /// Makes room for what is known of a number that is stored then.
    ///
    /// # Errors
    /// There is no memory.
    pub fn make_room(&mut self) -> Result<(), AllocError>
        ensures { self.new ≡ self.old }
    {
        self.numbers.make_room()
    }

    /// Stores one of these numbers in bytes of a live frame, at most 8. It is kept if they begin at one offset and have room for
    /// each of them, and if room was made for it.
    pub fn store_number_in(&mut self, frame: u8, offsets: Offsets, bytes: u16, number: Scalar)
        requires live { frame < length self.old.stack }
        requires inside { offsets.most + bytes ≤ 512 }
        requires few { bytes ≤ 8 }
        ensures stores { StoresNumber self.old frame offsets bytes number self.new }
        ensures leaves { (from : ℕ) → offsets ≡ record { least = from; most = from } → LeavesMarked self.old frame from bytes self.new }
        ensures depth { length self.new.stack ≡ length self.old.stack }
    {
        self.write_in(frame, offsets, bytes);
        if offsets.least == offsets.most && has_room(bytes, number) {
            let place = NumberPlace {
                frame,
                offset: offsets.least,
                bytes,
            };
            self.numbers.keep(place, number);
        }
    }

    /// What is known of the number that stands in bytes of a frame, if anything is.
    pub fn number_in(&self, frame: u8, offsets: Offsets, count: u16) -> Option<Scalar>
        requires inside { offsets.most + count ≤ 512 }
        ensures { IfSome result (λ number. HasThere self.now frame offsets count number) }
    {
        if offsets.least == offsets.most {
            self.numbers.find(NumberPlace {
                frame,
                offset: offsets.least,
                bytes: count,
            })
        } else {
            None
        }
    }

    /// Writes a word of that kind to eight bytes of a live frame, from a multiple of 8 on. An address or a freeze is spilled there.
    pub fn spill_in(&mut self, frame: u8, word: u16, kind: Kind) -> Result<(), AllocError>
        requires live { frame < length self.old.stack }
        requires inside { word < 64 }
        ensures writes { IfOk result (λ _. WritesWord self.old frame (8 * word) kind self.new) }
        ensures spilled { IfOk result (λ _. spill_at self.new.spills frame word ≡ spill_of kind) }
        ensures depth { length self.new.stack ≡ length self.old.stack }
    {
        let offset = SPILL_BYTES * word;
        self.write_in(
            frame,
            Offsets {
                least: offset,
                most: offset,
            },
            SPILL_BYTES,
        );
        self.spills.put(frame, word, Spill::of(kind))
    }

    /// What is known of the word that begins at these offsets of a frame: if they are one, and a multiple of 8, the kind of what is
    /// spilled there; else nothing, and of a number nothing either.
    pub fn spilled(&self, frame: u8, offsets: Offsets) -> Kind
        requires inside { offsets.most + 8 ≤ 512 }
        ensures holds { (numbers : FreezeNumbers) (callers : List SavedRegisters) (m : MachineState) (address : ℕ) → DescribesWith numbers callers self.now m → LiesAt (Frame frame) offsets address → frame < length self.now.stack → HoldsKind numbers result (word_there m address) }
        ensures no_number { IsNumber result → ⊥ }
        ensures aligned { (word : ℕ) → offsets.least ≡ 8 * word → offsets.most ≡ 8 * word → result ≡ kind_of (spill_at self.now.spills frame word) }
        ensures elsewhere { ((word : ℕ) → offsets.least ≡ 8 * word → offsets.most ≡ 8 * word → ⊥) → result ≡ Kind.Unwritten }
    {
        if offsets.least == offsets.most && offsets.least.is_multiple_of(SPILL_BYTES) {
            self.spills.at(frame, offsets.least / SPILL_BYTES).kind()
        } else {
            Kind::Unwritten
        }
    }

    /// Whether something may be spilled in bytes of a frame that begin at any of these offsets.
    pub fn may_be_spilled(&self, frame: u8, offsets: Offsets, bytes: u16) -> bool
        requires inside { offsets.most + bytes ≤ 512 }
        ensures { IsTrue result ↔ (AreUnspilled self.now.spills frame offsets.least (offsets.most + bytes) → ⊥) }
    {
        !self
            .spills
            .are_none_in(frame, offsets.least, offsets.most + bytes)
    }
}

// Whether so many bytes, at most 8, have room for each of these numbers.
fn has_room(bytes: u16, number: Scalar) -> bool
    ensures { IsTrue result → (word : ℕ) → Has number word → word < 256 ^ bytes }
{
    match bytes {
        1 => number.most() <= 0xff,
        2 => number.most() <= 0xffff,
        4 => number.most() <= 0xffff_ffff,
        8 => true,
        _ => false,
    }
}
