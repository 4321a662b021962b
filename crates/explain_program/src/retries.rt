// Whether a program that is accepted may requeue a CCB that has no retries left. Each load of that number is taken as 0, and the
// verifier's pass is made once more: it comes to every place to which a run with such a CCB may come. It relies on `verifier` for that.

use crate::arguments::helper_of;
use base::OrMemory;
use bpf_insn::{AluOp, Insn, LoadForm, Operand, Program, Width};
use check_description::Description;
use check_register_kinds::{Kind, Region};
use explain_path::Sketch;
use helpers::{HelperEffect, HelperLimits};
use std::alloc::{AllocError, Global};
use verifier::{Witness, verify_before};

/// Where in the context the retries stand that are left, as a word of 32 bits.
const RETRIES: i32 = 16;

/// How many bytes that word has.
const RETRIES_BYTES: i32 = 4;

// What the checks of a slot's instruction load.
#[derive(Clone, Copy, PartialEq, Eq)]
enum Seen {
    /// The retries have no part in it.
    Nothing,
    /// The retries that are left, at each check.
    Retries,
    /// Something else at some check.
    Other,
}

/// Which instructions load the retries that are left.
#[derive(Drop)]
pub struct Loads {
    // by slots
    seen: Vec<Seen>,
    // how many checks load at least a part of them
    parts: u64,
}

impl Loads {
    /// None yet, of a program of so many slots.
    pub fn none(alloc: Global, slots: usize) -> Result<Self, AllocError> {
        let mut seen = Vec::with_capacity(alloc, slots)?;
        for _slot in 0..slots {
            seen.push(Seen::Nothing)?;
        }
        Ok(Loads { seen, parts: 0 })
    }

    /// Sees a check of an instruction at a slot.
    pub fn see(&mut self, slot: usize, insn: Insn, known: &Sketch) {
        let seen = loaded(insn, known);
        if reads_part(insn, known) {
            self.parts = self.parts.saturating_add(1);
        }
        if let Some(place) = self.seen.get_mut(slot) {
            *place = both(*place, seen);
        }
    }

    /// Whether no check loads a part of them.
    pub fn are_none(&self) -> bool {
        self.parts == 0
    }

    // The instruction at a slot, for a CCB that has no retries left.
    fn instead(&self, slot: usize, insn: Insn) -> Insn {
        match self.seen.get(slot) {
            Some(Seen::Retries) => without_retries(insn),
            _ => insn,
        }
    }

    /// Whether a run of the program with a CCB that has no retries left may requeue it.
    pub fn may_requeue(
        &self,
        alloc: Global,
        program: &Program,
        limits: &HelperLimits,
    ) -> Result<bool, AllocError> {
        let mut insns = Vec::with_capacity(alloc, program.len())?;
        for slot in 0..program.len() {
            if let Some(insn) = program.fetch(slot) {
                insns.push(self.instead(slot, insn))?;
            }
        }
        match Program::new(alloc, &insns)? {
            Some(changed) => may_come(alloc, &changed, limits),
            None => Ok(true),
        }
    }
}

// A load of the retries, as the number 0 in its register.
fn without_retries(insn: Insn) -> Insn {
    match insn {
        Insn::Load { dst, .. } => Insn::Alu {
            width: Width::Bits64,
            op: AluOp::Mov,
            dst,
            src: Operand::Immediate(0),
        },
        _ => insn,
    }
}

// What two checks of a slot load.
fn both(before: Seen, seen: Seen) -> Seen {
    match (before, seen) {
        (Seen::Nothing, _) => seen,
        (Seen::Retries, Seen::Retries) => Seen::Retries,
        _ => Seen::Other,
    }
}

// What an instruction loads at a check.
fn loaded(insn: Insn, known: &Sketch) -> Seen {
    match insn {
        Insn::Load {
            form: LoadForm::Word,
            src,
            offset,
            ..
        } => match known.kind(src) {
            Kind::Address(Region::Context, offsets)
                if offsets.least == offsets.most
                    && i32::from(offsets.least).saturating_add(i32::from(offset)) == RETRIES =>
                Seen::Retries,
            _ => Seen::Other,
        },
        _ => Seen::Other,
    }
}

// Whether an instruction may load a part of the retries at a check.
fn reads_part(insn: Insn, known: &Sketch) -> bool {
    let Insn::Load {
        form,
        src,
        offset,
        ..
    } = insn
    else {
        return false;
    };
    match known.kind(src) {
        Kind::Address(Region::Context, offsets) => {
            let first = i32::from(offsets.least).saturating_add(i32::from(offset));
            let last = i32::from(offsets.most)
                .saturating_add(i32::from(offset))
                .saturating_add(bytes_of(form));
            first < RETRIES + RETRIES_BYTES && last > RETRIES
        }
        _ => false,
    }
}

fn bytes_of(form: LoadForm) -> i32 {
    match form {
        LoadForm::Byte | LoadForm::SignedByte => 1,
        LoadForm::HalfWord | LoadForm::SignedHalfWord => 2,
        LoadForm::Word | LoadForm::SignedWord => 4,
        LoadForm::DoubleWord => 8,
    }
}

// Counts the checks of calls that requeue.
#[derive(Drop)]
struct Requeues<'a> {
    program: &'a Program,
    count: u64,
}

impl Witness for Requeues<'_> {
    fn checks(&mut self, _number: u32, slot: usize, _known: &Description) {
        if let Some(insn) = self.program.fetch(slot) {
            if does(insn, HelperEffect::Requeue) {
                self.count = self.count.saturating_add(1);
            }
        }
    }

    fn leads(&mut self, _number: u32, _slot: usize, _known: &Description) {}

    fn leaves(&mut self, _number: u32, _slot: usize, _known: &Description) {}
}

/// Whether an instruction calls a helper that does that.
pub fn does(insn: Insn, effect: HelperEffect) -> bool {
    match helper_of(insn) {
        Some(helper) => helper.row().effect == effect,
        None => false,
    }
}

// Whether the verifier comes to a call that requeues; or if it does not come to its end.
fn may_come(alloc: Global, program: &Program, limits: &HelperLimits) -> Result<bool, AllocError> {
    let (seen, judged) = verify_before(alloc, program, limits, Requeues { program, count: 0 });
    match judged {
        Err(OrMemory::OutOfMemory) => Err(AllocError),
        Err(OrMemory::Fault(_)) => Ok(true),
        Ok(_) => Ok(seen.count > 0),
    }
}
