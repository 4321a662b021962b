// What a pass over a program showed, as far as a report tells it. It relies on `explain_path` for the checks and the ways between them,
// and on `steps` for which registers matter to an instruction.

use crate::steps::{loaded, mattering, tells_freezes};
use base::OrMemory;
use bpf_insn::{Program, Reg};
use check_description::Description;
use check_register_kinds::{Held, Kind};
use explain_path::Log;
use helpers::HelperLimits;
use std::alloc::{AllocError, Global};
use verifier::{Refusal, Witness, verify_before};

/// The checks of a pass, and what was known at each of them of the registers that matter there.
#[derive(Drop)]
pub struct Notes<'a> {
    program: &'a Program,
    log: Log,
    // by checks, where their kinds and freezes begin
    starts: Vec<Start>,
    kinds: Vec<Kind>,
    held: Vec<Held>,
    lacks_memory: bool,
}

// Which kinds and freezes are those of a check: the first ones; they go on to those of the next check.
#[derive(Clone, Copy)]
struct Start {
    kinds: usize,
    held: usize,
}

impl<'a> Notes<'a> {
    // Nothing yet.
    fn new(alloc: Global, program: &'a Program) -> Self {
        Notes {
            program,
            log: Log::new(alloc),
            starts: Vec::new(alloc),
            kinds: Vec::new(alloc),
            held: Vec::new(alloc),
            lacks_memory: false,
        }
    }

    /// The checks.
    pub fn log(&self) -> &Log {
        &self.log
    }

    /// What the registers held at a check that matter to its instruction, in their order, and after them the number that it loads, if
    /// that is known.
    pub fn kinds(&self, check: usize) -> &[Kind] {
        let first = self.start(check).kinds;
        let end = self.start(check.saturating_add(1)).kinds;
        match self.kinds.as_slice().get(first..end) {
            Some(kinds) => kinds,
            None => &[],
        }
    }

    /// The freezes that were held at a check, if that is told of its instruction or of a register that matters to it.
    pub fn held(&self, check: usize) -> Option<Held> {
        let first = self.start(check).held;
        if first < self.start(check.saturating_add(1)).held {
            self.held.get(first).copied()
        } else {
            None
        }
    }

    fn start(&self, check: usize) -> Start {
        match self.starts.get(check) {
            Some(start) => *start,
            None => Start {
                kinds: self.kinds.len(),
                held: self.held.len(),
            },
        }
    }

    // Notes what is known at a check.
    fn note(&mut self, slot: usize, known: &Description) -> Result<(), AllocError> {
        self.starts.push(Start {
            kinds: self.kinds.len(),
            held: self.held.len(),
        })?;
        let Some(insn) = self.program.fetch(slot) else {
            return Ok(());
        };
        let registers = mattering(insn);
        let mut has_freeze = false;
        for number in 0u8..11 {
            if let Some(reg) = Reg::from_number(number) {
                if registers.has(reg) {
                    let kind = known.kind(reg);
                    has_freeze |= matches!(kind, Kind::Freeze(_));
                    self.kinds.push(kind)?;
                }
            }
        }
        if let Some(number) = loaded(known, insn) {
            self.kinds.push(Kind::Number(number))?;
        }
        if has_freeze || tells_freezes(insn) {
            self.held.push(known.held)?;
        }
        Ok(())
    }
}

impl Witness for Notes<'_> {
    fn checks(&mut self, number: u32, slot: usize, known: &Description) {
        self.log.checks(number, slot, known);
        if !self.lacks_memory && self.note(slot, known).is_err() {
            self.lacks_memory = true;
        }
    }

    fn leads(&mut self, number: u32, slot: usize, known: &Description) {
        self.log.leads(number, slot, known);
    }

    fn leaves(&mut self, number: u32, slot: usize, known: &Description) {
        self.log.leaves(number, slot, known);
    }
}

/// What the verifier's pass shows of a program, and why the program is refused, if it is.
pub fn notes_of<'a>(
    alloc: Global,
    program: &'a Program,
    limits: &HelperLimits,
) -> Result<(Notes<'a>, Option<Refusal>), AllocError> {
    let (notes, judged) = verify_before(alloc, program, limits, Notes::new(alloc, program));
    if notes.lacks_memory || notes.log.lacks_memory() {
        return Err(AllocError);
    }
    match judged {
        Err(OrMemory::OutOfMemory) => Err(AllocError),
        Err(OrMemory::Fault(refusal)) => Ok((notes, Some(refusal))),
        Ok(_) => Ok((notes, None)),
    }
}
