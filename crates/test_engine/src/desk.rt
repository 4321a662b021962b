// Two engines, of which one is asked at a time, line by line, and what is told of it. It relies on `side` for each, and on `host_live` for
// lines.

use crate::asking::{Presenting, Stretching};
use crate::side::{Side, put, put_totals};
use host_handles::Unanswered;
use host_live::{Request, request_of};
use interpreter::Segment;
use scenario::is_skipped;
use std::alloc::{AllocError, Global};
use std::mem;
use world_calls::Totals;

/// What became of a line.
#[derive(Clone, Copy, Debug, PartialEq, Eq)]
enum Became {
    Done,
    /// C4 or C6: what was handed in came back.
    NotAdmitted,
    /// What was to be handed in is not there.
    NotHeld,
    /// The sums are to be told.
    Sums,
    /// No line is spelled so.
    Unknown,
    OutOfMemory,
}

/// Two engines, what a run did that is out, and what is told so far.
pub struct Desk {
    // the one that is asked
    asked: Side,
    other: Side,
    kept: Option<Segment>,
    out: Vec<u8>,
}

// What was answered, as what became of a line.
fn outcome_of<T: Drop>(answered: Result<T, Unanswered>) -> Became {
    match answered {
        Ok(_) => Became::Done,
        Err(Unanswered::NotHeld) => Became::NotHeld,
        Err(Unanswered::NotAdmitted) => Became::NotAdmitted,
        Err(Unanswered::OutOfMemory) => Became::OutOfMemory,
    }
}

// The number that stands after a word.
fn number_after(line: &str, word: &str) -> Option<u32> {
    line.strip_prefix(word)?.parse().ok()
}

impl Desk {
    /// Two engines of which nothing was asked.
    pub fn of(alloc: Global, asked: Side, other: Side) -> Self {
        Desk {
            asked,
            other,
            kept: None,
            out: Vec::new(alloc),
        }
    }

    /// Carries out the lines of a script, and tells what became of each.
    pub fn carry_out_all(&mut self, script: &str) -> Result<(), AllocError> {
        for line in script.split('\n') {
            if !is_skipped(line) {
                self.carry_out(line)?;
            }
        }
        Ok(())
    }

    /// The sums of both engines in the end follow what was told, that of the one first which is asked.
    pub fn end(self) -> Result<Vec<u8>, AllocError> {
        let Desk {
            asked,
            other,
            kept: _,
            mut out,
        } = self;
        let (asked, other) = (asked.end(), other.end());
        put_totals(&mut out, asked)?;
        put_totals(&mut out, other)?;
        Ok(out)
    }

    fn totals(&self) -> (Totals, Totals) {
        (self.asked.totals(), self.other.totals())
    }

    // Carries a line out. If memory is refused the sums are as before, and the same line is carried out once more.
    fn carry_out(&mut self, line: &str) -> Result<(), AllocError> {
        let before = self.totals();
        let mut became = self.attempt(line);
        if became == Became::OutOfMemory {
            if self.totals() != before {
                put(&mut self.out, b"changed\n")?;
            }
            became = self.attempt(line);
        }
        self.asked.tell_news(&mut self.out)?;
        self.tell(became)
    }

    fn tell(&mut self, became: Became) -> Result<(), AllocError> {
        match became {
            Became::Done => Ok(()),
            Became::NotAdmitted => put(&mut self.out, b"unfit\n"),
            Became::NotHeld => put(&mut self.out, b"not held\n"),
            Became::Sums => put_totals(&mut self.out, self.asked.totals()),
            Became::Unknown => put(&mut self.out, b"unknown\n"),
            Became::OutOfMemory => put(&mut self.out, b"out of memory\n"),
        }
    }

    fn attempt(&mut self, line: &str) -> Became {
        let version = self.asked.asked.engine.version();
        match request_of(*self.out.allocator(), version, line, false) {
            Ok(Some(Request::Call(call))) => outcome_of(self.asked.call(&call)),
            Ok(Some(Request::Totals)) => Became::Sums,
            Ok(Some(Request::Step(run))) => outcome_of(self.asked.step(run)),
            Ok(Some(Request::Drive(run))) => outcome_of(self.asked.drive(run)),
            Ok(
                Some(
                    Request::Drain
                    | Request::Ccbs
                    | Request::Quit
                    | Request::Help
                    | Request::Succeed(_),
                ),
            ) => Became::Unknown,
            Ok(None) => self.attempt_own(line),
            Err(AllocError) => Became::OutOfMemory,
        }
    }

    // What is no line of a live engine: `other` asks the other engine from now on, `exchange` lets both have what the other gave,
    // `stretch R` keeps what run R does up to its next stop, and `present R` hands run R in with what was kept.
    fn attempt_own(&mut self, line: &str) -> Became {
        if line == "other" {
            mem::swap(&mut self.asked, &mut self.other);
            return Became::Done;
        }
        if line == "exchange" {
            mem::swap(&mut self.asked.hands, &mut self.other.hands);
            return Became::Done;
        }
        match number_after(line, "stretch ") {
            Some(run) => self.stretch(run),
            None => match number_after(line, "present ") {
                Some(run) => self.present(run),
                None => Became::Unknown,
            },
        }
    }

    // Keeps what a run does up to its next stop.
    fn stretch(&mut self, number: u32) -> Became {
        let mut stretching = Stretching { kept: None };
        let answered = self.asked.hands.advance(&mut stretching, number);
        if stretching.kept.is_some() {
            self.kept = stretching.kept;
            Became::Done
        } else {
            outcome_of(answered)
        }
    }

    // Hands a run in with what was kept.
    fn present(&mut self, number: u32) -> Became {
        let mut presenting = Presenting {
            engine: &mut self.asked.asked.engine,
            kept: &mut self.kept,
        };
        outcome_of(self.asked.hands.advance(&mut presenting, number))
    }
}
