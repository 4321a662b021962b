// Each byte of a policy by each other value: what is decoded is spelled so, what is accepted runs to its end within its budget, and a
// witness that is shown each check changes nothing of the answer.

use base::OrMemory;
use bpf_accepted::Accepted;
use bpf_decode::{decode, encode};
use bpf_insn::Program;
use ccb::{CamStatus, CcbId, Completion, QueueId};
use check_description::Description;
use engine_core::{AdvanceAnswer, CompleteAnswer, Config, Engine, Run};
use helpers::{HelperLimits, HelperSet, TableLengths};
use std::alloc::{AllocError, Global};
use std::sync::Arc;
use verifier::{Cause, Refusal, VerifyError, Witness, verify, verify_before};

// If there is a freeze it is given back; then the CCB waits again, with one retry fewer.
const POLICY: [u8; 56] = [
    0x15, 0x02, 2, 0, 0, 0, 0, 0, // jeq r2, 0, 2
    0xbf, 0x21, 0, 0, 0, 0, 0, 0, // mov64 r1, r2
    0x85, 0x00, 0, 0, 2, 0, 0, 0, // call 2
    0xb7, 0x01, 0, 0, 1, 0, 0, 0, // mov64 r1, 1
    0x85, 0x00, 0, 0, 4, 0, 0, 0, // call 4
    0xb7, 0x00, 0, 0, 0, 0, 0, 0, // mov64 r0, 0
    0x95, 0x00, 0, 0, 0, 0, 0, 0, // exit
];

const QUEUE: QueueId = QueueId(0);

const CCB: CcbId = CcbId(1);

// What became of the texts.
#[derive(Clone, Copy, Debug, PartialEq, Eq)]
struct Seen {
    refused: u32,
    unaccepted: u32,
    ended: u32,
}

impl Seen {
    // Whether so many texts were seen, and some of each kind.
    fn is_whole(&self, all: u32) -> bool {
        let Seen {
            refused,
            unaccepted,
            ended,
        } = *self;
        let seen = refused.saturating_add(unaccepted).saturating_add(ended);
        seen == all && refused > 0 && unaccepted > 0 && ended > 0
    }
}

// How many checks were shown, and the slot of the last one. They are out of order if one has another number than how many came
// before it.
#[derive(Drop)]
struct Shown {
    checks: u32,
    last: usize,
    out_of_order: bool,
}

impl Witness for Shown {
    fn checks(&mut self, number: u32, slot: usize, _known: &Description) {
        if number != self.checks {
            self.out_of_order = true;
        }
        self.checks = self.checks.saturating_add(1);
        self.last = slot;
    }

    fn leads(&mut self, _number: u32, _slot: usize, _known: &Description) {}

    fn leaves(&mut self, _number: u32, _slot: usize, _known: &Description) {}
}

impl Shown {
    fn nothing() -> Self {
        Shown {
            checks: 0,
            last: 0,
            out_of_order: false,
        }
    }

    // Whether these were all checks of a program that is accepted, before which they were shown.
    fn is_all(&self, accepted: &Accepted, before: Result<Accepted, VerifyError>) -> bool {
        match before {
            Ok(again) => {
                let same = again.budget() == accepted.budget()
                    && again.visits() == accepted.visits();
                same && self.checks == accepted.visits() && !self.out_of_order
            }
            Err(_) => false,
        }
    }

    // Whether a program was refused so, and the last check is the one that failed. Where paths disagree, that names the slot at which
    // they join.
    fn ends_so(&self, refusal: Refusal, before: Result<Accepted, VerifyError>) -> bool {
        let same = match before {
            Err(OrMemory::Fault(again)) => again == refusal,
            Err(OrMemory::OutOfMemory) | Ok(_) => false,
        };
        let ends = match refusal {
            Refusal::Shape(_) => self.checks == 0,
            Refusal::Check(Cause::PathsDisagree, _) => self.checks > 0,
            Refusal::Check(_, slot) => self.checks > 0 && self.last == slot,
        };
        same && ends && !self.out_of_order
    }
}

fn limits(alloc: Global) -> Result<HelperLimits, AllocError> {
    let mut lengths = Vec::new(alloc);
    lengths.push(10u16)?;
    Ok(HelperLimits {
        helpers: HelperSet::Queues,
        queues: 1,
        table_lengths: TableLengths::new(lengths),
    })
}

// An engine of one queue with that policy.
fn open(alloc: Global, accepted: Accepted) -> Result<Option<Engine>, AllocError> {
    let mut queues = Vec::new(alloc);
    queues.push((1u8, Arc::new(alloc, accepted)?))?;
    match Config::new(limits(alloc)?, queues) {
        Some(config) => match Engine::open(alloc, config) {
            Ok(engine) => Ok(Some(engine)),
            Err((fault, _)) => Err(fault),
        },
        None => Ok(None),
    }
}

fn shut(engine: Engine) -> u32 {
    engine.shut().totals.runs
}

fn start(engine: &mut Engine, queue: QueueId) -> bool {
    engine.submit(queue, 10, 3, 0).is_ok() && engine.dispatch(queue).is_ok()
}

// The run of the CCB of that number, which fails.
fn fail(engine: &mut Engine, ccb: CcbId) -> Option<Run> {
    match engine.complete(Completion::new(ccb, CamStatus::CommandTimeout, 0, &[])?) {
        Ok(CompleteAnswer::Started(run, _)) => Some(run),
        Ok(CompleteAnswer::Done) => None,
        Err(_) => None,
    }
}

// What the run came to.
enum Came {
    Goes(Run),
    Ended,
    Fault,
}

fn go_on(engine: &mut Engine, run: Run, steps: &mut u64) -> Came {
    let stopped = run.to_stop();
    *steps = steps.saturating_add(u64::from(stopped.steps()));
    match engine.go_on(stopped) {
        Ok(AdvanceAnswer::Goes(run, _)) => Came::Goes(run),
        Ok(AdvanceAnswer::Ended(_)) => Came::Ended,
        Err((_, run)) => {
            run.forfeit();
            Came::Fault
        }
    }
}

// How many instructions the run executes, if it ends after so many stops.
fn drive(engine: &mut Engine, run: Run, stops: u32) -> Option<u64> {
    let mut steps = 0;
    let mut run = run;
    for _ in 0..stops {
        match go_on(engine, run, &mut steps) {
            Came::Goes(again) => run = again,
            Came::Ended => return Some(steps),
            Came::Fault => return None,
        }
    }
    run.forfeit();
    None
}

fn recover(engine: &mut Engine, budget: u32) -> Option<u64> {
    if !start(engine, QUEUE) {
        return None;
    }
    let run = fail(engine, CCB)?;
    drive(engine, run, budget)
}

// Whether a run of the policy ends, and has no more instructions than its budget.
fn ends(alloc: Global, accepted: Accepted) -> Result<bool, AllocError> {
    let budget = accepted.budget();
    let Some(mut engine) = open(alloc, accepted)? else {
        return Ok(false);
    };
    let steps = recover(&mut engine, budget);
    let runs = shut(engine);
    Ok(match steps {
        Some(steps) => steps <= u64::from(budget) && runs == 0,
        None => false,
    })
}

// Counts a program. Whether one that is accepted ends, and a witness is shown each check.
fn judge_program(alloc: Global, program: &Program, seen: &mut Seen) -> Result<bool, AllocError> {
    let limits = limits(alloc)?;
    let (shown, before) = verify_before(alloc, program, &limits, Shown::nothing());
    match verify(alloc, program, &limits) {
        Ok(accepted) => {
            seen.ended = seen.ended.saturating_add(1);
            let all = shown.is_all(&accepted, before);
            Ok(all && ends(alloc, accepted)?)
        }
        Err(OrMemory::Fault(refusal)) => {
            seen.unaccepted = seen.unaccepted.saturating_add(1);
            Ok(shown.ends_so(refusal, before))
        }
        Err(OrMemory::OutOfMemory) => Err(AllocError),
    }
}

// Counts a text. Whether it is spelled as it stood, and ends if it is accepted.
fn judge(alloc: Global, bytes: &[u8], seen: &mut Seen) -> Result<bool, AllocError> {
    match decode(alloc, bytes) {
        Ok(program) => {
            let again = encode(alloc, &program)?;
            Ok(*again == *bytes && judge_program(alloc, &program, seen)?)
        }
        Err(OrMemory::Fault(_)) => {
            seen.refused = seen.refused.saturating_add(1);
            Ok(true)
        }
        Err(OrMemory::OutOfMemory) => Err(AllocError),
    }
}

// Each other value of that byte.
fn judge_all_at(alloc: Global, at: usize, seen: &mut Seen) -> Result<bool, AllocError> {
    for value in 0..=u8::MAX {
        let mut bytes = POLICY;
        let Some(byte) = bytes.get_mut(at) else {
            return Ok(false);
        };
        if *byte != value {
            *byte = value;
            if !judge(alloc, &bytes, seen)? {
                return Ok(false);
            }
        }
    }
    Ok(true)
}

fn judge_all(alloc: Global) -> Result<bool, AllocError> {
    let mut seen = Seen {
        refused: 0,
        unaccepted: 0,
        ended: 0,
    };
    for at in 0..POLICY.len() {
        if !judge_all_at(alloc, at, &mut seen)? {
            return Ok(false);
        }
    }
    Ok(seen.is_whole(14_280))
}

pub fn one_byte_changed(alloc: Global) -> Option<bool> {
    judge_all(alloc).ok()
}
