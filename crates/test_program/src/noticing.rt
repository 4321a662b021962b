// What is told of a run and of a replay while it is done, where that is wanted, and how it is worded.

use crate::writers::{MANIFEST, SCENARIO, TRACE};
use cli_commands::carry;
use cli_line::{Plan, Watch};
use std::alloc::{AllocError, Global};
use std::sync::Wait;
use std::sync::atomic::{AtomicU64, Ordering};
use std::thread::Threads;
use world_calls::{Notice, Notices, Totals};

/// A replay tells how far it is after so many records.
const OFTEN: u64 = 4096;

/// Wants to know all. It counts what it is told, and keeps the last of it.
#[derive(Drop)]
struct Wanting {
    told: AtomicU64,
    records: AtomicU64,
    runs: AtomicU64,
    all: AtomicU64,
}

impl Wanting {
    fn new() -> Self {
        Wanting {
            told: AtomicU64::new(0),
            records: AtomicU64::new(0),
            runs: AtomicU64::new(0),
            all: AtomicU64::new(0),
        }
    }
}

impl Notices for Wanting {
    fn is_wanted(&self) -> bool {
        true
    }

    fn tell(&self, notice: Notice) {
        self.told.fetch_add(1, Ordering::SeqCst);
        match notice {
            Notice::Sums(totals) => {
                self.records.store(totals.history, Ordering::SeqCst);
                self.runs.store(u64::from(totals.runs), Ordering::SeqCst);
            }
            Notice::Replayed(done, all) => {
                self.records.store(done, Ordering::SeqCst);
                self.all.store(all, Ordering::SeqCst);
            }
        }
    }
}

// The status of a plan over the manifest and a second file.
fn carried<R: Threads + Wait + Sync>(
    rt: &R,
    alloc: Global,
    plan: &Plan,
    second: &[u8],
    notices: &Wanting,
    out: &mut Vec<u8>,
) -> Result<u8, AllocError> {
    let inputs = vec![in alloc; MANIFEST.as_bytes().to_vec(alloc)?, second.to_vec(alloc)?]?;
    let mut err = Vec::new(alloc);
    Ok(if inputs.len() == plan.input_count() {
        carry(rt, alloc, plan, &inputs, notices, out, &mut err)
    } else {
        2
    })
}

// The text of a notice is that.
fn is_worded(alloc: Global, notice: Notice, words: &str) -> Result<bool, AllocError> {
    Ok(format!(in alloc; "{notice}")?.as_str() == words)
}

/// The words are worked out by hand.
pub fn words_of_notices(alloc: Global) -> Result<bool, AllocError> {
    let totals = Totals {
        history: 120034,
        frozen: 3,
        active: 5,
        runs: 2,
    };
    let sums = is_worded(
        alloc,
        Notice::Sums(totals),
        "120034 records, 3 freezes, 5 active CCBs, 2 live runs",
    )?;
    let replayed = is_worded(
        alloc,
        Notice::Replayed(81920, 500000),
        "81920 of 500000 records",
    )?;
    Ok(sums && replayed)
}

/// A run tells the sums before each of its three stops, the last when seven records were there and the run was live. The trace is what
/// it is without.
pub fn a_run_tells<R: Threads + Wait + Sync>(rt: &R, alloc: Global) -> Result<bool, AllocError> {
    let plan = Plan::Run(
        1,
        Watch::Never,
        String::from_str(alloc, "m.toml")?,
        String::from_str(alloc, "s.txt")?,
    );
    let notices = Wanting::new();
    let mut out = Vec::new(alloc);
    let status = carried(rt, alloc, &plan, SCENARIO.as_bytes(), &notices, &mut out)?;
    Ok(
        status == 0
            && out.as_slice() == TRACE.as_bytes()
            && notices.told.load(Ordering::SeqCst) == 3
            && notices.records.load(Ordering::SeqCst) == 7
            && notices.runs.load(Ordering::SeqCst) == 1,
    )
}

// The trace of so many calls that are refused.
fn trace_of_refusals(alloc: Global, count: u64) -> Result<Vec<u8>, AllocError> {
    let mut trace = b"camr-trace 1\n".to_vec(alloc)?;
    for _ in 0..count {
        trace.extend_from_slice(b"dispatch 1 = C1\n")?;
    }
    trace.extend_from_slice(b"end 4097 0 0 0\n")?;
    Ok(trace)
}

/// A replay of one record more than it takes to tell tells once.
pub fn a_replay_tells<R: Threads + Wait + Sync>(rt: &R, alloc: Global) -> Result<bool, AllocError> {
    let plan = Plan::Replay(
        String::from_str(alloc, "m.toml")?,
        String::from_str(alloc, "t.txt")?,
    );
    let trace = trace_of_refusals(alloc, OFTEN + 1)?;
    let notices = Wanting::new();
    let mut out = Vec::new(alloc);
    let status = carried(rt, alloc, &plan, &trace, &notices, &mut out)?;
    Ok(
        status == 0
            && out.as_slice() == b"accepted\n".as_slice()
            && notices.told.load(Ordering::SeqCst) == 1
            && notices.records.load(Ordering::SeqCst) == OFTEN
            && notices.all.load(Ordering::SeqCst) == OFTEN + 1,
    )
}
