// Writers that fail, and memory that is refused. Expected texts are worked out by hand.

use cli_commands::carry;
use cli_line::{Plan, Watch};
use std::alloc::{AllocError, Global};
use std::io;
use std::io::{ErrorKind, Write};
use std::sync::Wait;
use std::thread::Threads;
use world_calls::Silent;

// The two paths have 5 and 7 instructions: jeq r2, 0, +2; mov64 r1, r2; call 2; mov64 r1, 1; call 4;
// mov64 r0, 0; exit.
pub const MANIFEST: &str = "version = 1\n[[queue]]\nopenings = 2\nprogram = \"p1\"\n\
    [[program]]\nname = \"p1\"\ncode = \"\"\"\n\
    15 02 02 00 00 00 00 00\n\
    bf 21 00 00 00 00 00 00\n\
    85 00 00 00 02 00 00 00\n\
    b7 01 00 00 01 00 00 00\n\
    85 00 00 00 04 00 00 00\n\
    b7 00 00 00 00 00 00 00\n\
    95 00 00 00 00 00 00 00\n\
    \"\"\"\n";

pub const SCENARIO: &str =
    "submit 0 10 3\ndispatch 0\ngfreeze 0 7\ngrelease 1\ncomplete 1 0b 00 -\n";

pub const TRACE: &str = "camr-trace 1\nsubmit 0 10 3 = ccb 1\ndispatch 0 = ccb 1\n\
    gfreeze 0 7 = freeze 1\ngrelease 1 = 0\ncomplete 1 0b 00 - = run 1 freeze 2\n\
    advance 1 3 helper 2 = 0\nadvance 1 2 helper 4 = 0\nadvance 1 2 exit = 0\nend 8 0 0 0\n";

// A program, and its bytes.
const PROGRAM_TEXT: &str = "mov64 r0, 1\nexit\n";

const PROGRAM: [u8; 16] = [0xb7, 0, 0, 0, 1, 0, 0, 0, 0x95, 0, 0, 0, 0, 0, 0, 0];

// What is told if memory is refused.
const WANT: &str = "camr: out of memory\n";

// Takes so many bytes, and then fails so.
#[derive(Drop)]
struct Failing {
    taken: Vec<u8>,
    room: usize,
    kind: ErrorKind,
}

impl Write for Failing {
    fn write(&mut self, buf: &[u8]) -> io::Result<usize> {
        let count = buf.len().min(self.room.saturating_sub(self.taken.len()));
        if count == 0 {
            return Err(io::Error::from(self.kind));
        }
        self.taken.extend_from_slice(&buf[..count])?;
        Ok(count)
    }

    fn flush(&mut self) -> io::Result<()> {
        Ok(())
    }
}

fn with_room(alloc: Global, room: usize, kind: ErrorKind) -> Failing {
    Failing {
        taken: Vec::new(alloc),
        room,
        kind,
    }
}

// The status of a run of a scenario over the manifest.
fn run<R: Threads + Wait + Sync, W: Write, E: Write>(
    rt: &R,
    alloc: Global,
    scenario: &str,
    out: &mut W,
    err: &mut E,
) -> Result<u8, AllocError> {
    let plan = Plan::Run(
        1,
        Watch::Never,
        String::from_str(alloc, "m.toml")?,
        String::from_str(alloc, "s.txt")?,
    );
    carried(rt, alloc, &plan, scenario, out, err)
}

// The status of a replay of the trace over the manifest.
fn replay<R: Threads + Wait + Sync, W: Write, E: Write>(
    rt: &R,
    alloc: Global,
    out: &mut W,
    err: &mut E,
) -> Result<u8, AllocError> {
    let plan = Plan::Replay(
        String::from_str(alloc, "m.toml")?,
        String::from_str(alloc, "t.txt")?,
    );
    carried(rt, alloc, &plan, TRACE, out, err)
}

// The status of a plan over the manifest and a second file.
fn carried<R: Threads + Wait + Sync, W: Write, E: Write>(
    rt: &R,
    alloc: Global,
    plan: &Plan,
    second: &str,
    out: &mut W,
    err: &mut E,
) -> Result<u8, AllocError> {
    let inputs = vec![in alloc;
        MANIFEST.as_bytes().to_vec(alloc)?,
        second.as_bytes().to_vec(alloc)?,
    ]?;
    Ok(if inputs.len() == plan.input_count() {
        carry(rt, alloc, plan, &inputs, &Silent, out, err)
    } else {
        2
    })
}

// Whether a run whose writer has room for so many bytes of the trace, and then fails so, ends with status 2 after these lines. What went
// out is a beginning of the trace.
fn fails<R: Threads + Wait + Sync>(
    rt: &R,
    alloc: Global,
    room: usize,
    kind: ErrorKind,
    lines: &str,
) -> Result<bool, AllocError> {
    let mut out = with_room(alloc, room, kind);
    let mut err = Vec::new(alloc);
    let status = run(rt, alloc, SCENARIO, &mut out, &mut err)?;
    Ok(
        status == 2
            && TRACE.as_bytes().starts_with(&out.taken)
            && (kind == ErrorKind::OutOfMemory || out.taken.len() == room)
            && err.as_slice() == lines.as_bytes(),
    )
}

/// A writer that fails at any byte of the trace is status 2 without a line, and what went out is a beginning of the trace.
pub fn writers_that_fail<R: Threads + Wait + Sync>(
    rt: &R,
    alloc: Global,
) -> Result<bool, AllocError> {
    for room in 0..TRACE.len() {
        if !fails(rt, alloc, room, ErrorKind::BrokenPipe, "")? {
            return Ok(false);
        }
    }
    Ok(true)
}

/// A run whose writer has no memory for any byte of the trace says so, and what went out is a beginning of the trace.
pub fn run_with_a_writer_without_memory<R: Threads + Wait + Sync>(
    rt: &R,
    alloc: Global,
) -> Result<bool, AllocError> {
    for room in 0..TRACE.len() {
        if !fails(rt, alloc, room, ErrorKind::OutOfMemory, WANT)? {
            return Ok(false);
        }
    }
    Ok(true)
}

// The status of an assembly of the program's text.
fn assemble<R: Threads + Wait + Sync, W: Write, E: Write>(
    rt: &R,
    alloc: Global,
    out: &mut W,
    err: &mut E,
) -> Result<u8, AllocError> {
    let plan = Plan::Asm(
        String::from_str(alloc, "p.txt")?,
        String::from_str(alloc, "p.bin")?,
    );
    let inputs = vec![in alloc; PROGRAM_TEXT.as_bytes().to_vec(alloc)?]?;
    Ok(if inputs.len() == plan.input_count() {
        carry(rt, alloc, &plan, &inputs, &Silent, out, err)
    } else {
        2
    })
}

// The same of an assembly, and of the program's bytes.
fn assembly_fails<R: Threads + Wait + Sync>(
    rt: &R,
    alloc: Global,
    room: usize,
) -> Result<bool, AllocError> {
    let mut out = with_room(alloc, room, ErrorKind::OutOfMemory);
    let mut err = Vec::new(alloc);
    let status = assemble(rt, alloc, &mut out, &mut err)?;
    Ok(status == 2 && PROGRAM.starts_with(&out.taken) && err.as_slice() == WANT.as_bytes())
}

pub fn assembly_with_a_writer_without_memory<R: Threads + Wait + Sync>(
    rt: &R,
    alloc: Global,
) -> Result<bool, AllocError> {
    for room in 0..PROGRAM.len() {
        if !assembly_fails(rt, alloc, room)? {
            return Ok(false);
        }
    }
    Ok(true)
}

/// A refusal whose line cannot be written is status 2.
pub fn line_that_cannot_be_written<R: Threads + Wait + Sync>(
    rt: &R,
    alloc: Global,
) -> Result<bool, AllocError> {
    let mut out = Vec::new(alloc);
    let mut err = with_room(alloc, 6, ErrorKind::BrokenPipe);
    let status = run(rt, alloc, "thaw 1\n", &mut out, &mut err)?;
    Ok(status == 2 && out.is_empty())
}

// What came of a plan.
#[derive(Clone, Copy, Debug, PartialEq, Eq)]
enum Came {
    /// All went out.
    Done,
    /// Memory was refused, for the plan or for its files; or that is told in its line, and what went out is a beginning of the whole.
    Refused,
    Otherwise,
}

fn made_of(status: Result<u8, AllocError>, out: &[u8], err: &[u8], whole: &[u8]) -> Came {
    match status {
        Ok(0) if out == whole && err.is_empty() => Came::Done,
        Ok(2) if err == WANT.as_bytes() && whole.starts_with(out) => Came::Refused,
        Ok(_) => Came::Otherwise,
        Err(AllocError) => Came::Refused,
    }
}

/// What is done where memory may be refused.
#[derive(Clone, Copy, Debug, PartialEq, Eq)]
pub enum Task {
    Run,
    Replay,
    Assembly,
}

fn done<R: Threads + Wait + Sync>(rt: &R, alloc: Global, task: Task) -> Came {
    let mut out = Vec::new(alloc);
    let mut err = Vec::new(alloc);
    match task {
        Task::Run => {
            let status = run(rt, alloc, SCENARIO, &mut out, &mut err);
            made_of(status, &out, &err, TRACE.as_bytes())
        }
        Task::Replay => {
            let status = replay(rt, alloc, &mut out, &mut err);
            made_of(status, &out, &err, b"accepted\n")
        }
        Task::Assembly => {
            let status = assemble(rt, alloc, &mut out, &mut err);
            made_of(status, &out, &err, &PROGRAM)
        }
    }
}

/// If memory is refused, to the plan or to the writer, the same again succeeds. Which call for memory is refused is set from outside.
pub fn done_and_memory_refused_once<R: Threads + Wait + Sync>(
    rt: &R,
    alloc: Global,
    task: Task,
) -> bool {
    match done(rt, alloc, task) {
        Came::Done => true,
        Came::Refused => done(rt, alloc, task) == Came::Done,
        Came::Otherwise => false,
    }
}
