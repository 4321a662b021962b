// The tests of the whole program, as data: it reads the cases of the files that its words name, and carries each out as `camr` would. Those
// of runs are carried out once more over their manifest as `camr migrate` makes it, and as `camr live` is asked. The smallest text of each
// code comes last. It prints each case that comes out otherwise, and how many passed. It relies on `test_cases` for cases, on `explain_codes` for
// codes, and on `cli_line` and `cli_commands`, which are all of `camr` but its files. How a case is written stands in data/README.
#![tactic(auto)]

mod explained;
mod living;
mod migrating;
mod pieces;
mod report;
mod running;
mod tally;

use anyhow::{Context, Result};
use std::alloc::Global;
use std::io::{BufWriter, Write};
use std::process::ExitCode;
use std::rt::{Env, Files};
use std::sync::Wait;
use std::thread::Threads;
use std::{env, fs, io};
use tally::Tally;
use test_cases::Case;

fn main(rt: HostRuntime) -> Result<ExitCode> {
    let mut out = BufWriter::new(rt.alloc(), io::writer(&rt))?;
    let tested = test_all(&rt, &mut out);
    out.flush()?;
    let tally = tested?;
    println!(rt; "{} cases passed, {} differ", tally.passed, tally.differ)?;
    Ok(if tally.is_good() {
        ExitCode::SUCCESS
    } else {
        ExitCode::FAILURE
    })
}

// The cases of all files that the words name.
fn test_all<R: Env + Files + AllocGlobal + Threads + Wait + Sync, W: Write>(
    rt: &R,
    out: &mut W,
) -> Result<Tally> {
    let paths: Vec<String> = env::args(rt)?.skip(1).collect(rt.alloc())?;
    let mut tally = Tally::default();
    for path in &paths {
        let path = path.as_str();
        let text = fs::read_to_string(rt, path).context(path)?;
        test_file(rt, path, text.as_str(), &mut tally, out).context(path)?;
    }
    explained::test_all(rt, &mut tally, out)?;
    Ok(tally)
}

fn test_file<R: AllocGlobal + Threads + Wait + Sync, W: Write>(
    rt: &R,
    path: &str,
    text: &str,
    tally: &mut Tally,
    out: &mut W,
) -> Result<()> {
    for case in &test_cases::read(rt.alloc(), text)? {
        test(rt, path, case, tally, out)?;
        for migrated in &migrating::migrated(rt, rt.alloc(), case)? {
            test(rt, path, migrated, tally, out)?;
        }
        if let Some(live) = living::live(rt, rt.alloc(), case)? {
            test(rt, path, &live, tally, out)?;
        }
    }
    Ok(())
}

fn test<R: AllocGlobal + Threads + Wait + Sync, W: Write>(
    rt: &R,
    path: &str,
    case: &Case<'_>,
    tally: &mut Tally,
    out: &mut W,
) -> Result<()> {
    let came = running::run(rt, rt.alloc(), case)?;
    let passes = came.is_same(&case.wanted);
    if !passes {
        report::print(path, case, &came, out)?;
    }
    tally.count(passes);
    Ok(())
}
