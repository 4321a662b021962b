// The smallest text of each code, carried out as `camr` would: it has to give its code, and mended it has to be accepted. It relies on
// `explain_codes` for the texts, and on `running`.

use crate::running;
use crate::tally::Tally;
use anyhow::Result;
use explain_codes::{Code, POLICY, POLICY_BYTES, SERIES, Shown};
use std::alloc::{AllocError, Global};
use std::io::Write;
use std::sync::Wait;
use std::thread::Threads;
use test_cases::{Case, File, Outcome};

/// The beginning of a manifest, up to its program.
const BEGINNING: &str = "\
version = 2
controllers = 1
[[queue]]
openings = 1
controller = 0
program = \"p1\"
";

/// Tests what `camr explain` says of each code, and its two texts where files show them.
pub fn test_all<R: AllocGlobal + Threads + Wait + Sync, W: Write>(
    rt: &R,
    tally: &mut Tally,
    out: &mut W,
) -> Result<()> {
    for series in SERIES {
        for number in 1..series.end {
            let name = format!(in rt.alloc(); "{}{number}", char::from(series.letter))?;
            match Code::of(name.as_str()) {
                Some(code) => test_code(rt, code, name.as_str(), tally, out)?,
                None => {
                    writeln!(out, "{name}: it is no code")?;
                    tally.count(false);
                }
            }
        }
    }
    Ok(())
}

// Tests what is said of a code, and its two texts.
fn test_code<R: AllocGlobal + Threads + Wait + Sync, W: Write>(
    rt: &R,
    code: Code,
    name: &str,
    tally: &mut Tally,
    out: &mut W,
) -> Result<()> {
    let row = code.explanation();
    let told = told_of(rt, rt.alloc(), name)?;
    let is_told = told.status == 0 && tells(&told, name, ":");
    see(code, "what is said", &told, is_told, tally, out)?;
    if row.shown == Shown::Call || row.shown == Shown::Command {
        return Ok(());
    }
    let came = shown(rt, rt.alloc(), row.shown, row.example)?;
    see(code, "its text", &came, tells(&came, name, ""), tally, out)?;
    let mended = shown(rt, rt.alloc(), row.shown, row.mended)?;
    let is_good = mended.status == 0 && !tells(&mended, name, "");
    see(code, "its text mended", &mended, is_good, tally, out)
}

// Counts a case, and prints what came where it does not pass.
fn see<W: Write>(
    code: Code,
    what: &str,
    came: &Outcome,
    passes: bool,
    tally: &mut Tally,
    out: &mut W,
) -> Result<()> {
    if !passes {
        writeln!(
            out,
            "{code}: {what}: status {}, and on both outputs:",
            came.status
        )?;
        out.write_all(&came.out)?;
        out.write_all(&came.err)?;
    }
    tally.count(passes);
    Ok(())
}

// Whether a word of what went out is that name, with that after it.
fn tells(came: &Outcome, name: &str, behind: &str) -> bool {
    [&came.out, &came.err].iter().any(|bytes| {
        bytes.split(|byte| *byte == b' ' || *byte == b'\n').any(|word| word.strip_suffix(
            behind.as_bytes(),
        ) == Some(name.as_bytes()))
    })
}

fn told_of<R: Threads + Wait + Sync>(
    rt: &R,
    alloc: Global,
    name: &str,
) -> Result<Outcome, AllocError> {
    carried_out(rt, alloc, &["explain", name], Vec::new(alloc))
}

// What comes where a text is carried out by the command that shows it.
fn shown<R: Threads + Wait + Sync>(
    rt: &R,
    alloc: Global,
    shown: Shown,
    text: &str,
) -> Result<Outcome, AllocError> {
    let text = expanded(alloc, text)?;
    let mut files = Vec::new(alloc);
    files.push(File {
        name: "m.toml",
        bytes: manifest_of(alloc, shown, text.as_str())?.into_bytes(),
    })?;
    files.push(File {
        name: "t.txt",
        bytes: text.into_bytes(),
    })?;
    match shown {
        Shown::Migration => carried_out(rt, alloc, &["migrate", "m.toml", "n.toml"], files),
        Shown::Scenario => carried_out(rt, alloc, &["run", "m.toml", "t.txt"], files),
        Shown::Trace => carried_out(rt, alloc, &["replay", "m.toml", "t.txt"], files),
        Shown::Devices => carried_out(rt, alloc, &["try", "m.toml", "t.txt"], files),
        _ => carried_out(rt, alloc, &["check", "m.toml"], files),
    }
}

// The manifest of a text, or that over which a scenario or a trace is carried out, or whose policies are tried on devices.
fn manifest_of(alloc: Global, shown: Shown, text: &str) -> Result<String, AllocError> {
    match shown {
        Shown::Manifest | Shown::Migration => with_program(alloc, text, "asm", POLICY, ""),
        Shown::Program => with_program(alloc, BEGINNING, "asm", text, ""),
        Shown::Head => with_program(alloc, BEGINNING, "asm", text, POLICY),
        Shown::Code => with_program(alloc, BEGINNING, "code", text, ""),
        Shown::CodeHead => with_program(alloc, BEGINNING, "code", text, POLICY_BYTES),
        Shown::Scenario | Shown::Trace | Shown::Devices | Shown::Command | Shown::Call => {
            with_program(alloc, BEGINNING, "asm", POLICY, "")
        }
    }
}

fn with_program(
    alloc: Global,
    beginning: &str,
    key: &str,
    first: &str,
    second: &str,
) -> Result<String, AllocError> {
    format!(in alloc;
        "{beginning}[[program]]\nname = \"p1\"\n{key} = \"\"\"\n{first}{second}\n\"\"\"\n"
    )
}

// The lines of a text, each with a line feed, and those with `# N times` after them so often.
fn expanded(alloc: Global, text: &str) -> Result<String, AllocError> {
    let mut lines = String::new(alloc);
    for line in text.split('\n') {
        let (line, times) = match line.split_once("   # ") {
            Some((line, note)) => (line, number_in(note)),
            None => (line, 1),
        };
        for _ in 0..times {
            lines.push_str(line)?;
            lines.push('\n')?;
        }
    }
    Ok(lines)
}

// N of `N times`.
fn number_in(note: &str) -> u32 {
    match note.split_once(' ') {
        Some((number, _)) => number.parse().unwrap_or(0),
        None => 0,
    }
}

fn carried_out<R: Threads + Wait + Sync>(
    rt: &R,
    alloc: Global,
    line: &[&str],
    files: Vec<File<'_>>,
) -> Result<Outcome, AllocError> {
    let mut words = Vec::new(alloc);
    for word in line {
        words.push(word.as_bytes().to_vec(alloc)?)?;
    }
    let wanted = Outcome {
        out: Vec::new(alloc),
        err: Vec::new(alloc),
        status: 0,
    };
    let case = Case {
        name: "explained",
        line: 0,
        words,
        files,
        input: Vec::new(alloc),
        wanted,
    };
    running::run(rt, alloc, &case)
}
