// The program that explains manifests and codes, shows traces, and says what policies decide: it reads the words after its name and the
// files that they name, and carries them out. It relies on `cli_inspect_line` for the words, on `cli_inspection` for what is carried out,
// and on `cli_io` for the machine.
#![tactic(auto)]

ghost use Rattle.std.specs.Prelude.{◌≡◌, ◌<◌, ◌^◌, length, IfOk};
ghost use Rattle.cli_inspect_line.specs.Files.{input_paths};

use cli_commands::{Fault, report_usage};
use cli_inspect_line::{Plan, plan};
use cli_inspection::{carry, report_unread};
use cli_io::{
    Disk, MOST_MANIFEST, MOST_TRACE, Patient, Telling, read_all, read_file, replace, words,
};
use cli_line::{is_stream, not_utf8};
use std::fs::File;
use std::io;
use std::io::{BufWriter, IsTerminal, Stderr, Write};
use std::process::ExitCode;
use std::random::RandomSource;
use std::rt::{Files, Runtime};
use std::sync::Wait;
use std::thread::Threads;
use world_calls::Notices;

fn main(rt: HostRuntime) -> ExitCode {
    let told = rt.stderr();
    let mut err = Patient::new(&rt, told);
    let out = BufWriter::new(rt.alloc(), Patient::new(&rt, io::writer(&rt)));
    ExitCode::from(match out {
        Ok(mut out) => {
            let status = status(&rt, told, &mut out, &mut err);
            if out.flush().is_ok() { status } else { 2 }
        }
        Err(_) => Fault::OutOfMemory.report(&mut err),
    })
}

// Does what the words say, and answers the status to end with.
fn status<
    R: Runtime + Files<File = File> + RandomSource + AllocGlobal + Threads + Wait + Sync,
    W: Write,
    E: Write,
>(rt: &R, told: Stderr, out: &mut W, err: &mut E) -> u8 {
    let words = match words(rt) {
        Ok(words) => words,
        Err(error) if error.kind() == io::ErrorKind::OutOfMemory => {
            return Fault::OutOfMemory.report(err);
        }
        // of words nothing else is reported but that one is not UTF-8
        Err(_) => return report_usage(&not_utf8(rt.alloc()), out, err),
    };
    match plan(rt.alloc(), words.as_slice()) {
        Ok(plan) => match read_inputs(rt, &plan) {
            Ok(inputs) => {
                let is_on = tells(&plan, &told);
                carry_out(rt, &plan, &inputs, &Telling::new(rt, told, is_on), out, err)
            }
            Err(fault) => report_unread(rt.alloc(), &plan, &fault, err),
        },
        Err(fault) => report_usage(&fault, out, err),
    }
}

// Whether somebody is told how far the work is: of what replays a trace or runs a scenario, if standard error is a terminal.
fn tells(plan: &Plan, err: &Stderr) -> bool {
    match plan {
        Plan::ExplainFile(..) | Plan::Show(..) | Plan::Summarise(..) | Plan::Draw(..) => {
            err.is_terminal()
        }
        Plan::ExplainCode(_) | Plan::Explain(_) | Plan::Decide(..) | Plan::Try(..) => false,
    }
}

// Carries the plan out. What goes out goes into the plan's file, if it has one that is not standard output, where all went well.
fn carry_out<
    R: Runtime + Files<File = File> + RandomSource + AllocGlobal + Threads + Wait + Sync,
    N: Notices + Sync,
    W: Write,
    E: Write,
>(rt: &R, plan: &Plan, inputs: &[Vec<u8>], notices: &N, out: &mut W, err: &mut E) -> u8
    requires { length inputs.now ≡ length (input_paths plan.now) }
{
    let path = match plan.output() {
        Some(path) if !is_stream(path) => path,
        _ => return carry_keeping(rt, plan, inputs, notices, out, err),
    };
    let mut bytes = Vec::new(rt.alloc());
    let status = carry_keeping(rt, plan, inputs, notices, &mut bytes, err);
    if status != 0 {
        return status;
    }
    write_file(rt, path, &bytes, status, err)
}

// Carries the plan out, and puts what it keeps beside what goes out into its file, if it keeps anything.
fn carry_keeping<
    R: Runtime + Files<File = File> + RandomSource + AllocGlobal + Threads + Wait + Sync,
    N: Notices + Sync,
    W: Write,
    E: Write,
>(rt: &R, plan: &Plan, inputs: &[Vec<u8>], notices: &N, out: &mut W, err: &mut E) -> u8
    requires { length inputs.now ≡ length (input_paths plan.now) }
{
    let mut kept = Vec::new(rt.alloc());
    let status = carry(rt, rt.alloc(), plan, inputs, notices, out, &mut kept, err);
    match plan.kept() {
        Some(path) if status != 2 && !kept.is_empty() => write_file(rt, path, &kept, status, err),
        _ => status,
    }
}

// Puts these bytes into that file, and answers this status, or why the file cannot be written.
fn write_file<R: Runtime + Files<File = File> + RandomSource + AllocGlobal + Wait, E: Write>(
    rt: &R,
    path: &str,
    bytes: &[u8],
    status: u8,
    err: &mut E,
) -> u8 {
    match replace(rt.alloc(), &mut Disk::new(rt), path, bytes) {
        Ok(()) => status,
        Err(error) => unread(&error, path).report(err),
    }
}

// The bytes of the plan's files, in the order of the line.
fn read_inputs<'a, R: Runtime + Files + AllocGlobal + Wait>(
    rt: &R,
    plan: &'a Plan,
) -> Result<Vec<Vec<u8>>, Fault<'a>>
    ensures { IfOk result (λ inputs. length inputs.items ≡ length (input_paths plan.entry.now)) }
{
    let mut inputs = Vec::new(rt.alloc());
    for place in 0..plan.input_count() {
        let path = plan.input(place);
        // the manifest comes first, and then the scenario or the trace
        let most = if place == 0 {
            MOST_MANIFEST
        } else {
            MOST_TRACE
        };
        match read_input(rt, path, most) {
            Ok(input) => inputs.push(input).map_err(|_| Fault::OutOfMemory)?,
            Err(error) => return Err(unread(&error, path)),
        }
    }
    Ok(inputs)
}

// The bytes of that file, or of standard input.
fn read_input<R: Runtime + Files + AllocGlobal + Wait>(
    rt: &R,
    path: &str,
    most: u64,
) -> io::Result<Vec<u8>>
    requires { most < 2 ^ 63 }
{
    if is_stream(path) {
        read_all(rt.alloc(), Patient::new(rt, rt.reader()), most)
    } else {
        read_file(rt, path, most)
    }
}

// Why that file could not be read or written.
fn unread<'a>(error: &io::Error, path: &'a str) -> Fault<'a> {
    if error.kind() == io::ErrorKind::OutOfMemory {
        Fault::OutOfMemory
    } else {
        Fault::File(path)
    }
}
