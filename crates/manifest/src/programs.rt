// The programs of a manifest: all decoded or assembled first, and then verified. It relies on `bpf_decode`, `bpf_asm` and
// `verifier`.

ghost use Rattle.std.specs.Prelude.{◌≡◌, ◌⊎◌, [], ◌∷◌, ◌++◌, map, IfOk, IfErr, OnOk};
ghost use Rattle.std.specs.List.{AllZip};
ghost use Rattle.bpf_decode.specs.Spells.{Spells};
ghost use Rattle.bpf_asm.specs.Assembly.{Says};
ghost use Rattle.manifest_form.specs.Entries.{code, asm};
ghost use Rattle.manifest.specs.Meaning.{IsAccepted, IsUnread, IsUnaccepted};
ghost use Rattle.manifest_form.specs.Seen.{program_seen, IfFault};
ghost use Rattle.manifest.specs.Seen.{read_seen, named_seen, IsReadLine, IsAcceptedLine, IsUnreadLine, IsUnacceptedLine, IsUnacceptedAmong};

use crate::{ManifestError, ManifestFault};
use base::OrMemory;
use bpf_accepted::Accepted;
use bpf_asm::assemble;
use bpf_decode::decode;
use bpf_insn::Program;
use helpers::HelperLimits;
use manifest_form::{ProgramEntry, Source};
use std::alloc::{AllocError, Global};
use std::sync::Arc;
use verifier::verify;

/// A program that was accepted, with its name.
#[derive(Drop)]
pub struct NamedProgram {
    pub name: String,
    pub accepted: Arc<Accepted>,
}

// A program that was decoded or assembled, with its name.
#[derive(Drop)]
struct ReadProgram<'a> {
    name: &'a str,
    program: Program,
}

/// The programs of a manifest, each accepted under these limits. All are decoded or assembled before the first is verified.
pub fn read(
    alloc: Global,
    entries: &[ProgramEntry<'_>],
    limits: &HelperLimits,
) -> Result<Vec<NamedProgram>, ManifestError>
    ensures accepted { IfOk result (λ programs. AllZip (IsAccepted limits.now) (map program_seen entries.now) (map named_seen programs.items)) }
    ensures fault { IfErr result (IfFault (λ fault. IsUnread (map program_seen entries.now) fault ⊎ IsUnaccepted limits.now (map program_seen entries.now) fault)) }
{
    let programs = read_all(alloc, entries)?;
    accept_all(alloc, &programs, limits)
}

fn read_all<'a>(
    alloc: Global,
    entries: &'a [ProgramEntry<'_>],
) -> Result<Vec<ReadProgram<'a>>, ManifestError>
    ensures read { IfOk result (λ programs. AllZip IsReadLine (map program_seen entries.now) (map read_seen programs.items)) }
    ensures fault { IfErr result (IfFault (IsUnread (map program_seen entries.now))) }
{
    let mut programs = Vec::new(alloc);
    for entry in entries {
        keep(&mut programs, read_program(alloc, entry)?)?;
    }
    Ok(programs)
}

fn read_program<'a>(
    alloc: Global,
    entry: &'a ProgramEntry<'_>,
) -> Result<ReadProgram<'a>, ManifestError>
    ensures read { IfOk result (λ read. IsReadLine (program_seen entry.now) (read_seen read)) }
    ensures fault { IfErr result (IfFault (IsUnreadLine (program_seen entry.now))) }
{
    let name = entry.name;
    let program = match &entry.source {
        Source::Code(bytes) => decoded(alloc, name, bytes)?,
        Source::Asm(text) => assembled(alloc, name, text)?,
    };
    Ok(ReadProgram { name, program })
}

fn assembled(alloc: Global, name: &str, text: &str) -> Result<Program, ManifestError>
    ensures says { IfOk result (Says text.now) }
    ensures fault { IfErr result (IfFault (IsUnreadLine (record { name = name.now; source = asm text.now }))) }
{
    match assemble(alloc, text) {
        Ok(program) => Ok(program),
        Err(OrMemory::OutOfMemory) => Err(OrMemory::OutOfMemory),
        Err(OrMemory::Fault(fault)) => {
            let name = String::from_str(alloc, name)?;
            Err(OrMemory::Fault(ManifestFault::Unassembled(name, fault)))
        }
    }
}

fn decoded(alloc: Global, name: &str, bytes: &[u8]) -> Result<Program, ManifestError>
    ensures spells { IfOk result (Spells bytes.now) }
    ensures fault { IfErr result (IfFault (IsUnreadLine (record { name = name.now; source = code bytes.now }))) }
{
    match decode(alloc, bytes) {
        Ok(program) => Ok(program),
        Err(OrMemory::OutOfMemory) => Err(OrMemory::OutOfMemory),
        Err(OrMemory::Fault(fault)) => {
            let name = String::from_str(alloc, name)?;
            Err(OrMemory::Fault(ManifestFault::Undecoded(name, fault)))
        }
    }
}

fn accept_all(
    alloc: Global,
    programs: &[ReadProgram<'_>],
    limits: &HelperLimits,
) -> Result<Vec<NamedProgram>, ManifestError>
    ensures accepted { IfOk result (λ accepted. AllZip (IsAcceptedLine limits.now) (map read_seen programs.now) (map named_seen accepted.items)) }
    ensures fault { IfErr result (IfFault (IsUnacceptedAmong limits.now (map read_seen programs.now))) }
{
    let mut accepted = Vec::new(alloc);
    for program in programs {
        keep(&mut accepted, accept(alloc, program, limits)?)?;
    }
    Ok(accepted)
}

fn accept(
    alloc: Global,
    read: &ReadProgram<'_>,
    limits: &HelperLimits,
) -> Result<NamedProgram, ManifestError>
    ensures accepted { IfOk result (λ named. IsAcceptedLine limits.now (read_seen read.now) (named_seen named)) }
    ensures fault { IfErr result (IfFault (IsUnacceptedLine (read_seen read.now))) }
{
    let name = String::from_str(alloc, read.name)?;
    match verify(alloc, &read.program, limits) {
        Ok(accepted) => Ok(NamedProgram {
            name,
            accepted: Arc::new(alloc, accepted).map_err(AllocError::from)?,
        }),
        Err(OrMemory::OutOfMemory) => Err(OrMemory::OutOfMemory),
        Err(OrMemory::Fault(refusal)) => {
            Err(OrMemory::Fault(ManifestFault::Unaccepted(name, refusal)))
        }
    }
}

// One more at the end.
fn keep<T: Drop>(list: &mut Vec<T>, item: T) -> Result<(), AllocError>
    ensures { OnOk result (list.new.items ≡ list.old.items ++ item ∷ []) }
{
    Ok(list.push(item)?)
}
