// Why a plan was not carried out, as a line for the user and as a status. It relies on the faults of the parts, and on `cli_text_page` for
// how a path is shown.

ghost use Rattle.std.specs.Prelude.{◌≡◌, ◌≤◌, ◌⊎◌};
ghost use Rattle.std.specs.Io.KnownBytes.{Appends};
ghost use Rattle.cli_commands.specs.FaultText.{report_of};
ghost use Rattle.cli_commands.specs.Faults.{fault_of_manifest, fault_of_program, fault_of_replay, fault_of_run, fault_of_scenario, fault_of_text, fault_of_trace, status_of};

use base::OrMemory;
use bpf_asm::{AsmError, AsmFault};
use bpf_decode::{DecodeError, DecodeFault};
use cli_text_page::ForeignText;
use host_scenario::RunFault;
use manifest::{ManifestError, ManifestFault};
use replay::{ReplayError, ReplayFault};
use scenario::{FaultyLine, ScenarioError};
use std::error::Error;
use std::fmt;
use std::io::Write;
use trace::{TraceError, TraceFault};

/// Why a plan was not carried out.
#[derive(Debug, Drop)]
pub enum Fault<'a> {
    OutOfMemory,
    /// The file of that path cannot be read or written, or is to be text and is not UTF-8.
    File(&'a str),
    /// The text says no program.
    Text(AsmFault),
    /// The bytes are no program.
    Program(DecodeFault),
    Manifest(ManifestFault),
    /// That line of the scenario is not of the form.
    Line(usize),
    /// That line of the scenario gives back a freeze whose token is not held.
    NotHeld(usize),
    /// The text is no trace.
    Trace(TraceFault),
    /// The trace is no history of an engine of the manifest.
    Replay(ReplayFault),
    /// A scenario was not carried out to its end, which cannot be.
    InternalError,
}

impl fmt::Display for Fault<'_> {
    ghost use Rattle.std.specs.Prelude.{Some};
    ghost use Rattle.cli_commands.specs.FaultText.{fault_text};

    ghost output = { λ fault. Some (fault_text fault) };

    fn fmt<W: fmt::Write>(&self, f: &mut fmt::Formatter<W>) -> fmt::Result {
        match self {
            Fault::OutOfMemory => f.write_str("out of memory"),
            Fault::File(path) => write!(f, "file {}", ForeignText(path)),
            Fault::Text(fault) => fault.fmt(f),
            Fault::Program(fault) => fault.fmt(f),
            Fault::Manifest(fault) => fault.fmt(f),
            Fault::Line(number) => write!(f, "N1 at {number}"),
            Fault::NotHeld(number) => write!(f, "N2 at {number}"),
            Fault::Trace(fault) => fault.fmt(f),
            Fault::Replay(fault) => fault.fmt(f),
            Fault::InternalError => f.write_str("unsettled"),
        }
    }
}

impl Error for Fault<'_> {}

impl Fault<'_> {
    /// The status: 1 for what is refused, and 2 for files, for memory and for what cannot be.
    pub fn status(&self) -> u8
        ensures { result ≡ status_of self.now }
    {
        match self {
            Fault::OutOfMemory | Fault::File(_) | Fault::InternalError => 2,
            Fault::Text(_)
            | Fault::Program(_)
            | Fault::Manifest(_)
            | Fault::Line(_)
            | Fault::NotHeld(_)
            | Fault::Trace(_)
            | Fault::Replay(_) => 1,
        }
    }

    /// Writes the fault's one line and answers the status: 1 or 2, and 2 also where the line cannot be written.
    pub fn report<E: Write>(&self, err: &mut E) -> u8
        ensures reported { (result ≡ status_of self.now) ⊎ (result ≡ 2) }
        ensures status { (1 ≤ result) × (result ≤ 2) }
        ensures refused { result ≡ 1 → status_of self.now ≡ 1 }
        ensures told { result ≡ 1 → Appends (E.contents err.old) (E.contents err.new) (report_of self.now) }
    {
        match writeln!(err, "camr: {self}") {
            Ok(()) => self.status(),
            Err(_) => 2,
        }
    }
}

impl<'a> From<AsmError> for Fault<'a> {
    ghost from_gives = { λ error fault. fault ≡ fault_of_text error };

    fn from(error: AsmError) -> Self {
        match error {
            OrMemory::OutOfMemory => Fault::OutOfMemory,
            OrMemory::Fault(fault) => Fault::Text(fault),
        }
    }
}

impl<'a> From<DecodeError> for Fault<'a> {
    ghost from_gives = { λ error fault. fault ≡ fault_of_program error };

    fn from(error: DecodeError) -> Self {
        match error {
            OrMemory::OutOfMemory => Fault::OutOfMemory,
            OrMemory::Fault(fault) => Fault::Program(fault),
        }
    }
}

impl<'a> From<ManifestError> for Fault<'a> {
    ghost from_gives = { λ error fault. fault ≡ fault_of_manifest error };

    fn from(error: ManifestError) -> Self {
        match error {
            OrMemory::OutOfMemory => Fault::OutOfMemory,
            OrMemory::Fault(fault) => Fault::Manifest(fault),
        }
    }
}

impl<'a> From<ScenarioError> for Fault<'a> {
    ghost from_gives = { λ error fault. fault ≡ fault_of_scenario error };

    fn from(error: ScenarioError) -> Self {
        match error {
            OrMemory::OutOfMemory => Fault::OutOfMemory,
            OrMemory::Fault(FaultyLine(line)) => Fault::Line(line),
        }
    }
}

impl<'a> From<RunFault> for Fault<'a> {
    ghost from_gives = { λ error fault. fault ≡ fault_of_run error };

    fn from(fault: RunFault) -> Self {
        match fault {
            RunFault::OutOfMemory => Fault::OutOfMemory,
            RunFault::NotHeld(line) => Fault::NotHeld(line),
            RunFault::InternalError => Fault::InternalError,
        }
    }
}

impl<'a> From<TraceError> for Fault<'a> {
    ghost from_gives = { λ error fault. fault ≡ fault_of_trace error };

    fn from(error: TraceError) -> Self {
        match error {
            OrMemory::OutOfMemory => Fault::OutOfMemory,
            OrMemory::Fault(fault) => Fault::Trace(fault),
        }
    }
}

impl<'a> From<ReplayError> for Fault<'a> {
    ghost from_gives = { λ error fault. fault ≡ fault_of_replay error };

    fn from(error: ReplayError) -> Self {
        match error {
            OrMemory::OutOfMemory => Fault::OutOfMemory,
            OrMemory::Fault(fault) => Fault::Replay(fault),
        }
    }
}
