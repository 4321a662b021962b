// What is wrong with a manifest.

use base::OrMemory;
use bpf_asm::AsmFault;
use bpf_decode::DecodeFault;
use std::error::Error;
use std::fmt;
use verifier::Refusal;

/// What is wrong with a manifest. If there are several faults the lowest is reported, and of M7 and M8 that of the first program with one.
/// The text is the fault's code, and of M7 and M8 the program's name and its fault.
#[derive(Debug, Drop)]
pub enum ManifestFault {
    /// M1: the text is no TOML.
    Text,
    /// M2: a key is unknown, or one is missing.
    Key,
    /// M3: a value is of another type or form.
    Form,
    /// M4: `version` is none of 1, 2 and 3; `controllers` is not 1 to 8, or a `controller` is not below it; `openings` is not 1 to 255;
    /// `length` is not 1 to 4096, a table has more first words than that, or one of them is negative.
    Range,
    /// M5: there is no queue or no program, or there are more than 64 of them or 16 tables.
    Number,
    /// M6: a name is not of the form, is repeated, or is of no program.
    Name,
    /// M7: the program of that name is not decoded.
    Undecoded(String, DecodeFault),
    /// M7: the text of the program of that name says none.
    Unassembled(String, AsmFault),
    /// M8: the program of that name is not accepted.
    Unaccepted(String, Refusal),
    /// M9: the manifest is to be migrated, and its version is not lower than that to which it is.
    Migrated,
}

/// Why a manifest was not read: memory was refused, or what it says is faulty.
pub type ManifestError = OrMemory<ManifestFault>;

impl fmt::Display for ManifestFault {
    ghost use Rattle.std.specs.Prelude.{Some};
    ghost use Rattle.manifest.specs.FaultText.{fault_text};

    ghost output = { λ fault. Some (fault_text fault) };

    fn fmt<W: fmt::Write>(&self, f: &mut fmt::Formatter<W>) -> fmt::Result {
        match self {
            ManifestFault::Text => f.write_str("M1"),
            ManifestFault::Key => f.write_str("M2"),
            ManifestFault::Form => f.write_str("M3"),
            ManifestFault::Range => f.write_str("M4"),
            ManifestFault::Number => f.write_str("M5"),
            ManifestFault::Name => f.write_str("M6"),
            ManifestFault::Undecoded(name, fault) => write!(f, "M7 {name} {fault}"),
            ManifestFault::Unassembled(name, fault) => write!(f, "M7 {name} {fault}"),
            ManifestFault::Unaccepted(name, refusal) => write!(f, "M8 {name} {refusal}"),
            ManifestFault::Migrated => f.write_str("M9"),
        }
    }
}

impl Error for ManifestFault {}
