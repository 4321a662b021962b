// Files that are read whole, up to a bound. It relies on nothing.

ghost use Rattle.std.specs.Prelude.{◌≡◌, ◌≤◌, ℕ, ◌^◌, ◌<◌, List, Some, IfOk, IsErr, length};

use std::alloc::Global;
use std::fs::{File, OpenFile};
use std::io;
use std::io::{ErrorKind, Read};
use std::rt::Files;

/// How many bytes a file may have: a program's bytes, its text, a manifest, a scenario, a trace.
pub const MOST_PROGRAM: u64 = 1_000_000;

pub const MOST_TEXT: u64 = 16_000_000;

pub const MOST_MANIFEST: u64 = 64_000_000;

pub const MOST_SCENARIO: u64 = 2_000_000_000;

pub const MOST_TRACE: u64 = 4_000_000_000;

/// The bytes of a file. It fails with `FileTooLarge` where there are more than so many, of which no more than one is read.
pub fn read_file<R: Files + AllocGlobal>(rt: &R, path: &str, most: u64) -> io::Result<Vec<u8>>
    requires { most < 2 ^ 63 }
    ensures { IfOk result (λ bytes. length bytes.items ≤ most) }
{
    let file = File::open(rt, path)?;
    if file.metadata()?.len() > most {
        return Err(io::Error::from(ErrorKind::FileTooLarge));
    }
    read_all(rt.alloc(), file, most)
}

/// The bytes that a reader has, to its end. It fails with `FileTooLarge` if there are more than so many, of which no more than one is read.
pub fn read_all<I: Read + Drop>(alloc: Global, reader: I, most: u64) -> io::Result<Vec<u8>>
    requires { most < 2 ^ 63 }
    ensures few { IfOk result (λ bytes. length bytes.items ≤ most) }
    ensures all { (bytes : List ℕ) → I.remaining reader ≡ Some bytes → IfOk result (λ read. read.items ≡ bytes) }
{
    let mut bytes = Vec::new(alloc);
    reader.take(most + 1).read_to_end(&mut bytes)?;
    if bytes.len() as u64 > most {
        return Err(io::Error::from(ErrorKind::FileTooLarge));
    }
    Ok(bytes)
}
