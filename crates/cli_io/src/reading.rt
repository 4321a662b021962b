// Standard input as a live engine reads it. It relies on `host_live` for
// what an input is.

ghost use Rattle.std.specs.Prelude.{◌≤◌, IfOk, None, length};

use host_live::{Came, Input};
use std::alloc::{AllocError, Global};
use std::io;
use std::io::{ErrorKind, Read};

/// How many bytes are read at a time.
pub(crate) const PIECE: usize = 16384;

/// A reader without a clock.
#[derive(Drop)]
pub struct Reading<R: Read + Drop> {
    reader: R,
    bytes: Vec<u8>,
    len: usize,
    has_failed: bool,
    has_ended: bool,
}

impl<R: Read + Drop> Reading<R> {
    /// The reader, of which nothing was read yet.
    pub fn of(alloc: Global, reader: R) -> Result<Self, AllocError> {
        Ok(Reading {
            reader,
            bytes: vec![in alloc; 0; PIECE]?,
            len: 0,
            has_failed: false,
            has_ended: false,
        })
    }
}

impl<R: Read + Drop> Input for Reading<R> {
    ghost has_failed = { λ reading. reading.has_failed };

    ghost has_ended = { λ reading. reading.has_ended };

    ghost came = { λ _. None };

    fn wait(&mut self, _until: Option<u64>) -> Came {
        match read_some(&mut self.reader, self.bytes.as_mut_slice()) {
            Ok(0) => {
                self.has_ended = true;
                Came::End
            }
            Ok(len) => {
                self.len = len;
                Came::Bytes
            }
            Err(_) => {
                self.has_failed = true;
                Came::Failed
            }
        }
    }

    fn bytes(&self) -> &[u8] {
        self.bytes.get(..self.len).unwrap_or(&[])
    }

    fn now(&self) -> Option<u64> {
        None
    }
}

/// Reads some bytes, and tells how many; none at the end. A read that is interrupted is tried again.
pub(crate) fn read_some<R: Read>(reader: &mut R, bytes: &mut [u8]) -> io::Result<usize>
    ensures { IfOk result (λ len. len ≤ length bytes.new) }
{
    for _ in 0..u64::MAX {
        match reader.read(bytes) {
            Ok(len) => return Ok(len),
            Err(error) => {
                if error.kind() != ErrorKind::Interrupted {
                    return Err(error);
                }
            }
        }
    }
    Ok(0)
}
