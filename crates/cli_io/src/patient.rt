// A stream that others may have set not to wait. It relies on nothing.

use std::io;
use std::io::{ErrorKind, Read, Write};
use std::rt::Clock;
use std::thread::sleep;
use std::time::Duration;

/// For how many milliseconds it is waited before the next try: at first, and at most.
const SHORTEST: u64 = 1;

const LONGEST: u64 = 32;

/// A stream that waits, whether or not it was set to: where it has nothing to give, or takes nothing, it is tried again after a while.
#[derive(Drop)]
pub struct Patient<'a, C: Clock, S: Drop> {
    clock: &'a C,
    stream: S,
}

impl<'a, C: Clock, S: Drop> Patient<'a, C, S> {
    /// The stream, and the clock that it waits by.
    pub fn new(clock: &'a C, stream: S) -> Self {
        Patient { clock, stream }
    }
}

impl<C: Clock, S: Read + Drop> Read for Patient<'_, C, S> {
    ghost remaining = { λ patient. S.remaining patient.stream };

    fn read(&mut self, buf: &mut [u8]) -> io::Result<usize> {
        let mut pause = SHORTEST;
        for _ in 0..u64::MAX {
            match self.stream.read(buf) {
                Ok(count) => return Ok(count),
                Err(error) => {
                    if error.kind() != ErrorKind::WouldBlock {
                        return Err(error);
                    }
                }
            }
            pause = rest(self.clock, pause);
        }
        Err(io::Error::from(ErrorKind::WouldBlock))
    }
}

impl<C: Clock, S: Write + Drop> Write for Patient<'_, C, S> {
    ghost contents = { λ patient. S.contents patient.stream };

    fn write(&mut self, buf: &[u8]) -> io::Result<usize> {
        let mut pause = SHORTEST;
        for _ in 0..u64::MAX {
            match self.stream.write(buf) {
                Ok(count) => return Ok(count),
                Err(error) => {
                    if error.kind() != ErrorKind::WouldBlock {
                        return Err(error);
                    }
                }
            }
            pause = rest(self.clock, pause);
        }
        Err(io::Error::from(ErrorKind::WouldBlock))
    }

    fn flush(&mut self) -> io::Result<()> {
        self.stream.flush()
    }
}

// Waits for so many milliseconds, and tells for how many it is to be waited the next time.
fn rest<C: Clock>(clock: &C, pause: u64) -> u64 {
    sleep(clock, Duration::from_millis(pause));
    pause.saturating_mul(2).min(LONGEST)
}
