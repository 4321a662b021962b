// Standard input as a case has it. It relies on `host_live` for what an input is.

ghost use Rattle.std.specs.Prelude.{None, false};

use host_live::{Came, Input};

/// How many bytes come at a time where there is no clock.
const SIZE: usize = 7;

/// How long a line takes where there is a clock, in milliseconds of it.
const PAUSE: u64 = 10;

/// Bytes that come in small pieces. With a clock a line comes at a time, each PAUSE later than the one before, and the clock stands still
/// meanwhile, but where a timer is due before.
#[derive(Drop)]
pub struct Pieces<'a> {
    rest: &'a [u8],
    piece: &'a [u8],
    now: Option<u64>,
    has_ended: bool,
}

impl<'a> Pieces<'a> {
    /// The bytes, of which none came yet, with a clock that reads 0, or without one.
    pub fn of(bytes: &'a [u8], is_clocked: bool) -> Self {
        Pieces {
            rest: bytes,
            piece: &[],
            now: if is_clocked { Some(0) } else { None },
            has_ended: false,
        }
    }

    // How many bytes come next.
    fn size(&self) -> usize {
        if self.now.is_none() {
            return SIZE;
        }
        match self.rest.iter().position(|byte| *byte == b'\n') {
            Some(place) => place + 1,
            None => self.rest.len(),
        }
    }
}

impl Input for Pieces<'_> {
    ghost has_failed = { λ _. false };

    ghost has_ended = { λ pieces. pieces.has_ended };

    ghost came = { λ _. None };

    fn wait(&mut self, until: Option<u64>) -> Came {
        if let Some(now) = self.now {
            let next = now.saturating_add(PAUSE);
            match until {
                Some(due) if due <= next => {
                    self.now = Some(due.max(now));
                    return Came::Due(due);
                }
                _ => self.now = Some(next),
            }
        }
        if self.rest.is_empty() {
            self.has_ended = true;
            return Came::End;
        }
        let (piece, rest) = match self.rest.split_at_checked(self.size()) {
            Some(parts) => parts,
            None => (self.rest, [].as_slice()),
        };
        self.piece = piece;
        self.rest = rest;
        Came::Bytes
    }

    fn bytes(&self) -> &[u8] {
        self.piece
    }

    fn now(&self) -> Option<u64> {
        self.now
    }
}
