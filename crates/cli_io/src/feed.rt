// What one thread reads and another takes, piece by piece: the buffers change places. It relies on `reading` for a read, and on
// `stopwatch` for the clock.

use crate::reading::{PIECE, read_some};
use crate::stopwatch::Stopwatch;
use std::alloc::{AllocError, Global};
use std::io::Read;
use std::mem::swap;
use std::rt::Clock;
use std::sync::{Arc, Condvar, CondvarTimeouts, Mutex, Wait};
use std::time::Duration;

/// What was handed over.
#[derive(Clone, Copy, Debug, PartialEq, Eq)]
pub enum Handed {
    /// Nothing as yet.
    Nothing,
    /// So many bytes.
    Bytes(usize),
    /// That there are no more bytes.
    End,
    /// That there are no more bytes which could be read.
    Failed,
}

#[derive(Drop)]
struct Piece {
    bytes: Vec<u8>,
    handed: Handed,
}

/// One piece that was read and waits to be taken, at most `PIECE` bytes, or that there will be none.
#[derive(Drop)]
pub struct Feed {
    piece: Mutex<Piece>,
    changed: Condvar,
}

impl Feed {
    /// Nothing was read yet.
    pub fn of(alloc: Global) -> Result<Self, AllocError> {
        Ok(Feed {
            piece: Mutex::new(Piece {
                bytes: vec![in alloc; 0; PIECE]?,
                handed: Handed::Nothing,
            }),
            changed: Condvar::new(),
        })
    }
}

/// The reading side, for a thread of its own.
#[derive(Drop)]
pub struct Feeder {
    feed: Arc<Feed>,
    bytes: Vec<u8>,
}

impl Feeder {
    /// One for this feed.
    pub fn of(alloc: Global, feed: &Arc<Feed>) -> Result<Self, AllocError> {
        Ok(Feeder {
            feed: feed.clone()?,
            bytes: vec![in alloc; 0; PIECE]?,
        })
    }

    /// Reads to the end, and hands on each piece once that before it is taken.
    pub fn read_all<R: Wait, I: Read + Drop>(self, rt: &R, reader: I) {
        let mut reader = reader;
        let Feeder { feed, mut bytes } = self;
        for _ in rt.forever() {
            let handed = match read_some(&mut reader, bytes.as_mut_slice()) {
                Ok(0) => Handed::End,
                Ok(len) => Handed::Bytes(len),
                Err(_) => Handed::Failed,
            };
            hand(rt, &feed, &mut bytes, handed);
            if handed == Handed::End || handed == Handed::Failed {
                return;
            }
        }
    }
}

// Hands that on, once nothing waits to be taken.
fn hand<R: Wait>(rt: &R, feed: &Feed, bytes: &mut Vec<u8>, handed: Handed) {
    let mut piece = feed.piece.lock(rt);
    for _ in rt.forever() {
        if piece.handed == Handed::Nothing {
            swap(&mut piece.bytes, bytes);
            piece.handed = handed;
            break;
        }
        piece = feed.changed.wait(rt, piece);
    }
    drop(piece);
    feed.changed.notify_all();
}

/// Takes what was handed on, and waits for it, but no longer than until the clock reads `until`, in milliseconds, if that is given:
/// nothing, if nothing came. That there are no more bytes is told each time.
pub fn take<R: Wait + Clock>(
    rt: &R,
    clock: &Stopwatch<'_, R>,
    feed: &Feed,
    until: Option<u64>,
    bytes: &mut Vec<u8>,
) -> Handed {
    let mut piece = feed.piece.lock(rt);
    let mut taken = Handed::Nothing;
    for _ in rt.forever() {
        taken = piece.handed;
        if taken != Handed::Nothing {
            break;
        }
        piece = match until {
            None => feed.changed.wait(rt, piece),
            Some(due) => {
                let left = due.saturating_sub(clock.now().unwrap_or(0));
                if left == 0 {
                    break;
                }
                let left = Duration::from_millis(left);
                feed.changed.wait_timeout(rt, piece, left).0
            }
        };
    }
    if let Handed::Bytes(_) = taken {
        swap(&mut piece.bytes, bytes);
        piece.handed = Handed::Nothing;
    }
    drop(piece);
    feed.changed.notify_all();
    taken
}
