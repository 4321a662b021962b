// What is told on standard error by another thread, so that nobody waits for who reads it. It relies on nothing.

use std::alloc::{AllocError, Global};
use std::io;
use std::io::Write;
use std::mem::swap;
use std::rt::Clock;
use std::sync::{Arc, Condvar, CondvarTimeouts, Mutex, Wait};
use std::time::Duration;

/// How many bytes may wait to be written.
const ROOM: usize = 65536;

/// How many bytes a report has as a rule; for one that is longer memory is asked for.
const REPORT: usize = 256;

/// For how long it is waited at the end until all is written, in milliseconds.
const PATIENCE: u64 = 1000;

/// The reports that wait to be written, each a line.
#[derive(Drop)]
struct Waiting {
    bytes: Vec<u8>,
    // how many found no room since the last that did
    dropped: u64,
    // some were taken, and are being written
    is_busy: bool,
    is_ended: bool,
}

impl Waiting {
    // Adds a report, if it is whole and there is room for it, or counts it.
    fn add(&mut self, report: &[u8], is_whole: bool) {
        if !is_whole || !self.tell_dropped(report.len()) || !put(&mut self.bytes, report) {
            self.dropped = self.dropped.saturating_add(1);
        }
    }

    // Adds how many reports were dropped, if any were and there is room for that and for so many bytes more. Whether there is room.
    fn tell_dropped(&mut self, more: usize) -> bool {
        if self.dropped == 0 {
            return self.bytes.len().saturating_add(more) <= ROOM;
        }
        let Ok(told) = dropped_report(self.bytes.allocator(), self.dropped) else {
            return false;
        };
        let len = self
            .bytes
            .len()
            .saturating_add(told.len())
            .saturating_add(more);
        if len > ROOM || !put(&mut self.bytes, told.as_bytes()) {
            return false;
        }
        self.dropped = 0;
        true
    }
}

fn put(bytes: &mut Vec<u8>, more: &[u8]) -> bool {
    bytes.extend_from_slice(more).is_ok()
}

fn dropped_report(alloc: &Global, count: u64) -> Result<String, AllocError> {
    if count == 1 {
        return String::from_str(*alloc, "camr: 1 report was dropped\n");
    }
    format!(in *alloc; "camr: {count} reports were dropped\n")
}

#[derive(Drop)]
struct Queue {
    waiting: Mutex<Waiting>,
    changed: Condvar,
}

/// The side that tells. Whoever writes to it does not wait: a report, which ends with a line feed, waits until the other side writes it, or
/// is dropped where there is no room, and the next that finds room tells how many were.
#[derive(Drop)]
pub struct Relay<'a, R: Wait + Clock> {
    rt: &'a R,
    queue: Arc<Queue>,
    // the report that is being written
    report: Vec<u8>,
    // a part of it found no memory
    is_torn: bool,
}

/// The side that writes, for a thread of its own.
#[derive(Drop)]
pub struct Relayer {
    queue: Arc<Queue>,
    bytes: Vec<u8>,
}

impl<'a, R: Wait + Clock> Relay<'a, R> {
    /// Both sides. The second takes no more memory later.
    pub fn of(alloc: Global, rt: &'a R) -> Result<(Self, Relayer), AllocError> {
        let waiting = Waiting {
            bytes: Vec::with_capacity(alloc, ROOM)?,
            dropped: 0,
            is_busy: false,
            is_ended: false,
        };
        let queue = Arc::new(
            alloc,
            Queue {
                waiting: Mutex::new(waiting),
                changed: Condvar::new(),
            },
        )?;
        let relayer = Relayer {
            queue: queue.clone()?,
            bytes: Vec::with_capacity(alloc, ROOM)?,
        };
        let relay = Relay {
            rt,
            queue,
            report: Vec::with_capacity(alloc, REPORT)?,
            is_torn: false,
        };
        Ok((relay, relayer))
    }

    /// Waits until all is written, but no longer than a second.
    pub fn end(self) {
        let Relay {
            rt,
            queue,
            report: _,
            is_torn: _,
        } = self;
        let mut waiting = queue.waiting.lock(rt);
        let _ = waiting.tell_dropped(0);
        waiting.is_ended = true;
        queue.changed.notify_all();
        for _ in rt.forever() {
            if waiting.bytes.is_empty() && !waiting.is_busy {
                break;
            }
            let (later, timed) = queue
                .changed
                .wait_timeout(rt, waiting, Duration::from_millis(PATIENCE));
            waiting = later;
            if timed.timed_out() {
                break;
            }
        }
        drop(waiting);
    }
}

impl<R: Wait + Clock> Write for Relay<'_, R> {
    fn write(&mut self, buf: &[u8]) -> io::Result<usize> {
        if !self.is_torn {
            self.is_torn = !put(&mut self.report, buf);
        }
        if buf.ends_with(b"\n") {
            let mut waiting = self.queue.waiting.lock(self.rt);
            waiting.add(&self.report, !self.is_torn);
            drop(waiting);
            self.queue.changed.notify_all();
            self.report.clear();
            self.is_torn = false;
        }
        Ok(buf.len())
    }

    fn flush(&mut self) -> io::Result<()> {
        Ok(())
    }
}

impl Relayer {
    /// Writes what waits, until the other side has ended. What cannot be written is let go.
    pub fn write_all<R: Wait, W: Write + Drop>(self, rt: &R, writer: W) {
        let mut writer = writer;
        let Relayer { queue, mut bytes } = self;
        for _ in rt.forever() {
            if !take(rt, &queue, &mut bytes) {
                return;
            }
            let _ = writer.write_all(&bytes);
            bytes.clear();
        }
    }
}

// Takes what waits, once there is some; false where the other side has ended and nothing waits.
fn take<R: Wait>(rt: &R, queue: &Queue, bytes: &mut Vec<u8>) -> bool {
    let mut waiting = queue.waiting.lock(rt);
    waiting.is_busy = false;
    queue.changed.notify_all();
    for _ in rt.forever() {
        if !waiting.bytes.is_empty() || waiting.is_ended {
            break;
        }
        waiting = queue.changed.wait(rt, waiting);
    }
    swap(&mut waiting.bytes, bytes);
    waiting.is_busy = !bytes.is_empty();
    let is_more = waiting.is_busy;
    drop(waiting);
    is_more
}
