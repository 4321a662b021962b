// When a record is, in microseconds. A trace has a clock in milliseconds, at a reading of which there may be many records. It relies on
// `world_calls` for records.

use world_calls::{CallAnswer, Record, Trace};

/// How many microseconds a millisecond has.
const MILLISECOND: u64 = 1000;

/// The greatest time: a reader of JSON may have no greater number exactly.
const LAST: u64 = 9_007_199_254_740_991;

/// The time of a record.
#[derive(Clone, Copy)]
pub(crate) struct Time {
    // whether the clock was read at all
    has_clock: bool,
    clock: u64,
    // how many records came up to it in all, or, if the clock was read, at its reading
    count: u64,
}

impl Time {
    /// The time before the first record of a trace, where the clock reads that.
    pub(crate) fn of(trace: &Trace, clock: u64) -> Self {
        let mut has_clock = false;
        for record in trace.records.iter() {
            if is_reading(record) {
                has_clock = true;
            }
        }
        Time {
            has_clock,
            clock,
            count: 0,
        }
    }

    /// Goes on by a record after which the clock reads that.
    pub(crate) fn step(&mut self, clock: u64) {
        if self.has_clock && clock != self.clock {
            self.clock = clock;
            self.count = 0;
        }
        self.count = self.count.saturating_add(1);
    }

    /// The microsecond: that of the clock's reading and of the record's number there, of which the first is 0 and the last one of this
    /// millisecond stands for all further ones. If no clock was read, a record is a microsecond after the reading at the beginning.
    pub(crate) fn at(&self) -> u64 {
        let further = if self.has_clock {
            self.count.saturating_sub(1).min(MILLISECOND - 1)
        } else {
            self.count
        };
        self.clock
            .saturating_mul(MILLISECOND)
            .saturating_add(further)
            .min(LAST)
    }
}

// Whether it is of a clock reading that was taken, which alone has such an answer.
fn is_reading(record: &Record) -> bool {
    match record {
        Record::Called { answer, call: _ } => matches!(answer, CallAnswer::Removed(_)),
        Record::Advance { .. } => false,
    }
}
