// Where on the picture a place of the clock is. If a trace reads no clock, its records stand for it. It relies on `world_calls` for what a
// trace reads.

use world_calls::{Call, CallAnswer, Record, Trace};

/// How many columns the picture has for its time.
pub(crate) const COLUMNS: u64 = 1200;

/// How many steps of the scale there are at most.
pub(crate) const STEPS: u64 = 8;

/// How many round steps there are: three for each power of ten.
const ROUND: u32 = 60;

/// By what the picture goes from left to right, and from where to where.
#[derive(Clone, Copy)]
pub(crate) struct Scale {
    /// Whether it goes by records, since no clock was read.
    pub(crate) by_records: bool,
    pub(crate) first: u64,
    pub(crate) last: u64,
}

impl Scale {
    /// That of a trace: from the clock reading that was carried over, or else from 0, or from its first reading if nothing is before it; to
    /// its last one; or over its records.
    pub(crate) fn of(trace: &Trace, carried: Option<u64>) -> Self {
        let mut first = carried.unwrap_or(0);
        let mut last = first;
        let mut is_first = carried.is_none();
        for record in trace.records.iter() {
            if let Some(reading) = reading_of(record) {
                if is_first {
                    first = reading;
                }
                last = reading;
            }
            is_first = false;
        }
        if last > first || trace.records.is_empty() {
            return Scale {
                by_records: false,
                first,
                last,
            };
        }
        Scale {
            by_records: true,
            first: 0,
            last: trace.records.len() as u64,
        }
    }

    /// The place of the clock of an event that the record of that number, from 1, tells at that reading.
    pub(crate) fn place(&self, clock: u64, record: usize) -> u64 {
        if self.by_records {
            record as u64
        } else {
            clock
        }
    }

    /// The least of the steps 1, 2, 5, 10, 20, 50 and so on of which the picture has no more than may be.
    pub(crate) fn step(&self) -> u64 {
        let span = self.last.saturating_sub(self.first);
        let mut power = 1u64;
        let mut digit = 1u64;
        for _ in 0..ROUND {
            if digit.saturating_mul(power).saturating_mul(STEPS) < span {
                if digit == 5 {
                    power = power.saturating_mul(10);
                }
                digit = next_digit(digit);
            }
        }
        digit.saturating_mul(power)
    }

    /// The first multiple of the step that the picture has.
    pub(crate) fn first_multiple(&self, step: u64) -> u64 {
        let beyond = self.first.checked_rem(step).unwrap_or(0);
        if beyond == 0 {
            self.first
        } else {
            self.first.saturating_sub(beyond).saturating_add(step)
        }
    }

    /// Its column, 0 to COLUMNS.
    pub(crate) fn column(&self, place: u64) -> u64 {
        let span = self.last.saturating_sub(self.first);
        let from = place.saturating_sub(self.first);
        if span == 0 {
            return 0;
        }
        if from >= span {
            return COLUMNS;
        }
        let column = u128::from(from) * u128::from(COLUMNS) / u128::from(span);
        u64::try_from(column).unwrap_or(COLUMNS).min(COLUMNS)
    }
}

// The first digit of the round number that comes after one with that digit.
fn next_digit(digit: u64) -> u64 {
    match digit {
        1 => 2,
        2 => 5,
        _ => 1,
    }
}

// What the clock read, if the record is of a reading that was taken.
fn reading_of(record: &Record) -> Option<u64> {
    match record {
        Record::Called { answer, call } => taken(*answer, call),
        Record::Advance { .. } => None,
    }
}

fn taken(answer: CallAnswer, call: &Call) -> Option<u64> {
    match (call, answer) {
        (Call::Clock { reading }, CallAnswer::Removed(_)) => Some(*reading),
        _ => None,
    }
}
