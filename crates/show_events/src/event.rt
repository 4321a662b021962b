// An event of a trace: when it was, what it is about, what happened, and with which values. It relies on `happening` for what may
// happen, and on `ccb` and `world_calls` for what the values name.

use crate::happening::Happening;
use base::ShortBytes;
use ccb::{CamStatus, Place};
use world_calls::{CallRefusal, CompletionRecord};

/// What an event is about. What it is not about is absent.
#[derive(Clone, Copy, Default)]
pub struct Subject {
    /// A CCB, by its number.
    pub ccb: Option<u32>,
    /// A queue or a controller.
    pub place: Option<Place>,
    /// A run, by its number.
    pub run: Option<u32>,
    /// A freeze, by its number.
    pub freeze: Option<u32>,
}

/// Why there is a freeze.
#[derive(Clone, Copy)]
pub enum Cause {
    /// A CCB failed with that status, and a run of that number took the freeze.
    Failure {
        ccb: u32,
        status: CamStatus,
        run: u32,
    },
    /// A guest took it, by the number that it chose.
    Guest(u32),
    /// It was carried over with its timer, and the engine before this one knew why.
    CarriedOver,
}

/// The values of an event, as far as it has them: which ones, `Happening` says of each.
#[derive(Clone, Copy)]
pub struct Values {
    pub numbers: [u64; 5],
    /// How often the event's place is frozen after it.
    pub frozen: u32,
    /// A guest, by the number that it chose.
    pub guest: u32,
    pub status: CamStatus,
    pub scsi: u8,
    pub code: u8,
    pub refusal: CallRefusal,
    pub cause: Cause,
    pub bytes: ShortBytes,
}

impl Values {
    /// Those of an event that has none.
    pub(crate) fn none() -> Self {
        Values {
            numbers: [0; 5],
            frozen: 0,
            guest: 0,
            status: CamStatus::RequestInProgress,
            scsi: 0,
            code: 0,
            refusal: CallRefusal::Unknown,
            cause: Cause::Guest(0),
            bytes: ShortBytes::none(),
        }
    }

    /// Up to two numbers alone.
    pub(crate) fn numbers(first: u64, second: u64) -> Self {
        Values {
            numbers: [first, second, 0, 0, 0],
            ..Values::none()
        }
    }

    /// Three numbers alone.
    pub(crate) fn three(first: u64, second: u64, third: u64) -> Self {
        Values {
            numbers: [first, second, third, 0, 0],
            ..Values::none()
        }
    }

    /// A refusal alone.
    pub(crate) fn refused(refusal: CallRefusal) -> Self {
        Values {
            refusal,
            ..Values::none()
        }
    }

    /// What a completion reports, and a time.
    pub(crate) fn reported(completion: &CompletionRecord, time: u64) -> Self {
        Values {
            status: completion.status(),
            scsi: completion.scsi(),
            bytes: completion.sense(),
            ..Values::numbers(time, 0)
        }
    }

    /// How often the place is frozen, and a time.
    pub(crate) fn frozen(frozen: u32, time: u64) -> Self {
        Values {
            frozen,
            ..Values::numbers(time, 0)
        }
    }
}

/// Something that happened.
#[derive(Clone, Copy)]
pub struct Event {
    /// What the clock read last, in milliseconds.
    pub clock: u64,
    pub subject: Subject,
    pub happening: Happening,
    pub values: Values,
}

impl Event {
    /// The SCSI status that a completion reports, be it taken or refused. None if its device reported no status: the command was not
    /// carried out, and the byte is 0.
    pub fn scsi_status(&self) -> Option<u8> {
        let was_carried_out = matches!(
            self.values.status,
            CamStatus::RequestCompleted | CamStatus::ScsiStatusError
        );
        if self.happening.is_report() && (was_carried_out || self.values.scsi != 0) {
            Some(self.values.scsi)
        } else {
            None
        }
    }

    /// The sense data that a completion reports, be it taken or refused; nothing if it reports none.
    pub fn sense(&self) -> &[u8] {
        if self.happening.is_report() {
            self.values.bytes.as_slice()
        } else {
            &[]
        }
    }

    /// The queue that it is about, if it is a queue.
    pub fn queue(&self) -> Option<u32> {
        match self.subject.place {
            Some(Place::Device(queue)) => Some(queue.0),
            Some(Place::Controller(_)) | None => None,
        }
    }
}
