// A completion as the history keeps it. It relies on `ccb` for completions and on `base` for sense bytes.

ghost use Rattle.std.specs.Prelude.{◌≡◌, [], IfOk, IsOk, SomeIff};
ghost use Rattle.ccb.specs.Completion.{IsCompletion};

use base::ShortBytes;
use ccb::{CamStatus, CcbId, Completion};
use std::alloc::{AllocError, Global};
use std::marker::Model;

/// What a device reported of a CCB. Most completions bring no sense bytes, and take no memory; the others stand apart.
/// Contracts see the completion's `Outcome`.
#[derive(Debug, Drop)]
pub struct CompletionRecord {
    kept: Kept,
}

/// How a completion is kept.
#[derive(Debug, Drop)]
enum Kept {
    WithoutSense {
        ccb: CcbId,
        status: CamStatus,
        scsi: u8,
    },
    Whole(Box<Completion>),
}

impl Model for CompletionRecord {
    ghost use Rattle.ccb.specs.Completion.{Outcome};
    ghost use Rattle.world_calls.specs.Kept.{outcome_kept};

    ghost Value = { Outcome };

    ghost view = { λ it. outcome_kept it.kept };
}

impl CompletionRecord {
    /// The record of a completion. One without sense bytes takes no memory.
    pub fn new(alloc: Global, completion: &Completion) -> Result<Self, AllocError>
        ensures value { IfOk result (λ kept. kept ≡ completion.now) }
        ensures without_sense { completion.now.sense ≡ [] → IsOk result }
    {
        let kept = if completion.sense().is_empty() {
            Kept::WithoutSense {
                ccb: completion.ccb(),
                status: completion.status(),
                scsi: completion.scsi(),
            }
        } else {
            Kept::Whole(Box::new(alloc, *completion)?)
        };
        Ok(CompletionRecord { kept })
    }

    /// The CCB that is completed.
    pub fn ccb(&self) -> CcbId
        ensures { result ≡ self.now.ccb }
    {
        match &self.kept {
            Kept::WithoutSense { ccb, .. } => *ccb,
            Kept::Whole(completion) => completion.ccb(),
        }
    }

    /// The CCB's CAM status.
    pub fn status(&self) -> CamStatus
        ensures { result ≡ self.now.status }
    {
        match &self.kept {
            Kept::WithoutSense { status, .. } => *status,
            Kept::Whole(completion) => completion.status(),
        }
    }

    /// The SCSI status byte.
    pub fn scsi(&self) -> u8
        ensures { result ≡ self.now.scsi }
    {
        match &self.kept {
            Kept::WithoutSense { scsi, .. } => *scsi,
            Kept::Whole(completion) => completion.scsi(),
        }
    }

    /// The sense bytes that came, from 0 to 64.
    pub fn sense(&self) -> ShortBytes
        ensures { result ≡ self.now.sense }
    {
        match &self.kept {
            Kept::WithoutSense { .. } => ShortBytes::none(),
            Kept::Whole(completion) => completion.sense(),
        }
    }

    /// What the device reported, as it is reported; `None` exactly where no device reports it.
    pub fn completion(&self) -> Option<Completion>
        ensures { SomeIff result (IsCompletion self.now) self.now }
    {
        let sense = self.sense();
        Completion::new(self.ccb(), self.status(), self.scsi(), sense.as_slice())
    }
}
