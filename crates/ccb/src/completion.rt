// What a device adapter reports of an active CCB once it is done with it.
// It relies on CAM status codes and on the place for sense bytes.
ghost use Rattle.std.specs.Prelude.{◌≡◌, SomeIff};
ghost use Rattle.ccb.specs.Completion.{Outcome, IsCompletion};

use crate::CcbId;
use crate::cam_status::CamStatus;
use base::ShortBytes;
use std::marker::Model;

/// The completion of a CCB: which CCB, its CAM status (never that it is in progress), its SCSI
/// status byte and from 0 to 64 sense bytes. Contracts see an `Outcome` of these four.
#[derive(Clone, Copy, Debug, PartialEq, Eq)]
pub struct Completion {
    ccb: CcbId,
    status: CamStatus,
    scsi: u8,
    sense: ShortBytes,
}

impl Model for Completion {
    ghost use Rattle.ccb.specs.Completion.{Outcome, IsCompletion};

    ghost Value = { Outcome };

    ghost view = { λ c. record { ccb = c.ccb; status = c.status; scsi = c.scsi; sense = c.sense } };

    ghost invariant = { λ c. IsCompletion (record { ccb = c.ccb; status = c.status; scsi = c.scsi; sense = c.sense }) };

    ghost inverse = { λ o. record { ccb = o.ccb; status = o.status; scsi = o.scsi; sense = o.sense } };
}

impl Completion {
    /// The completion of this CCB. `None` exactly where the status says that the CCB is still in
    /// progress, or where there are more than 64 sense bytes.
    pub fn new(ccb: CcbId, status: CamStatus, scsi: u8, sense: &[u8]) -> Option<Self>
        ensures { let outcome : Outcome = record { ccb = ccb; status = status; scsi = scsi; sense = sense.now }
            in SomeIff result (IsCompletion outcome) outcome }
    {
        if status == CamStatus::RequestInProgress {
            return None;
        }
        let sense = ShortBytes::new(sense)?;
        Some(Completion {
            ccb,
            status,
            scsi,
            sense,
        })
    }

    /// The CCB that is completed.
    pub fn ccb(&self) -> CcbId
        ensures { result ≡ self.now.ccb }
    {
        self.ccb
    }

    /// The CCB's CAM status.
    pub fn status(&self) -> CamStatus
        ensures status { result ≡ self.now.status }
        ensures finished { IsCompletion self.now }
    {
        self.status
    }

    /// The SCSI status byte, any byte.
    pub fn scsi(&self) -> u8
        ensures { result ≡ self.now.scsi }
    {
        self.scsi
    }

    /// The sense bytes that came, from 0 to 64.
    pub fn sense(&self) -> ShortBytes
        ensures { result ≡ self.now.sense }
    {
        self.sense
    }
}
