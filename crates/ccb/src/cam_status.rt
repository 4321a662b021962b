// CAM status codes (ANSI X3.232), as an enum with a total conversion to its byte and a partial one
// back. It relies on nothing; specs/Status.antt has the table of codes.
ghost use Rattle.std.specs.Prelude.{◌≡◌};
ghost use Rattle.ccb.specs.Status.{IsDecodedFrom, code_of};

/// How far a CCB came, without the flags that a status byte may carry beside the code. The names
/// are CAM's; the values are this project's own.
#[derive(Clone, Copy, Debug, PartialEq, Eq)]
pub enum CamStatus {
    /// The CCB is not finished yet. A completion never has this status.
    RequestInProgress = 0x00,
    /// The CCB finished without an error. It needs no recovery.
    RequestCompleted = 0x01,
    /// The host aborted the CCB.
    RequestAborted = 0x02,
    /// The transport was busy.
    Busy = 0x05,
    /// The device did not answer its selection in time.
    SelectionTimeout = 0x0a,
    /// The command did not finish in time.
    CommandTimeout = 0x0b,
    /// The device answered with a SCSI status other than GOOD.
    ScsiStatusError = 0x0c,
    /// The SCSI bus was reset under the command.
    ScsiBusReset = 0x0e,
    /// A bus device reset was sent to the device.
    BusDeviceResetSent = 0x17,
    /// The transport asks for the CCB to be queued again.
    RequeueRequest = 0x1b,
}

impl CamStatus {
    /// The code, one of the ten from 0x00 to 0x1b.
    pub fn code(self) -> u8
        ensures { result ≡ code_of self }
    {
        self as u8
    }

    /// The status with this code. `None` where no status has it.
    pub fn from_code(code: u8) -> Option<Self>
        ensures { IsDecodedFrom code result }
    {
        match code {
            0x00 => Some(CamStatus::RequestInProgress),
            0x01 => Some(CamStatus::RequestCompleted),
            0x02 => Some(CamStatus::RequestAborted),
            0x05 => Some(CamStatus::Busy),
            0x0a => Some(CamStatus::SelectionTimeout),
            0x0b => Some(CamStatus::CommandTimeout),
            0x0c => Some(CamStatus::ScsiStatusError),
            0x0e => Some(CamStatus::ScsiBusReset),
            0x17 => Some(CamStatus::BusDeviceResetSent),
            0x1b => Some(CamStatus::RequeueRequest),
            _ => None,
        }
    }
}
