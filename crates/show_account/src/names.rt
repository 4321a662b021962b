// The names of statuses, final codes and advice in words. It relies on `ccb` for these.

ghost use Rattle.std.specs.Prelude.{◌≡◌};
ghost use Rattle.show_account.specs.Names.{IsNameOf, advice_name, status_name};

use ccb::CamStatus;

/// The name of a status, in words.
pub fn status_name(status: CamStatus) -> &'static str
    ensures { result.now ≡ status_name status }
{
    match status {
        CamStatus::RequestInProgress => "request in progress",
        CamStatus::RequestCompleted => "request completed",
        CamStatus::RequestAborted => "request aborted",
        CamStatus::Busy => "busy",
        CamStatus::SelectionTimeout => "selection timeout",
        CamStatus::CommandTimeout => "command timeout",
        CamStatus::ScsiStatusError => "SCSI status error",
        CamStatus::ScsiBusReset => "SCSI bus reset",
        CamStatus::BusDeviceResetSent => "bus device reset sent",
        CamStatus::RequeueRequest => "requeue request",
    }
}

/// The usual name of a word of advice; nothing if it has none, as the words from 65,536 on, which are the host's own.
pub fn advice_name(word: u64) -> &'static str
    ensures { result.now ≡ advice_name word }
{
    match word {
        0 => "none",
        1 => "test unit ready",
        2 => "start unit",
        3 => "request sense",
        4 => "abort",
        5 => "logical unit reset",
        6 => "target reset",
        7 => "bus reset",
        8 => "reconnect",
        _ => "",
    }
}

/// What became of a CCB that failed with that status, as `timed out`.
pub(crate) fn failure_of(status: CamStatus) -> &'static str {
    match status {
        CamStatus::RequestInProgress => "was in progress",
        CamStatus::RequestCompleted => "was completed",
        CamStatus::RequestAborted => "was aborted",
        CamStatus::Busy => "found the transport busy",
        CamStatus::SelectionTimeout => "was not selected in time",
        CamStatus::CommandTimeout => "timed out",
        CamStatus::ScsiStatusError => "got a SCSI status",
        CamStatus::ScsiBusReset => "met a bus reset",
        CamStatus::BusDeviceResetSent => "met a device reset",
        CamStatus::RequeueRequest => "was handed back",
    }
}

/// The name of the status that a final code is; nothing if it is none.
pub fn name_of_code(code: u8) -> &'static str
    ensures { IsNameOf code result.now }
{
    match CamStatus::from_code(code) {
        Some(status) => status_name(status),
        None => "",
    }
}
