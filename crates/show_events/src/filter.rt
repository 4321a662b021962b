// What of a trace somebody wants to see. It relies on `ccb` for refusals.

use ccb::CallRefusal;

/// Which events of a trace are wanted: those that fit all that is given. Where nothing is given, all are.
#[derive(Clone, Copy, Debug)]
pub struct Filter {
    /// Those that are about the CCB of that number, from 1.
    pub ccb: Option<u32>,
    /// Those that are about the device queue of that number, 0 to 63.
    pub queue: Option<u8>,
    /// Those of the run of that number, from 1.
    pub run: Option<u32>,
    /// Those that are about the freeze of that number, from 1.
    pub freeze: Option<u32>,
    /// Those at or after that clock reading, in milliseconds.
    pub from: Option<u64>,
    /// Those at or before that clock reading, in milliseconds.
    pub to: Option<u64>,
    /// Completions that report that SCSI status.
    pub status: Option<u8>,
    /// Completions with such sense data.
    pub sense: Option<SenseFilter>,
    /// Calls that are refused so.
    pub refused: Option<RefusedFilter>,
}

/// Which sense data is wanted: that of the key, and of the additional sense code and its qualifier if these are given.
#[derive(Clone, Copy, Debug)]
pub struct SenseFilter {
    pub key: u8,
    pub asc: Option<u8>,
    pub ascq: Option<u8>,
}

/// Which refusals are wanted.
#[derive(Clone, Copy, Debug)]
pub enum RefusedFilter {
    Any,
    So(CallRefusal),
}
