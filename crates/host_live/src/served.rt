// What became of a line, and why a host carries nothing out any more. It relies on `reports` for faults of lines.

ghost use Rattle.std.specs.Prelude.{◌≡◌, ◌≢◌, true, false};
ghost use Rattle.host_live.specs.Successions.{asked_of};
ghost use Rattle.host_live.specs.Turns.{fault_of};
ghost use Rattle.host_live.specs.declared.served.Served.TheVariants.{Quit, Skipped};
ghost use Rattle.host_live.specs.declared.request.Request.TheVariants as asks;

use crate::reports::LineFault;
use crate::request::Succession;

/// Why a host carries nothing out any more.
#[derive(Clone, Copy, Debug, PartialEq, Eq)]
pub(crate) enum HostFault {
    OutOfMemory,
    /// A call is no event of the engine, which cannot be.
    InternalError,
}

/// What became of a line.
#[derive(Clone, Copy)]
pub(crate) enum Served {
    /// It is skipped, since it says nothing.
    Skipped,
    /// It was carried out.
    Done,
    /// It was carried out, and is the last one.
    Quit,
    /// It asks for another engine to follow this one, and no run is live.
    Asked(Succession),
    /// It was not carried out.
    Refused(LineFault),
}

impl Served {
    /// Whether it is skipped.
    pub(crate) fn is_skipped(&self) -> bool
        ensures skipped { result ≡ true → self.now ≡ Skipped }
        ensures other { result ≡ false → self.now ≢ Skipped }
    {
        matches!(self, Served::Skipped)
    }

    /// Whether it is the last line.
    pub(crate) fn is_last(&self) -> bool
        ensures last { result ≡ true → self.now ≡ Quit }
        ensures other { result ≡ false → self.now ≢ Quit }
    {
        matches!(self, Served::Quit)
    }

    /// How another engine is to follow, if it asks for one.
    pub(crate) fn asked(&self) -> Option<Succession>
        ensures { result ≡ asked_of self.now }
    {
        match self {
            Served::Asked(how) => Some(*how),
            Served::Skipped | Served::Done | Served::Quit | Served::Refused(_) => None,
        }
    }

    /// Why it was not carried out.
    pub(crate) fn fault(&self) -> Option<LineFault>
        ensures { result ≡ fault_of self.now }
    {
        match self {
            Served::Refused(fault) => Some(*fault),
            Served::Skipped | Served::Done | Served::Quit | Served::Asked(_) => None,
        }
    }
}
