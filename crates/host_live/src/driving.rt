// How a host drives runs that are out: to the next stop, or to the end. It relies on `host` for clock readings.

ghost use Rattle.std.specs.Prelude.{◌≡◌};
ghost use Rattle.host_live.specs.Growth.{GrowsAs};
ghost use Rattle.host_live.specs.Turns.{Acts, MakesOne, ReadThen, Drives, DrivesAll, DrivesTo, stepped_of};
ghost use Rattle.host_live.specs.declared.manner.Manner.{Manner as TheManner};
ghost use Rattle.host_live.specs.declared.request.Request.TheVariants as asks;

use crate::host::Host;
use crate::outlet::Outlet;
use crate::printed_engine::Advanced;
use crate::reports::LineFault;
use crate::served::{HostFault, Served};
use std::alloc::AllocError;

// What became of the line that asked for an advance.
fn stepped(advanced: Advanced) -> Served
    ensures { result ≡ stepped_of advanced }
{
    match advanced {
        Advanced::NotOut => Served::Refused(LineFault::NotHeld),
        Advanced::Goes | Advanced::Ended => Served::Done,
    }
}

impl<'a> Host<'a> {
    /// Drives a run that is out to its next stop, after the reading.
    pub(crate) fn step<S: Outlet>(
        &mut self,
        run: u32,
        now: Option<u64>,
        out: &mut S,
    ) -> Result<Served, HostFault>
        ensures grown { GrowsAs (ReadThen now (λ acts. (manner : TheManner) → Acts manner (asks.Step run) result self.new.engine.engine acts)) self.old.engine (S.bytes out.old) (S.failures out.old) self.new.engine (S.bytes out.new) (S.failures out.new) }
        ensures answers { S.answers out.new ≡ S.answers out.old }
    {
        if !self.engine.is_out(run) {
            return Ok(Served::Refused(LineFault::NotHeld));
        }
        match self.read(now, out) {
            Ok(()) => self.step_here(run, out),
            Err(fault) => Err(fault),
        }
    }

    // Drives a run that is out to its next stop.
    fn step_here<S: Outlet>(&mut self, run: u32, out: &mut S) -> Result<Served, HostFault>
        ensures grown { GrowsAs (λ acts. (manner : TheManner) → Acts manner (asks.Step run) result self.new.engine.engine acts) self.old.engine (S.bytes out.old) (S.failures out.old) self.new.engine (S.bytes out.new) (S.failures out.new) }
        ensures answers { S.answers out.new ≡ S.answers out.old }
    {
        match self.advance(run, out) {
            Ok(advanced) => Ok(stepped(advanced)),
            Err(fault) => Err(fault),
        }
    }

    /// Drives a run that is out to its end, after the reading.
    pub(crate) fn drive<S: Outlet>(
        &mut self,
        run: u32,
        now: Option<u64>,
        out: &mut S,
    ) -> Result<Served, HostFault>
        ensures grown { GrowsAs (ReadThen now (λ acts. (manner : TheManner) → Acts manner (asks.Drive run) result self.new.engine.engine acts)) self.old.engine (S.bytes out.old) (S.failures out.old) self.new.engine (S.bytes out.new) (S.failures out.new) }
        ensures answers { S.answers out.new ≡ S.answers out.old }
    {
        if !self.engine.is_out(run) {
            return Ok(Served::Refused(LineFault::NotHeld));
        }
        match self.read(now, out) {
            Ok(()) => self.drive_here(run, out),
            Err(fault) => Err(fault),
        }
    }

    /// Drives a run to its end, while it is out.
    pub(crate) fn drive_here<S: Outlet>(
        &mut self,
        run: u32,
        out: &mut S,
    ) -> Result<Served, HostFault>
        ensures grown { GrowsAs (DrivesTo run result self.new.engine.engine) self.old.engine (S.bytes out.old) (S.failures out.old) self.new.engine (S.bytes out.new) (S.failures out.new) }
        ensures answers { S.answers out.new ≡ S.answers out.old }
    {
        match self.drive_out(run, out) {
            Ok(()) => Ok(Served::Done),
            Err(fault) => Err(fault),
        }
    }

    // Drives a run to its end, while it is out.
    fn drive_out<S: Outlet>(&mut self, run: u32, out: &mut S) -> Result<(), HostFault>
        ensures grown { GrowsAs (Drives run result self.new.engine.engine) self.old.engine (S.bytes out.old) (S.failures out.old) self.new.engine (S.bytes out.new) (S.failures out.new) }
        ensures answers { S.answers out.new ≡ S.answers out.old }
    {
        for _ in 0..u64::MAX {
            match self.advance(run, out) {
                Ok(Advanced::Goes) => {}
                Ok(Advanced::NotOut) => return Ok(()),
                Ok(Advanced::Ended) => return Ok(()),
                Err(fault) => return Err(fault),
            }
        }
        Err(HostFault::InternalError)
    }

    /// Drives the runs that are out to their ends, in the order of their numbers.
    pub(crate) fn drive_all<S: Outlet>(&mut self, out: &mut S) -> Result<(), HostFault>
        ensures grown { GrowsAs (DrivesAll result self.new.engine.engine) self.old.engine (S.bytes out.old) (S.failures out.old) self.new.engine (S.bytes out.new) (S.failures out.new) }
        ensures answers { S.answers out.new ≡ S.answers out.old }
    {
        for _ in 0..u64::MAX {
            match self.engine.first_out() {
                Some(run) => match self.drive_out(run, out) {
                    Ok(()) => {}
                    Err(fault) => return Err(fault),
                },
                None => return Ok(()),
            }
        }
        Err(HostFault::InternalError)
    }

    // Lets a run go on to its next stop. If it is not out nothing changes.
    fn advance<S: Outlet>(&mut self, run: u32, out: &mut S) -> Result<Advanced, HostFault>
        ensures grown { GrowsAs (MakesOne run result self.new.engine.engine) self.old.engine (S.bytes out.old) (S.failures out.old) self.new.engine (S.bytes out.new) (S.failures out.new) }
        ensures answers { S.answers out.new ≡ S.answers out.old }
    {
        if !self.engine.is_out(run) {
            return Ok(Advanced::NotOut);
        }
        match self.engine.advance(run, out) {
            Ok(Advanced::NotOut) => Err(HostFault::InternalError),
            Ok(Advanced::Goes) => Ok(Advanced::Goes),
            Ok(Advanced::Ended) => Ok(Advanced::Ended),
            Err(AllocError) => Err(HostFault::OutOfMemory),
        }
    }
}
