// What a host tells on request. It relies on `host` for clock readings, and on `reports` for how it is told.

ghost use Rattle.std.specs.Prelude.{◌≡◌};
ghost use Rattle.host_live.specs.Growth.{GrowsAs};
ghost use Rattle.host_live.specs.Turns.{ReadThen, Tells};

use crate::host::Host;
use crate::outlet::Outlet;
use crate::reports::Reports;
use crate::served::{HostFault, Served};

/// What is told on request, and is no part of a trace.
#[derive(Clone, Copy)]
pub(crate) enum Told {
    Nothing,
    Totals,
    Ccbs,
    Requests,
}

impl<'a> Host<'a> {
    /// Takes the reading, and tells what is asked for that makes no record. That became of the line.
    pub(crate) fn tell<N: Reports, S: Outlet>(
        &mut self,
        told: Told,
        became: Served,
        now: Option<u64>,
        reports: &mut N,
        out: &mut S,
    ) -> Result<Served, HostFault>
        ensures grown { GrowsAs (ReadThen now (Tells became result)) self.old.engine (S.bytes out.old) (S.failures out.old) self.new.engine (S.bytes out.new) (S.failures out.new) }
        ensures answers { S.answers out.new ≡ S.answers out.old }
    {
        match self.read(now, out) {
            Ok(()) => {
                self.report(told, reports);
                Ok(became)
            }
            Err(fault) => Err(fault),
        }
    }

    fn report<N: Reports>(&self, told: Told, reports: &mut N) {
        match told {
            Told::Nothing => {}
            Told::Totals => reports.sums(self.engine.totals()),
            Told::Ccbs => self.report_ccbs(reports),
            Told::Requests => reports.help(),
        }
    }

    // Tells of each live CCB, by rising number.
    fn report_ccbs<N: Reports>(&self, reports: &mut N) {
        for place in 0..usize::MAX {
            match self.engine.ccb_at(place) {
                Some(live) => reports.ccb(&live),
                None => break,
            }
        }
    }
}
