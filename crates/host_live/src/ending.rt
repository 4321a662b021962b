// How a live engine ends: runs that are out are driven, and all is handed on. It relies on `host` for runs.

ghost use Rattle.std.specs.Prelude.{◌≡◌, ◌≢◌, [], Err, IfOk, OnOk, false, true};
ghost use Rattle.host_live.specs.Growth.{GrowsAs, GrowsBy};
ghost use Rattle.host_live.specs.Served.{DrivesFirst, DrivesLast};
ghost use Rattle.host_live.specs.Turns.{DrivesAll};
ghost use Rattle.host_live.specs.declared.serving.LiveFault.TheVariants.{Unread, Unwritten};

use crate::answering::stop;
use crate::host::Host;
use crate::manner::Manner;
use crate::outlet::Outlet;
use crate::serving::LiveFault;

/// Drives the runs that are out at the end of the input, unless the trace is kept, and hands all on. It returns whether another engine follows.
pub(crate) fn finish<S: Outlet>(
    host: &mut Host<'_>,
    manner: Manner,
    is_followed: bool,
    out: &mut S,
) -> Result<bool, LiveFault>
    ensures grown { GrowsAs (DrivesLast manner is_followed result host.new.engine.engine) host.old.engine (S.bytes out.old) (S.failures out.old) host.new.engine (S.bytes out.new) (S.failures out.new) }
    ensures answers { S.answers out.new ≡ S.answers out.old }
    ensures followed { IfOk result (λ it. it ≡ is_followed) }
    ensures unread { result ≢ Err Unread }
    ensures unwritten { result ≡ Err Unwritten → host.new.engine.printed.has_failed ≡ true }
    ensures all { OnOk result (host.new.engine.printed.lines.waiting ≡ []) }
    ensures whole { OnOk result (host.new.engine.printed.has_failed ≡ false) }
{
    match drive_last(host, manner, is_followed, out) {
        Ok(()) => settle(host, is_followed, out),
        Err(fault) => Err(fault),
    }
}

// Hands all on.
fn settle<S: Outlet>(host: &mut Host<'_>, is_followed: bool, out: &mut S) -> Result<bool, LiveFault>
    ensures grown { GrowsBy [] host.old.engine (S.bytes out.old) (S.failures out.old) host.new.engine (S.bytes out.new) (S.failures out.new) }
    ensures engine { host.new.engine.engine ≡ host.old.engine.engine }
    ensures answers { S.answers out.new ≡ S.answers out.old }
    ensures followed { IfOk result (λ it. it ≡ is_followed) }
    ensures unread { result ≢ Err Unread }
    ensures unwritten { result ≡ Err Unwritten → host.new.engine.printed.has_failed ≡ true }
    ensures all { OnOk result (host.new.engine.printed.lines.waiting ≡ []) }
    ensures whole { OnOk result (host.new.engine.printed.has_failed ≡ false) }
{
    match host.engine.settle(out) {
        Ok(()) => Ok(is_followed),
        Err(failed) => Err(LiveFault::from(failed)),
    }
}

// Drives the runs that are out at the end of the input to their ends, unless the trace is kept, or another engine follows, which only one
// without a live run has.
fn drive_last<S: Outlet>(
    host: &mut Host<'_>,
    manner: Manner,
    is_followed: bool,
    out: &mut S,
) -> Result<(), LiveFault>
    ensures grown { GrowsAs (DrivesLast manner is_followed result host.new.engine.engine) host.old.engine (S.bytes out.old) (S.failures out.old) host.new.engine (S.bytes out.new) (S.failures out.new) }
    ensures answers { S.answers out.new ≡ S.answers out.old }
    ensures unread { result ≢ Err Unread }
    ensures unwritten { result ≡ Err Unwritten → host.new.engine.printed.has_failed ≡ true }
{
    if manner.is_kept {
        return Ok(());
    }
    if is_followed {
        return Ok(());
    }
    drive_all(host, out)
}

/// Drives the runs that are out to their ends, unless runs stay out.
pub(crate) fn drive_first<S: Outlet>(
    host: &mut Host<'_>,
    manner: Manner,
    out: &mut S,
) -> Result<(), LiveFault>
    ensures grown { GrowsAs (DrivesFirst manner result host.new.engine.engine) host.old.engine (S.bytes out.old) (S.failures out.old) host.new.engine (S.bytes out.new) (S.failures out.new) }
    ensures answers { S.answers out.new ≡ S.answers out.old }
    ensures unread { result ≢ Err Unread }
    ensures unwritten { result ≡ Err Unwritten → host.new.engine.printed.has_failed ≡ true }
{
    if manner.is_stepped {
        Ok(())
    } else {
        drive_all(host, out)
    }
}

// Drives the runs that are out to their ends.
fn drive_all<S: Outlet>(host: &mut Host<'_>, out: &mut S) -> Result<(), LiveFault>
    ensures grown { GrowsAs (DrivesAll result host.new.engine.engine) host.old.engine (S.bytes out.old) (S.failures out.old) host.new.engine (S.bytes out.new) (S.failures out.new) }
    ensures answers { S.answers out.new ≡ S.answers out.old }
    ensures unread { result ≢ Err Unread }
    ensures unwritten { result ≡ Err Unwritten → host.new.engine.printed.has_failed ≡ true }
{
    match host.drive_all(out) {
        Ok(()) => Ok(()),
        Err(fault) => Err(stop(host, out, LiveFault::from(fault))),
    }
}
