// What came is carried out: a line, one that was cut off, or the reading at which a timer is due. It relies on `host` for what lines ask.

ghost use Rattle.std.specs.Prelude.{◌≡◌, ◌≢◌, ℕ, List, Ok, Err, OnOk, false};
ghost use Rattle.host_live.specs.Drafts.{IsDraftOf};
ghost use Rattle.host_live.specs.Growth.{GrowsAs};
ghost use Rattle.host_live.specs.Metering.{HasCounted};
ghost use Rattle.host_live.specs.Served.{Carries, CarriesCut, CarriesLine, CarriesReading, IsLineNow, MayCome};
ghost use Rattle.host_live.specs.declared.lines.Next.TheVariants.{End, Failed};
ghost use Rattle.host_live.specs.declared.answering.Turn.TheVariants.{End as AtEnd};
ghost use Rattle.host_live.specs.declared.serving.LiveFault.TheVariants.{Unread, Unwritten};

use crate::answering::Turn;
use crate::host::Host;
use crate::input::Input;
use crate::lines::{Lines, Next};
use crate::manner::Manner;
use crate::outlet::Outlet;
use crate::reports::Reports;
use crate::serving::LiveFault;

/// Carries out what the line asks that came, or takes the reading at which a timer is due.
pub(crate) fn carry_out<I: Input, S: Outlet, N: Reports>(
    host: &mut Host<'_>,
    manner: Manner,
    next: Next,
    input: &I,
    lines: &Lines,
    out: &mut S,
    reports: &mut N,
) -> Result<Turn, LiveFault>
    requires due { MayCome manner next }
    ensures carried { (line : List ℕ) → IsLineNow next lines.now line → GrowsAs (Carries manner next line result host.new.engine.engine) host.old.engine (S.bytes out.old) (S.failures out.old) host.new.engine (S.bytes out.new) (S.failures out.new) }
    ensures counted { HasCounted host.old.engine.engine host.old.engine.metrics host.new.engine.engine host.new.engine.metrics }
    ensures answers { S.answers out.new ≡ S.answers out.old }
    ensures unread { result ≡ Err Unread → next ≡ Failed }
    ensures read { OnOk result (next ≢ Failed) }
    ensures ended { result ≡ Ok AtEnd → next ≡ End }
    ensures written { result ≢ Err Unwritten }
{
    match next {
        Next::Line => carry_line(host, manner, input, lines, out, reports),
        Next::Cut => carry_cut(host, manner, input, lines, out, reports),
        Next::Nothing => Ok(Turn::Timer),
        Next::Due(reading) => carry_reading(host, reading, out),
        Next::End => Ok(Turn::End),
        Next::Failed => Err(LiveFault::Unread),
    }
}

// Carries out what the line asks that came.
fn carry_line<I: Input, S: Outlet, N: Reports>(
    host: &mut Host<'_>,
    manner: Manner,
    input: &I,
    lines: &Lines,
    out: &mut S,
    reports: &mut N,
) -> Result<Turn, LiveFault>
    ensures carried { (line : List ℕ) → IsDraftOf line lines.now.draft → lines.now.is_ended ≡ false → GrowsAs (CarriesLine manner line result host.new.engine.engine) host.old.engine (S.bytes out.old) (S.failures out.old) host.new.engine (S.bytes out.new) (S.failures out.new) }
    ensures counted { HasCounted host.old.engine.engine host.old.engine.metrics host.new.engine.engine host.new.engine.metrics }
    ensures answers { S.answers out.new ≡ S.answers out.old }
    ensures unread { result ≢ Err Unread }
    ensures ended { result ≢ Ok AtEnd }
    ensures written { result ≢ Err Unwritten }
{
    match host.serve_line(
        manner,
        lines.line(),
        lines.number(),
        lines.now(manner, input),
        reports,
        out,
    ) {
        Ok(served) => Ok(Turn::Line(served)),
        Err(fault) => Err(LiveFault::from(fault)),
    }
}

// A line that is cut off asks for nothing.
fn carry_cut<I: Input, S: Outlet, N: Reports>(
    host: &mut Host<'_>,
    manner: Manner,
    input: &I,
    lines: &Lines,
    out: &mut S,
    reports: &mut N,
) -> Result<Turn, LiveFault>
    ensures carried { GrowsAs (CarriesCut manner result) host.old.engine (S.bytes out.old) (S.failures out.old) host.new.engine (S.bytes out.new) (S.failures out.new) }
    ensures answers { S.answers out.new ≡ S.answers out.old }
    ensures unread { result ≢ Err Unread }
    ensures ended { result ≢ Ok AtEnd }
    ensures written { result ≢ Err Unwritten }
{
    match host.serve_asked(
        manner,
        None,
        lines.number(),
        lines.now(manner, input),
        reports,
        out,
    ) {
        Ok(served) => Ok(Turn::Line(served)),
        Err(fault) => Err(LiveFault::from(fault)),
    }
}

// Takes the reading at which a timer is due.
fn carry_reading<S: Outlet>(
    host: &mut Host<'_>,
    reading: u64,
    out: &mut S,
) -> Result<Turn, LiveFault>
    ensures carried { GrowsAs (CarriesReading reading result) host.old.engine (S.bytes out.old) (S.failures out.old) host.new.engine (S.bytes out.new) (S.failures out.new) }
    ensures answers { S.answers out.new ≡ S.answers out.old }
    ensures unread { result ≢ Err Unread }
    ensures ended { result ≢ Ok AtEnd }
    ensures written { result ≢ Err Unwritten }
{
    match host.read_due_timer(reading, out) {
        Ok(()) => Ok(Turn::Timer),
        Err(fault) => Err(LiveFault::from(fault)),
    }
}
