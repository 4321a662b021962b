// The engine of a segment, served until its input ends or another engine follows. It relies on `host_journal` for the segment, and on
// `following` for whether another engine follows.

ghost use Rattle.std.specs.Prelude.{◌≡◌, IsTrue, None, false};
ghost use Rattle.host_live.specs.Growth.{StandsBehind};
ghost use Rattle.host_live.specs.Turns.{IsSomewhere};
ghost use Rattle.cli_commands.specs.Journaling.{HasStatus, IfEnded, IfFollowed, IfServed, IsFirstLines, IsOnward, IsOutcome, IsServedTo};

use crate::following::{Desk, GivenManifest, InForce, Next};
use crate::journal_reports::{Place, report};
use crate::metering::{MetricsFile, taken_metrics};
use crate::serving::{Outcome, followed};
use host_journal::{Begun, Disk, JournalError, serve};
use host_live::{Input, Lines, Manner};
use host_recovery::Recovered;
use std::alloc::Global;
use std::io::Write;
use std::marker::{Brand, PhantomData};

/// What a start serves with: where its files are, and the bytes of the manifest that is given.
#[derive(Clone, Copy)]
pub(crate) struct Terms<'a> {
    pub(crate) alloc: Global,
    pub(crate) place: Place<'a>,
    pub(crate) given: Option<&'a [u8]>,
    pub(crate) manner: Manner,
    pub(crate) is_synced: bool,
}

/// Serves the engine of this segment, with which the start goes on: the input's clock goes on from what the engine's reads.
pub(crate) fn serve_first<D: Disk, I: Input, M: GivenManifest + MetricsFile, E: Write>(
    terms: Terms<'_>,
    disk: D,
    begun: &Begun<'_>,
    own: &[u8],
    recovered: Recovered<'_>,
    given: &mut M,
    input: &mut I,
    lines: &mut Lines,
    err: &mut E,
) -> (D, Outcome)
    requires behind { StandsBehind recovered.records recovered.engine }
    requires segment { D.segment disk ≡ begun.now.number }
    requires begun { lines.old.is_ended ≡ false }
    requires first { IsFirstLines (I.came input.old) lines.old }
    ensures status { HasStatus result.1 }
    ensures read { IfServed result.1 (I.has_failed input.new ≡ I.has_failed input.old) }
    ensures ended { terms.entry.manner.is_told ≡ false → IfEnded result.1 (IsTrue (I.has_ended input.new)) }
    ensures going { IfFollowed result.1 (IsTrue lines.new.is_ended → IsTrue (I.has_ended input.new)) }
    ensures stands { IfFollowed result.1 (IsSomewhere (I.came input.new) lines.new) }
    ensures served { IsServedTo M.may_read recovered.entry.engine recovered.entry.records begun.now own.now terms.entry.manner terms.entry.is_synced None (D.steps disk) (I.came input.old) lines.old (M.counts given.old) (D.steps result.0) (I.came input.new) lines.new (M.counts given.new) result.1 }
{
    lines.begin_at(recovered.engine.clock());
    serve_engine(
        terms, disk, begun, own, recovered, None, given, input, lines, err,
    )
}

/// Serves the engine of this segment, whose manifest has these bytes, and before it answers the line that is owed an answer.
pub(crate) fn serve_engine<D: Disk, I: Input, M: GivenManifest + MetricsFile, E: Write>(
    terms: Terms<'_>,
    disk: D,
    begun: &Begun<'_>,
    own: &[u8],
    recovered: Recovered<'_>,
    owed: Option<usize>,
    given: &mut M,
    input: &mut I,
    lines: &mut Lines,
    err: &mut E,
) -> (D, Outcome)
    requires behind { StandsBehind recovered.records recovered.engine }
    requires segment { D.segment disk ≡ begun.now.number }
    requires begun { IsTrue lines.old.is_ended → IsTrue (I.has_ended input.old) }
    requires somewhere { IsSomewhere (I.came input.old) lines.old }
    ensures status { HasStatus result.1 }
    ensures read { IfServed result.1 (I.has_failed input.new ≡ I.has_failed input.old) }
    ensures ended { terms.entry.manner.is_told ≡ false → IfEnded result.1 (IsTrue (I.has_ended input.new)) }
    ensures going { IfFollowed result.1 (IsTrue lines.new.is_ended → IsTrue (I.has_ended input.new)) }
    ensures stands { IfFollowed result.1 (IsSomewhere (I.came input.new) lines.new) }
    ensures onward { IsOnward begun.now.number result.1 }
    ensures served { IsServedTo M.may_read recovered.entry.engine recovered.entry.records begun.now own.now terms.entry.manner terms.entry.is_synced owed (D.steps disk) (I.came input.old) lines.old (M.counts given.old) (D.steps result.0) (I.came input.new) lines.new (M.counts given.new) result.1 }
{
    serve_under::<Brand, D, I, M, E>(
        terms, disk, begun, own, recovered, owed, given, input, lines, err,
    )
}

// The same, with these in force.
fn serve_under<F: InForce, D: Disk, I: Input, M: GivenManifest + MetricsFile, E: Write>(
    terms: Terms<'_>,
    disk: D,
    begun: &Begun<'_>,
    own: &[u8],
    recovered: Recovered<'_>,
    owed: Option<usize>,
    given: &mut M,
    input: &mut I,
    lines: &mut Lines,
    err: &mut E,
) -> (D, Outcome)
    requires behind { StandsBehind recovered.records recovered.engine }
    requires segment { D.segment disk ≡ begun.now.number }
    requires number { F.number ≡ begun.now.number }
    requires own { F.own ≡ own.now }
    requires begun { IsTrue lines.old.is_ended → IsTrue (I.has_ended input.old) }
    requires somewhere { IsSomewhere (I.came input.old) lines.old }
    ensures status { HasStatus result.1 }
    ensures read { IfServed result.1 (I.has_failed input.new ≡ I.has_failed input.old) }
    ensures ended { terms.entry.manner.is_told ≡ false → IfEnded result.1 (IsTrue (I.has_ended input.new)) }
    ensures going { IfFollowed result.1 (IsTrue lines.new.is_ended → IsTrue (I.has_ended input.new)) }
    ensures stands { IfFollowed result.1 (IsSomewhere (I.came input.new) lines.new) }
    ensures onward { IsOnward begun.now.number result.1 }
    ensures served { IsServedTo M.may_read recovered.entry.engine recovered.entry.records begun.now own.now terms.entry.manner terms.entry.is_synced owed (D.steps disk) (I.came input.old) lines.old (M.counts given.old) (D.steps result.0) (I.came input.new) lines.new (M.counts given.new) result.1 }
{
    let mut metrics = taken_metrics(terms.alloc, given, own, err);
    let mut desk: Desk<M, E, F> = Desk {
        alloc: terms.alloc,
        err: &mut *err,
        given: &mut *given,
        path: terms.place.path,
        own,
        number: begun.number,
        next: None,
        of: PhantomData,
    };
    let Recovered {
        engine,
        carried: _,
        records,
        whole: _,
        is_ended: _,
    } = recovered;
    let (disk, served) = serve(
        terms.alloc,
        disk,
        begun,
        engine,
        records,
        terms.manner,
        terms.is_synced,
        owed,
        &mut metrics,
        input,
        lines,
        &mut desk,
    );
    let Desk {
        alloc: _,
        err: _,
        given: _,
        path: _,
        own: _,
        number: _,
        next,
        of: _,
    } = desk;
    given.keep_metrics(metrics);
    (disk, outcome_of(terms, begun.number, served, next, err))
}

// What became of the engine of that number that was served so, which that is to follow, if it was decided so.
fn outcome_of<E: Write>(
    terms: Terms<'_>,
    number: u64,
    served: Result<bool, JournalError>,
    next: Option<Next>,
    err: &mut E,
) -> Outcome
    ensures is { IsOutcome number served next result }
    ensures onward { IsOnward number result }
{
    match served {
        Ok(false) => Outcome::Ended(0),
        Ok(true) => followed(number, next, err),
        Err(fault) => Outcome::Ended(report(terms.place, fault, err)),
    }
}
