// A manifest's engine that is asked over a pipe, and those that follow it. It relies on `host_live` for what its lines ask and what goes out, on
// `following` for whether another engine follows, and on `manifest` for configurations.

ghost use Rattle.std.specs.Prelude.{◌≡◌, ◌≢◌, ◌≤◌, [], false, ℕ, IfErr, IfOk, IsErrAnd, IsTrue, IsUtf8, List, OnErr, OnOk, Option};
ghost use Rattle.std.specs.Io.KnownBytes.{Appends, Keeps};
ghost use Rattle.engine_core.specs.ByNumber.{IsBehind};
ghost use Rattle.trace.specs.Growing.{IsFront};
ghost use Rattle.host_metrics.specs.Counted.{MetricsState};
ghost use Rattle.whole_trace.specs.Continued.{items_of};
ghost use Rattle.host_live.specs.Answering.{Answer};
ghost use Rattle.host_live.specs.Inputs.{CameState};
ghost use Rattle.host_live.specs.Turns.{IsSomewhere};
ghost use Rattle.host_live.specs.declared.lines.Lines.{Lines as TheLines};
ghost use Rattle.host_journal.specs.Made.{IsFirstEngine, made_of};
ghost use Rattle.cli_commands.specs.Alone.{GoesAlone, HasStatusAlone, IsFirstOf, IsOutcomeAlone, IsServedFrom, IsTraceFirst, ServedAlone, owed_of};
ghost use Rattle.cli_commands.specs.Faults.{status_of};
ghost use Rattle.cli_commands.specs.Journaling.{HasFollowed, IfEnded, IfFollowed, IfServed, IsFirstLines, IsOnward};
ghost use Rattle.cli_commands.specs.Told.{IsFaultyManifest, IsManifest, IsServing};
ghost use Rattle.cli_commands.specs.declared.serving.Outcome.TheVariants.{Ended, Followed};

use crate::fault::Fault;
use crate::files::text;
use crate::following::{Desk, GivenManifest, InForce, Next, copied};
use crate::journal_reports::Place;
use crate::metering::{MetricsFile, taken_metrics};
use base::OrMemory;
use engine_core::NumberedEngine;
use host_journal::{Begun, JournalError, first_engine, first_text};
use host_live::{Input, Lines, LiveFault, Manner, Outlet, put_all};
use manifest::Manifest;
use std::alloc::{AllocError, Global};
use std::io::Write;
use std::marker::{Brand, PhantomData};

/// How the input is called where it cannot be read.
pub(crate) const INPUT: &str = "standard input";

/// What became of an engine that was served.
#[derive(Drop)]
pub(crate) enum Outcome {
    /// Nothing more is served, and that is the status.
    Ended(u8),
    /// That follows.
    Followed(Next),
}

/// Carries out what the lines of an input ask of an engine of a manifest, a path and its bytes, and of those that follow it, until the input
/// ends, and answers the status: 0 at its end; 1 if the manifest is refused, before anything goes out; 2 for want of memory, or if the input
/// or a sink fails. The traces of the engines go out line by line, one after the other. A line that is not carried out is told on `err`, and
/// changes nothing.
pub fn serve<I: Input, S: Outlet, M: GivenManifest + MetricsFile, E: Write>(
    alloc: Global,
    manifest: (&str, &[u8]),
    manner: Manner,
    given: &mut M,
    input: &mut I,
    out: &mut S,
    err: &mut E,
) -> u8
    ensures status { result ≤ 2 }
    ensures no_text { ¬ (IsUtf8 manifest.entry.1.now) → result ≡ 2 }
    ensures done { result ≡ 0 → IsManifest manifest.entry.1.now }
    // All that went out is the trace of an engine of the manifest, and of each engine that followed, by what the lines that came asked for, one
    // by one; and each was answered so. Where it stopped, it is a front of that. The records of each engine are counted, over what the engine
    // before it left, and the first engine's over what was given.
    ensures served { ServedAlone M.may_read manifest.entry.1.now manner (I.came input.old) (M.counts given.old) (I.came input.new) (S.bytes out.old) (S.answers out.old) (S.bytes out.new) (S.answers out.new) (M.counts given.new) result }
    // A replay over the manifest accepts what went out first.
    ensures accepted { result ≡ 0 → IsTraceFirst manifest.entry.1.now (S.bytes out.old) (S.bytes out.new) }
    // It is at its end only if no read failed, and all of the input was read, or where lines are answered one of them ended it.
    ensures read { result ≡ 0 → I.has_failed input.new ≡ I.has_failed input.old }
    ensures ended { manner.is_told ≡ false → result ≡ 0 → IsTrue (I.has_ended input.new) }
    ensures refused { result ≡ 1 → IsFaultyManifest manifest.entry.1.now }
    ensures nothing { result ≡ 1 → Keeps (S.bytes out.old) (S.bytes out.new) }
{
    match first_of(alloc, manifest) {
        Ok(first) => {
            let place = Place {
                alloc,
                folder: "",
                path: manifest.0,
            };
            serve_all(place, first, manner, given, input, out, err)
        }
        Err(fault) => fault.report(err),
    }
}

// What the first engine begins with: the manifest, a path and its bytes.
fn first_of<'a>(alloc: Global, file: (&'a str, &[u8])) -> Result<Next, Fault<'a>>
    ensures no_text { ¬ (IsUtf8 file.entry.1.now) → IsErrAnd result (λ e. status_of e ≡ 2) }
    ensures first { IfOk result (IsFirstOf file.entry.1.now) }
    ensures fault { IfErr result (λ e. status_of e ≡ 1 → IsFaultyManifest file.entry.1.now) }
{
    let manifest = read(alloc, file)?;
    match copied(alloc, file.1) {
        Ok(bytes) => Ok(Next {
            number: 1,
            bytes,
            config: manifest.config,
            carried: None,
        }),
        Err(AllocError) => Err(Fault::OutOfMemory),
    }
}

// The manifest, a path and its bytes.
fn read<'a>(alloc: Global, file: (&'a str, &[u8])) -> Result<Manifest, Fault<'a>>
    ensures no_text { ¬ (IsUtf8 file.entry.1.now) → IsErrAnd result (λ e. status_of e ≡ 2) }
    ensures manifest { IfOk result (λ manifest. IsServing file.entry.1.now manifest.config) }
    ensures fault { IfErr result (λ e. status_of e ≡ 1 → IsFaultyManifest file.entry.1.now) }
{
    Ok(manifest::read(alloc, text(file)?)?)
}

// Serves an engine that begins so, and then each that follows.
fn serve_all<I: Input, S: Outlet, M: GivenManifest + MetricsFile, E: Write>(
    place: Place<'_>,
    first: Next,
    manner: Manner,
    given: &mut M,
    input: &mut I,
    out: &mut S,
    err: &mut E,
) -> u8
    ensures status { (result ≤ 2) × (result ≢ 1) }
    ensures served { (lines : TheLines) × IsFirstLines (I.came input.old) lines × GoesAlone M.may_read manner (Followed first) (I.came input.old) lines (S.bytes out.old) (S.answers out.old) (M.counts given.old) (I.came input.new) (S.bytes out.new) (S.answers out.new) (M.counts given.new) result }
    ensures read { result ≡ 0 → I.has_failed input.new ≡ I.has_failed input.old }
    ensures ended { manner.is_told ≡ false → result ≡ 0 → IsTrue (I.has_ended input.new) }
{
    let mut lines = Lines::of(input, 0);
    let mut outcome = Outcome::Followed(first);
    loop {
        match outcome {
            Outcome::Ended(status) => return status,
            Outcome::Followed(next) => {
                outcome = serve_next(place, next, manner, given, input, &mut lines, out, err);
            }
        }
    }
}

// Serves an engine that begins so.
fn serve_next<I: Input, S: Outlet, M: GivenManifest + MetricsFile, E: Write>(
    place: Place<'_>,
    next: Next,
    manner: Manner,
    given: &mut M,
    input: &mut I,
    lines: &mut Lines,
    out: &mut S,
    err: &mut E,
) -> Outcome
    requires going { IsTrue lines.old.is_ended → IsTrue (I.has_ended input.old) }
    requires somewhere { IsSomewhere (I.came input.old) lines.old }
    ensures status { HasStatusAlone result }
    ensures read { IfServed result (I.has_failed input.new ≡ I.has_failed input.old) }
    ensures ended { manner.is_told ≡ false → IfEnded result (IsTrue (I.has_ended input.new)) }
    ensures going { IfFollowed result (IsTrue lines.new.is_ended → IsTrue (I.has_ended input.new)) }
    ensures stands { IfFollowed result (IsSomewhere (I.came input.new) lines.new) }
    ensures onward { IsOnward next.number result }
    ensures rest { (last : Option CameState) (at : Option (List ℕ)) (told : Option (List Answer)) (left : MetricsState) (status : ℕ) → GoesAlone M.may_read manner result (I.came input.new) lines.new (S.bytes out.new) (S.answers out.new) (M.counts given.new) last at told left status → GoesAlone M.may_read manner (Followed next) (I.came input.old) lines.old (S.bytes out.old) (S.answers out.old) (M.counts given.old) last at told left status }
{
    let Next {
        number,
        bytes,
        config,
        carried,
    } = next;
    let own = bytes.as_slice();
    let begun = Begun {
        number,
        config,
        manifest: Some(own),
        carried,
    };
    match put_first(place.alloc, &begun, out) {
        Ok(engine) => serve_begun(
            place, &begun, own, engine, manner, given, input, lines, out, err,
        ),
        Err(fault) => Outcome::Ended(report(fault, err)),
    }
}

// Puts out what the engine's trace begins with, and returns the engine.
fn put_first<'a, S: Outlet>(
    alloc: Global,
    begun: &'a Begun<'_>,
    out: &mut S,
) -> Result<NumberedEngine<'a>, LiveFault>
    ensures first { IfOk result (IsFirstEngine begun.now.config (items_of begun.now.carried)) }
    ensures behind { IfOk result (IsBehind []) }
    ensures put { OnOk result (Appends (S.bytes out.old) (S.bytes out.new) (made_of begun.now)) }
    ensures part { OnErr result (IsFront (made_of begun.now) (S.bytes out.old) (S.bytes out.new)) }
    ensures answers { S.answers out.new ≡ S.answers out.old }
{
    let first = match first_text(alloc, begun) {
        Ok(first) => first,
        Err(error) => return Err(live_fault(error)),
    };
    match first_engine(alloc, begun) {
        Ok(engine) => match put_text(first.as_slice(), out) {
            Ok(()) => Ok(engine),
            Err(fault) => Err(fault),
        },
        Err(error) => Err(live_fault(error)),
    }
}

// Puts out a text.
fn put_text<S: Outlet>(text: &[u8], out: &mut S) -> Result<(), LiveFault>
    ensures put { OnOk result (Appends (S.bytes out.old) (S.bytes out.new) text.now) }
    ensures part { OnErr result (IsFront text.now (S.bytes out.old) (S.bytes out.new)) }
    ensures answers { S.answers out.new ≡ S.answers out.old }
{
    match put_all(text, out) {
        Ok(()) => Ok(()),
        Err(_) => Err(LiveFault::Unwritten),
    }
}

// Why an engine did not begin.
fn live_fault(error: JournalError) -> LiveFault {
    match error {
        OrMemory::OutOfMemory => LiveFault::OutOfMemory,
        OrMemory::Fault(_) => LiveFault::InternalError,
    }
}

// Serves this engine, of which no record was made.
fn serve_begun<I: Input, S: Outlet, M: GivenManifest + MetricsFile, E: Write>(
    place: Place<'_>,
    begun: &Begun<'_>,
    own: &[u8],
    engine: NumberedEngine<'_>,
    manner: Manner,
    given: &mut M,
    input: &mut I,
    lines: &mut Lines,
    out: &mut S,
    err: &mut E,
) -> Outcome
    requires behind { IsBehind [] engine }
    requires going { IsTrue lines.old.is_ended → IsTrue (I.has_ended input.old) }
    requires somewhere { IsSomewhere (I.came input.old) lines.old }
    ensures status { HasStatusAlone result }
    ensures read { IfServed result (I.has_failed input.new ≡ I.has_failed input.old) }
    ensures ended { manner.is_told ≡ false → IfEnded result (IsTrue (I.has_ended input.new)) }
    ensures going { IfFollowed result (IsTrue lines.new.is_ended → IsTrue (I.has_ended input.new)) }
    ensures stands { IfFollowed result (IsSomewhere (I.came input.new) lines.new) }
    ensures onward { IsOnward begun.now.number result }
    ensures served { IsServedFrom M.may_read begun.now.number own.now engine.entry manner (owed_of (items_of begun.now.carried) lines.old.number) (I.came input.old) lines.old (S.bytes out.old) (S.answers out.old) (M.counts given.old) (I.came input.new) lines.new (S.bytes out.new) (S.answers out.new) (M.counts given.new) result }
{
    serve_under::<Brand, I, S, M, E>(
        place, begun, own, engine, manner, given, input, lines, out, err,
    )
}

// The same, with these in force.
fn serve_under<F: InForce, I: Input, S: Outlet, M: GivenManifest + MetricsFile, E: Write>(
    place: Place<'_>,
    begun: &Begun<'_>,
    own: &[u8],
    engine: NumberedEngine<'_>,
    manner: Manner,
    given: &mut M,
    input: &mut I,
    lines: &mut Lines,
    out: &mut S,
    err: &mut E,
) -> Outcome
    requires behind { IsBehind [] engine }
    requires number { F.number ≡ begun.now.number }
    requires own { F.own ≡ own.now }
    requires going { IsTrue lines.old.is_ended → IsTrue (I.has_ended input.old) }
    requires somewhere { IsSomewhere (I.came input.old) lines.old }
    ensures status { HasStatusAlone result }
    ensures read { IfServed result (I.has_failed input.new ≡ I.has_failed input.old) }
    ensures ended { manner.is_told ≡ false → IfEnded result (IsTrue (I.has_ended input.new)) }
    ensures going { IfFollowed result (IsTrue lines.new.is_ended → IsTrue (I.has_ended input.new)) }
    ensures stands { IfFollowed result (IsSomewhere (I.came input.new) lines.new) }
    ensures onward { IsOnward begun.now.number result }
    ensures served { IsServedFrom M.may_read begun.now.number own.now engine.entry manner (owed_of (items_of begun.now.carried) lines.old.number) (I.came input.old) lines.old (S.bytes out.old) (S.answers out.old) (M.counts given.old) (I.came input.new) lines.new (S.bytes out.new) (S.answers out.new) (M.counts given.new) result }
{
    let alone = Manner {
        is_stepped: manner.is_stepped,
        is_told: manner.is_told,
        is_clocked: manner.is_clocked,
        is_kept: false,
    };
    let mut metrics = taken_metrics(place.alloc, given, own, err);
    let mut desk: Desk<M, E, F> = Desk {
        alloc: place.alloc,
        err: &mut *err,
        given: &mut *given,
        path: place.path,
        own,
        number: begun.number,
        next: None,
        of: PhantomData,
    };
    let owed = owed_by(begun, lines);
    let served = host_live::serve(
        place.alloc,
        engine,
        0,
        alone,
        owed,
        &mut metrics,
        input,
        lines,
        out,
        &mut desk,
    );
    let Desk {
        alloc: _,
        err: _,
        given: _,
        path: _,
        own: _,
        number: _,
        next,
        of: _,
    } = desk;
    given.keep_metrics(metrics);
    outcome_of(begun.number, served, next, err)
}

// What became of the engine of that number that was served so, which that is to follow, if it was decided so.
fn outcome_of<E: Write>(
    number: u64,
    served: Result<bool, LiveFault>,
    next: Option<Next>,
    err: &mut E,
) -> Outcome
    ensures is { IsOutcomeAlone number served next result }
    ensures onward { IsOnward number result }
{
    match served {
        Ok(false) => Outcome::Ended(0),
        Ok(true) => followed(number, next, err),
        Err(fault) => Outcome::Ended(report(fault, err)),
    }
}

/// That follows the engine of that number, which was decided: its number is greater.
pub(crate) fn followed<E: Write>(number: u64, next: Option<Next>, err: &mut E) -> Outcome
    ensures is { HasFollowed number next result }
    ensures onward { IsOnward number result }
{
    match next {
        Some(next) => {
            if number < next.number {
                Outcome::Followed(next)
            } else {
                lost(err)
            }
        }
        None => lost(err),
    }
}

// What is to follow is not there, which cannot be.
fn lost<E: Write>(err: &mut E) -> Outcome
    ensures { result ≡ Ended 2 }
{
    let _ = Fault::InternalError.report(err);
    Outcome::Ended(2)
}

// The line that asked for the engine, if it follows another one: it is owed an answer.
fn owed_by(begun: &Begun<'_>, lines: &Lines) -> Option<usize>
    ensures { result ≡ owed_of (items_of begun.now.carried) lines.now.number }
{
    match begun.carried {
        Some(_) => Some(lines.number()),
        None => None,
    }
}

// Tells why a live engine stopped, but where the writer failed, and answers the status.
fn report<E: Write>(fault: LiveFault, err: &mut E) -> u8
    ensures { result ≡ 2 }
{
    match fault {
        LiveFault::OutOfMemory => Fault::OutOfMemory.report(err),
        LiveFault::Unread => Fault::File(INPUT).report(err),
        LiveFault::InternalError => Fault::InternalError.report(err),
        LiveFault::Unwritten => 2,
    }
}
