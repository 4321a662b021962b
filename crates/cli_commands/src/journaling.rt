// An engine with a journal, and those that follow it, over a disk. It relies on `host_journal` for segments, on `journal_engine` for the engine
// of one, and on `journal_reports` for how faults are reported.

ghost use Rattle.std.specs.Prelude.{◌≡◌, ◌≤◌, ℕ, Bool, IsTrue, List, None, Option, false, option_map, true};
ghost use Rattle.host_metrics.specs.Counted.{MetricsState};
ghost use Rattle.host_live.specs.Growth.{StandsBehind};
ghost use Rattle.host_live.specs.Inputs.{CameState};
ghost use Rattle.host_live.specs.Turns.{IsSomewhere};
ghost use Rattle.host_journal.specs.Disks.{Held, Step};
ghost use Rattle.host_journal.specs.Starts.{Finds, HasEntered};
ghost use Rattle.cli_commands.specs.Journaling.{HasNext, HasOpened, HasStatus, IfEnded, IfFollowed, IfServed, IsFirstLines, IsNextGiven, IsOfMade, IsOnward, IsOwn, ServesOn, Starts};
ghost use Rattle.cli_commands.specs.declared.serving.Outcome.TheVariants.{Followed};

use crate::following::{GivenManifest, Next};
use crate::journal_engine::{Terms, serve_engine, serve_first};
use crate::journal_reports::{Place, report, report_carried, report_recovered};
use crate::metering::MetricsFile;
use crate::serving::Outcome;
use engine_succession::Numbering;
use host_journal::{Begun, Disk, NextManifest, begin, follow, manifest_of, open};
use host_live::{Input, Lines, Manner};
use host_recovery::Recovered;
use std::alloc::Global;
use std::io::Write;

/// Carries out what the lines of an input ask of the engine of a journal, whose folder the disk is, and of those that follow it, until the
/// input ends, and returns the status: 0 at its end; 1 if the journal or the manifest, a path and its bytes, is refused, and then nothing
/// changed but the lock's file; 2 for want of memory, or if a file, the input or the output fails. What was recovered is reported on `err`.
/// Each line of a trace stands in the journal's segment before it goes out. The disk comes back.
pub fn serve_journal<D: Disk, I: Input, M: GivenManifest + MetricsFile, E: Write>(
    alloc: Global,
    mut disk: D,
    folder: &str,
    manifest: Option<(&str, &[u8])>,
    manner: Manner,
    is_synced: bool,
    given: &mut M,
    input: &mut I,
    err: &mut E,
) -> (D, u8)
    ensures status { result.1 ≤ 2 }
    // Why it was refused; or which segment was begun or recovered, what the lines of the input led to, which segments followed, and in which
    // order each segment and standard output were written. The records that each engine made are counted, over what the engine before it left,
    // and the first engine's over what was given.
    ensures starts { Starts M.may_read manner is_synced (D.held disk) (option_map (λ file. file.1.now) manifest.entry) (D.steps disk) (I.came input.old) (M.counts given.old) (D.steps result.0) (I.came input.new) (M.counts given.new) result.1 }
    // All of the input was read, and no read failed. Only where lines are answered one of them may end it.
    ensures read { result.1 ≡ 0 → I.has_failed input.new ≡ I.has_failed input.old }
    ensures ended { manner.is_told ≡ false → result.1 ≡ 0 → IsTrue (I.has_ended input.new) }
{
    let path = match manifest {
        Some((path, _)) => path,
        None => "",
    };
    let place = Place {
        alloc,
        folder,
        path,
    };
    let terms = Terms {
        alloc,
        place,
        given: bytes_of(manifest),
        manner,
        is_synced,
    };
    match begin(alloc, &mut disk, terms.given) {
        Ok(begun) => {
            let mut lines = Lines::of(input, 0);
            let (disk, outcome) = serve_begun(terms, disk, &begun, given, input, &mut lines, err);
            serve_rest(terms, disk, outcome, given, input, &mut lines, err)
        }
        Err(fault) => (disk, report(terms.place, fault, err)),
    }
}

// The bytes of the manifest that is given.
fn bytes_of<'b>(manifest: Option<(&str, &'b [u8])>) -> Option<&'b [u8]>
    ensures { option_map (λ bytes. bytes.now) result ≡ option_map (λ file. file.1.now) manifest.entry }
{
    match manifest {
        Some((_, bytes)) => Some(bytes),
        None => None,
    }
}

// The engine of this segment was served, or none was. The same of each that follows.
fn serve_rest<D: Disk, I: Input, M: GivenManifest + MetricsFile, E: Write>(
    terms: Terms<'_>,
    mut disk: D,
    mut outcome: Outcome,
    given: &mut M,
    input: &mut I,
    lines: &mut Lines,
    err: &mut E,
) -> (D, u8)
    requires going { IfFollowed outcome (IsTrue lines.old.is_ended → IsTrue (I.has_ended input.old)) }
    requires stands { IfFollowed outcome (IsSomewhere (I.came input.old) lines.old) }
    requires status { HasStatus outcome }
    ensures status { result.1 ≤ 2 }
    ensures rest { ServesOn M.may_read terms.entry.manner terms.entry.is_synced outcome (D.steps disk) (I.came input.old) lines.old (M.counts given.old) (D.steps result.0) (I.came input.new) (M.counts given.new) result.1 }
    ensures read { (failed : Bool) → IfServed outcome (I.has_failed input.old ≡ failed) → result.1 ≡ 0 → I.has_failed input.new ≡ failed }
    ensures ended { terms.entry.manner.is_told ≡ false → IfEnded outcome (IsTrue (I.has_ended input.old)) → result.1 ≡ 0 → IsTrue (I.has_ended input.new) }
{
    loop {
        match outcome {
            Outcome::Ended(status) => return (disk, status),
            Outcome::Followed(next) => {
                (disk, outcome) = serve_next(terms, disk, next, given, input, lines, err);
            }
        }
    }
}

// Makes the segment that follows, and serves its engine.
fn serve_next<D: Disk, I: Input, M: GivenManifest + MetricsFile, E: Write>(
    terms: Terms<'_>,
    mut disk: D,
    next: Next,
    given: &mut M,
    input: &mut I,
    lines: &mut Lines,
    err: &mut E,
) -> (D, Outcome)
    requires begun { IsTrue lines.old.is_ended → IsTrue (I.has_ended input.old) }
    requires somewhere { IsSomewhere (I.came input.old) lines.old }
    ensures status { HasStatus result.1 }
    ensures read { IfServed result.1 (I.has_failed input.new ≡ I.has_failed input.old) }
    ensures ended { terms.entry.manner.is_told ≡ false → IfEnded result.1 (IsTrue (I.has_ended input.new)) }
    ensures going { IfFollowed result.1 (IsTrue lines.new.is_ended → IsTrue (I.has_ended input.new)) }
    ensures stands { IfFollowed result.1 (IsSomewhere (I.came input.new) lines.new) }
    ensures onward { IsOnward next.number result.1 }
    ensures rest { (new : Option (List Step)) (last : Option CameState) (left : MetricsState) (status : ℕ) → ServesOn M.may_read terms.entry.manner terms.entry.is_synced result.1 (D.steps result.0) (I.came input.new) lines.new (M.counts given.new) new last left status → ServesOn M.may_read terms.entry.manner terms.entry.is_synced (Followed next) (D.steps disk) (I.came input.old) lines.old (M.counts given.old) new last left status }
{
    let Next {
        number,
        bytes,
        config,
        carried,
    } = next;
    let own = bytes.as_slice();
    let begun = Begun {
        number,
        config,
        manifest: Some(own),
        carried,
    };
    match open(terms.alloc, &mut disk, &begun) {
        Ok(recovered) => {
            let owed = Some(lines.number());
            serve_engine(
                terms, disk, &begun, own, recovered, owed, given, input, lines, err,
            )
        }
        Err(fault) => (disk, Outcome::Ended(report(terms.place, fault, err))),
    }
}

// Serves the engine of this segment; if that was shut, that of the segment that follows, with the manifest that is given.
fn serve_begun<D: Disk, I: Input, M: GivenManifest + MetricsFile, E: Write>(
    terms: Terms<'_>,
    disk: D,
    begun: &Begun<'_>,
    given: &mut M,
    input: &mut I,
    lines: &mut Lines,
    err: &mut E,
) -> (D, Outcome)
    requires begun { lines.old.is_ended ≡ false }
    requires first { IsFirstLines (I.came input.old) lines.old }
    ensures status { HasStatus result.1 }
    ensures read { IfServed result.1 (I.has_failed input.new ≡ I.has_failed input.old) }
    ensures ended { terms.entry.manner.is_told ≡ false → IfEnded result.1 (IsTrue (I.has_ended input.new)) }
    ensures going { IfFollowed result.1 (IsTrue lines.new.is_ended → IsTrue (I.has_ended input.new)) }
    ensures stands { IfFollowed result.1 (IsSomewhere (I.came input.new) lines.new) }
    ensures starts { (held : Held) (old : Option (List Step)) → D.held disk ≡ held → Finds held (option_map (λ bytes. bytes.now) terms.entry.given) begun.now → HasEntered (option_map (λ bytes. bytes.now) terms.entry.given) old (D.steps disk) → (new : Option (List Step)) (last : Option CameState) (left : MetricsState) (status : ℕ) → ServesOn M.may_read terms.entry.manner terms.entry.is_synced result.1 (D.steps result.0) (I.came input.new) lines.new (M.counts given.new) new last left status → Starts M.may_read terms.entry.manner terms.entry.is_synced held (option_map (λ bytes. bytes.now) terms.entry.given) old (I.came input.old) (M.counts given.old) new last left status }
{
    match begun.manifest {
        Some(own) => serve_owned(terms, disk, begun, own, given, input, lines, err),
        None => serve_found(terms, disk, begun, given, input, lines, err),
    }
}

// The same of a segment that is there.
fn serve_found<D: Disk, I: Input, M: GivenManifest + MetricsFile, E: Write>(
    terms: Terms<'_>,
    mut disk: D,
    begun: &Begun<'_>,
    given: &mut M,
    input: &mut I,
    lines: &mut Lines,
    err: &mut E,
) -> (D, Outcome)
    requires there { begun.now.manifest ≡ None }
    requires begun { lines.old.is_ended ≡ false }
    requires first { IsFirstLines (I.came input.old) lines.old }
    ensures status { HasStatus result.1 }
    ensures read { IfServed result.1 (I.has_failed input.new ≡ I.has_failed input.old) }
    ensures ended { terms.entry.manner.is_told ≡ false → IfEnded result.1 (IsTrue (I.has_ended input.new)) }
    ensures going { IfFollowed result.1 (IsTrue lines.new.is_ended → IsTrue (I.has_ended input.new)) }
    ensures stands { IfFollowed result.1 (IsSomewhere (I.came input.new) lines.new) }
    ensures starts { (held : Held) (old : Option (List Step)) → D.held disk ≡ held → Finds held (option_map (λ bytes. bytes.now) terms.entry.given) begun.now → HasEntered (option_map (λ bytes. bytes.now) terms.entry.given) old (D.steps disk) → (new : Option (List Step)) (last : Option CameState) (left : MetricsState) (status : ℕ) → ServesOn M.may_read terms.entry.manner terms.entry.is_synced result.1 (D.steps result.0) (I.came input.new) lines.new (M.counts given.new) new last left status → Starts M.may_read terms.entry.manner terms.entry.is_synced held (option_map (λ bytes. bytes.now) terms.entry.given) old (I.came input.old) (M.counts given.old) new last left status }
{
    match manifest_of(terms.alloc, &mut disk, begun.number) {
        Ok(own) => serve_owned(terms, disk, begun, own.as_slice(), given, input, lines, err),
        Err(fault) => (disk, Outcome::Ended(report(terms.place, fault, err))),
    }
}

// The same of a segment whose manifest has these bytes.
fn serve_owned<D: Disk, I: Input, M: GivenManifest + MetricsFile, E: Write>(
    terms: Terms<'_>,
    mut disk: D,
    begun: &Begun<'_>,
    own: &[u8],
    given: &mut M,
    input: &mut I,
    lines: &mut Lines,
    err: &mut E,
) -> (D, Outcome)
    requires begun { lines.old.is_ended ≡ false }
    requires first { IsFirstLines (I.came input.old) lines.old }
    ensures status { HasStatus result.1 }
    ensures read { IfServed result.1 (I.has_failed input.new ≡ I.has_failed input.old) }
    ensures ended { terms.entry.manner.is_told ≡ false → IfEnded result.1 (IsTrue (I.has_ended input.new)) }
    ensures going { IfFollowed result.1 (IsTrue lines.new.is_ended → IsTrue (I.has_ended input.new)) }
    ensures stands { IfFollowed result.1 (IsSomewhere (I.came input.new) lines.new) }
    ensures starts { (held : Held) (old : Option (List Step)) → D.held disk ≡ held → IsOwn held begun.now own.now → Finds held (option_map (λ bytes. bytes.now) terms.entry.given) begun.now → HasEntered (option_map (λ bytes. bytes.now) terms.entry.given) old (D.steps disk) → (new : Option (List Step)) (last : Option CameState) (left : MetricsState) (status : ℕ) → ServesOn M.may_read terms.entry.manner terms.entry.is_synced result.1 (D.steps result.0) (I.came input.new) lines.new (M.counts given.new) new last left status → Starts M.may_read terms.entry.manner terms.entry.is_synced held (option_map (λ bytes. bytes.now) terms.entry.given) old (I.came input.old) (M.counts given.old) new last left status }
{
    match open(terms.alloc, &mut disk, begun) {
        Ok(recovered) => serve_opened(terms, disk, begun, own, recovered, given, input, lines, err),
        Err(fault) => (disk, Outcome::Ended(report(terms.place, fault, err))),
    }
}

// The same of a segment that was opened.
fn serve_opened<D: Disk, I: Input, M: GivenManifest + MetricsFile, E: Write>(
    terms: Terms<'_>,
    disk: D,
    begun: &Begun<'_>,
    own: &[u8],
    recovered: Recovered<'_>,
    given: &mut M,
    input: &mut I,
    lines: &mut Lines,
    err: &mut E,
) -> (D, Outcome)
    requires behind { StandsBehind recovered.records recovered.engine }
    requires segment { D.segment disk ≡ begun.now.number }
    requires begun { lines.old.is_ended ≡ false }
    requires first { IsFirstLines (I.came input.old) lines.old }
    ensures status { HasStatus result.1 }
    ensures read { IfServed result.1 (I.has_failed input.new ≡ I.has_failed input.old) }
    ensures ended { terms.entry.manner.is_told ≡ false → IfEnded result.1 (IsTrue (I.has_ended input.new)) }
    ensures going { IfFollowed result.1 (IsTrue lines.new.is_ended → IsTrue (I.has_ended input.new)) }
    ensures stands { IfFollowed result.1 (IsSomewhere (I.came input.new) lines.new) }
    ensures starts { (held : Held) (old : Option (List Step)) → IsOwn held begun.now own.now → HasOpened held (option_map (λ bytes. bytes.now) terms.entry.given) old begun.now recovered.entry (D.steps disk) → (new : Option (List Step)) (last : Option CameState) (left : MetricsState) (status : ℕ) → ServesOn M.may_read terms.entry.manner terms.entry.is_synced result.1 (D.steps result.0) (I.came input.new) lines.new (M.counts given.new) new last left status → Starts M.may_read terms.entry.manner terms.entry.is_synced held (option_map (λ bytes. bytes.now) terms.entry.given) old (I.came input.old) (M.counts given.old) new last left status }
{
    if recovered.is_ended {
        return serve_after(
            terms, disk, begun, own, &recovered, given, input, lines, err,
        );
    }
    if begun.manifest.is_none() {
        report_recovered(&recovered, err);
    }
    serve_first(terms, disk, begun, own, recovered, given, input, lines, err)
}

// Serves the engine that follows that of this segment, which was shut, with the manifest that is given, or with these bytes, which are the
// segment's.
fn serve_after<D: Disk, I: Input, M: GivenManifest + MetricsFile, E: Write>(
    terms: Terms<'_>,
    disk: D,
    begun: &Begun<'_>,
    own: &[u8],
    recovered: &Recovered<'_>,
    given: &mut M,
    input: &mut I,
    lines: &mut Lines,
    err: &mut E,
) -> (D, Outcome)
    requires shut { recovered.now.is_ended ≡ true }
    requires begun { lines.old.is_ended ≡ false }
    requires first { IsFirstLines (I.came input.old) lines.old }
    ensures status { HasStatus result.1 }
    ensures read { IfServed result.1 (I.has_failed input.new ≡ I.has_failed input.old) }
    ensures ended { terms.entry.manner.is_told ≡ false → IfEnded result.1 (IsTrue (I.has_ended input.new)) }
    ensures going { IfFollowed result.1 (IsTrue lines.new.is_ended → IsTrue (I.has_ended input.new)) }
    ensures stands { IfFollowed result.1 (IsSomewhere (I.came input.new) lines.new) }
    ensures starts { (held : Held) (old : Option (List Step)) → IsOwn held begun.now own.now → HasOpened held (option_map (λ bytes. bytes.now) terms.entry.given) old begun.now recovered.now (D.steps disk) → (new : Option (List Step)) (last : Option CameState) (left : MetricsState) (status : ℕ) → ServesOn M.may_read terms.entry.manner terms.entry.is_synced result.1 (D.steps result.0) (I.came input.new) lines.new (M.counts given.new) new last left status → Starts M.may_read terms.entry.manner terms.entry.is_synced held (option_map (λ bytes. bytes.now) terms.entry.given) old (I.came input.old) (M.counts given.old) new last left status }
{
    match terms.given {
        Some(bytes) => {
            let manifest = NextManifest::Given(bytes);
            serve_following(
                terms, disk, begun, manifest, recovered, given, input, lines, err,
            )
        }
        None => {
            let manifest = NextManifest::Same(own);
            serve_following(
                terms, disk, begun, manifest, recovered, given, input, lines, err,
            )
        }
    }
}

// The same with this manifest.
fn serve_following<D: Disk, I: Input, M: GivenManifest + MetricsFile, E: Write>(
    terms: Terms<'_>,
    disk: D,
    begun: &Begun<'_>,
    manifest: NextManifest<'_>,
    recovered: &Recovered<'_>,
    given: &mut M,
    input: &mut I,
    lines: &mut Lines,
    err: &mut E,
) -> (D, Outcome)
    requires shut { recovered.now.is_ended ≡ true }
    requires begun { lines.old.is_ended ≡ false }
    requires first { IsFirstLines (I.came input.old) lines.old }
    ensures status { HasStatus result.1 }
    ensures read { IfServed result.1 (I.has_failed input.new ≡ I.has_failed input.old) }
    ensures ended { terms.entry.manner.is_told ≡ false → IfEnded result.1 (IsTrue (I.has_ended input.new)) }
    ensures going { IfFollowed result.1 (IsTrue lines.new.is_ended → IsTrue (I.has_ended input.new)) }
    ensures stands { IfFollowed result.1 (IsSomewhere (I.came input.new) lines.new) }
    ensures starts { (held : Held) (old : Option (List Step)) → IsNextGiven (option_map (λ bytes. bytes.now) terms.entry.given) (held.manifests begun.now.number) manifest.entry → HasOpened held (option_map (λ bytes. bytes.now) terms.entry.given) old begun.now recovered.now (D.steps disk) → (new : Option (List Step)) (last : Option CameState) (left : MetricsState) (status : ℕ) → ServesOn M.may_read terms.entry.manner terms.entry.is_synced result.1 (D.steps result.0) (I.came input.new) lines.new (M.counts given.new) new last left status → Starts M.may_read terms.entry.manner terms.entry.is_synced held (option_map (λ bytes. bytes.now) terms.entry.given) old (I.came input.old) (M.counts given.old) new last left status }
{
    let engine = &recovered.engine;
    match follow(terms.alloc, begun.number, engine, manifest, Numbering::Same) {
        Ok(next) => serve_made(
            terms,
            disk,
            &next,
            manifest.bytes(),
            given,
            input,
            lines,
            err,
        ),
        Err(fault) => (disk, Outcome::Ended(report(terms.place, fault, err))),
    }
}

// Makes the next segment, whose manifest has these bytes, and serves its engine.
fn serve_made<D: Disk, I: Input, M: GivenManifest + MetricsFile, E: Write>(
    terms: Terms<'_>,
    mut disk: D,
    next: &Begun<'_>,
    own: &[u8],
    given: &mut M,
    input: &mut I,
    lines: &mut Lines,
    err: &mut E,
) -> (D, Outcome)
    requires begun { lines.old.is_ended ≡ false }
    requires first { IsFirstLines (I.came input.old) lines.old }
    ensures status { HasStatus result.1 }
    ensures read { IfServed result.1 (I.has_failed input.new ≡ I.has_failed input.old) }
    ensures ended { terms.entry.manner.is_told ≡ false → IfEnded result.1 (IsTrue (I.has_ended input.new)) }
    ensures going { IfFollowed result.1 (IsTrue lines.new.is_ended → IsTrue (I.has_ended input.new)) }
    ensures stands { IfFollowed result.1 (IsSomewhere (I.came input.new) lines.new) }
    ensures starts { (held : Held) (old : Option (List Step)) → IsOfMade next.now own.now → HasNext held (option_map (λ bytes. bytes.now) terms.entry.given) old next.now (D.steps disk) → (new : Option (List Step)) (last : Option CameState) (left : MetricsState) (status : ℕ) → ServesOn M.may_read terms.entry.manner terms.entry.is_synced result.1 (D.steps result.0) (I.came input.new) lines.new (M.counts given.new) new last left status → Starts M.may_read terms.entry.manner terms.entry.is_synced held (option_map (λ bytes. bytes.now) terms.entry.given) old (I.came input.old) (M.counts given.old) new last left status }
{
    match open(terms.alloc, &mut disk, next) {
        Ok(recovered) => {
            report_carried(&recovered, err);
            serve_first(terms, disk, next, own, recovered, given, input, lines, err)
        }
        Err(fault) => (disk, Outcome::Ended(report(terms.place, fault, err))),
    }
}
