// The engine of the segment that a start goes on with. It relies on `replaying` for a segment that is there.

ghost use Rattle.std.specs.Prelude.{◌≡◌, [], IfErr, IfOk, OnOk, false, true, length};
ghost use Rattle.engine_core.specs.ByNumber.{IsBehind};
ghost use Rattle.host_live.specs.Growth.{StandsBehind};
ghost use Rattle.host_journal.specs.Made.{made_of};
ghost use Rattle.host_journal.specs.Starts.{Cuts, CutsOff, IsUnmade, Makes, Opens, OpensFirst, OpensNext, Prepares};

use crate::beginning::Begun;
use crate::disk::Disk;
use crate::fault::{JournalError, JournalFile, of_file};
use crate::making::{carried_count, first_engine, first_text};
use crate::replaying::replayed;
use engine_core::NumberedEngine;
use host_recovery::Recovered;
use std::alloc::Global;

/// The engine of the segment that a start goes on with. A segment that is to be made is made, with its manifest: its engine was just opened,
/// or takes over what another one left. A segment that is there has an engine that stands after its records; if it has its last line, the
/// engine was shut, and else what is not whole is cut off, and the segment is appended to from now on. If the segment is refused, nothing in
/// the folder has changed.
pub fn open<'a, D: Disk>(
    alloc: Global,
    disk: &mut D,
    begun: &'a Begun<'_>,
) -> Result<Recovered<'a>, JournalError>
    ensures opens { Opens begun.now (D.held disk.old) (D.steps disk.old) (D.steps disk.new) result }
    ensures behind { IfOk result (λ recovered. StandsBehind recovered.records recovered.engine) }
    ensures which { OnOk result (D.segment disk.new ≡ begun.now.number) }
    ensures steps { Prepares begun.now (D.steps disk.old) result (D.steps disk.new) }
    // A segment whose engine was shut stays as it is.
    ensures still { IfOk result (λ recovered. recovered.is_ended ≡ true → D.held disk.new ≡ D.held disk.old) }
{
    match begun.manifest {
        Some(bytes) => make(alloc, disk, begun, bytes),
        None => go_on(alloc, disk, begun),
    }
}

// Makes the engine, the manifest and the segment.
fn make<'a, D: Disk>(
    alloc: Global,
    disk: &mut D,
    begun: &'a Begun<'_>,
    manifest: &[u8],
) -> Result<Recovered<'a>, JournalError>
    ensures opens { OpensFirst begun.now (D.steps disk.old) (D.steps disk.new) result }
    ensures behind { IfOk result (λ recovered. StandsBehind recovered.records recovered.engine) }
    ensures which { OnOk result (D.segment disk.new ≡ begun.now.number) }
    ensures steps { Makes begun.now.number manifest.now (made_of begun.now) (D.steps disk.old) result (D.steps disk.new) }
    ensures open { IfOk result (λ recovered. recovered.is_ended ≡ false) }
{
    let first = match first_text(alloc, begun) {
        Ok(first) => first,
        Err(error) => return Err(error),
    };
    match first_engine(alloc, begun) {
        Ok(engine) => {
            let carried = carried_count(begun);
            make_files(
                disk,
                begun.number,
                manifest,
                first.as_slice(),
                engine,
                carried,
            )
        }
        Err(error) => Err(error),
    }
}

// Makes the manifest, and the segment of these bytes with so many carried lines, for an engine of which no record was made.
fn make_files<'a, D: Disk>(
    disk: &mut D,
    number: u64,
    manifest: &[u8],
    first: &[u8],
    engine: NumberedEngine<'a>,
    carried: u64,
) -> Result<Recovered<'a>, JournalError>
    requires first { IsBehind [] engine }
    ensures made { IfOk result (λ recovered. (recovered.engine ≡ engine.entry) × (recovered.carried ≡ carried) × (recovered.records ≡ 0) × (recovered.whole ≡ length first.now) × (recovered.is_ended ≡ false)) }
    ensures unmade { IfErr result (IsUnmade (D.steps disk.old) (D.steps disk.new)) }
    ensures behind { IfOk result (λ recovered. StandsBehind recovered.records recovered.engine) }
    ensures which { OnOk result (D.segment disk.new ≡ number) }
    ensures steps { Makes number manifest.now first.now (D.steps disk.old) result (D.steps disk.new) }
{
    match disk.make_manifest(number, manifest) {
        Ok(()) => {}
        Err(fault) => return Err(of_file(fault, JournalFile::Manifest(number))),
    }
    match disk.make_segment(number, first) {
        Ok(()) => Ok(Recovered {
            engine,
            carried,
            records: 0,
            whole: first.len() as u64,
            is_ended: false,
        }),
        Err(fault) => Err(of_file(fault, JournalFile::Segment(number))),
    }
}

// Recovers the engine of the segment, and cuts off what is not whole.
fn go_on<'a, D: Disk>(
    alloc: Global,
    disk: &mut D,
    begun: &'a Begun<'_>,
) -> Result<Recovered<'a>, JournalError>
    ensures opens { OpensNext begun.now.config begun.now.number ((D.held disk.old).segments begun.now.number) (D.steps disk.old) (D.steps disk.new) result }
    ensures behind { IfOk result (λ recovered. StandsBehind recovered.records recovered.engine) }
    ensures which { OnOk result (D.segment disk.new ≡ begun.now.number) }
    ensures steps { Cuts begun.now.number (D.steps disk.old) result (D.steps disk.new) }
    ensures still { IfOk result (λ recovered. recovered.is_ended ≡ true → D.held disk.new ≡ D.held disk.old) }
{
    match replayed(alloc, disk, begun.number, &begun.config) {
        Ok(recovered) => cut(disk, begun.number, recovered),
        Err(error) => Err(error),
    }
}

// Cuts off what is not whole of a segment that has no last line.
fn cut<'a, D: Disk>(
    disk: &mut D,
    number: u64,
    recovered: Recovered<'a>,
) -> Result<Recovered<'a>, JournalError>
    requires { D.segment disk.old ≡ number }
    ensures which { D.segment disk.new ≡ D.segment disk.old }
    ensures steps { CutsOff number recovered.entry (D.steps disk.old) result (D.steps disk.new) }
    ensures still { IfOk result (λ cut. cut.is_ended ≡ true → D.held disk.new ≡ D.held disk.old) }
{
    if recovered.is_ended {
        return Ok(recovered);
    }
    match disk.cut(recovered.whole) {
        Ok(()) => Ok(recovered),
        Err(fault) => Err(of_file(fault, JournalFile::Segment(number))),
    }
}
