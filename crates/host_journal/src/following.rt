// The segment that follows one whose engine was shut. It relies on `engine_carried` for what the engine leaves, and on `manifests` for the
// configuration.

ghost use Rattle.std.specs.Prelude.{◌≡◌, [], IfErr, IfOk};
ghost use Rattle.host_journal.specs.Disks.{IsText};
ghost use Rattle.host_journal.specs.Follows.{IsManifestRead, IsNext, IsNextConfig, IsNextFault, IsNotNext, bytes_of};

use crate::beginning::Begun;
use crate::disk::Disk;
use crate::fault::{JournalError, JournalFault, JournalFile, of_file};
use crate::manifests::{given, own};
use base::OrMemory;
use engine_carried::{Numbering, carried_lines_numbered, fits_numbered};
use engine_config::Config;
use engine_core::NumberedEngine;
use std::alloc::{AllocError, Global};

/// The bytes of the manifest of a segment that follows another one.
#[derive(Clone, Copy)]
pub enum NextManifest<'m> {
    /// Those of the manifest that is given.
    Given(&'m [u8]),
    /// Those of the manifest of the segment before.
    Same(&'m [u8]),
}

impl<'m> NextManifest<'m> {
    /// Its bytes.
    pub fn bytes(self) -> &'m [u8]
        ensures { result.now ≡ bytes_of self.entry }
    {
        match self {
            NextManifest::Given(bytes) => bytes,
            NextManifest::Same(bytes) => bytes,
        }
    }
}

/// Returns the bytes of the manifest of the segment of that number.
pub fn manifest_of<D: Disk>(
    alloc: Global,
    disk: &mut D,
    number: u64,
) -> Result<Vec<u8>, JournalError>
    ensures bytes { IfOk result (λ bytes. IsText ((D.held disk.old).manifests number) bytes.items) }
    ensures held { D.held disk.new ≡ D.held disk.old }
    ensures steps { IsManifestRead number (D.steps disk.old) result (D.steps disk.new) }
{
    match disk.read_manifest(alloc, number) {
        Ok(bytes) => Ok(bytes),
        Err(fault) => Err(of_file(fault, JournalFile::Manifest(number))),
    }
}

/// Returns the segment that follows the one of that number, which this engine leaves: it is to be made with that manifest, and begins with
/// the lines of what its engine takes over. The faults are, in this order: a run is live; the manifest is faulty; or the manifest's
/// configuration does not have all queues and controllers of what is left.
pub fn follow<'m>(
    alloc: Global,
    number: u64,
    engine: &NumberedEngine<'_>,
    manifest: NextManifest<'m>,
    numbering: Numbering,
) -> Result<Begun<'m>, JournalError>
    ensures follows { IfOk result (IsNext number engine.now manifest.entry numbering) }
    ensures refused { IfErr result (IsNotNext number engine.now manifest.entry) }
{
    if engine.runs().len() > 0 {
        return Err(OrMemory::Fault(JournalFault::RunLive));
    }
    match configured(alloc, number, manifest) {
        Ok(config) => next(alloc, number, engine, manifest, config, numbering),
        Err(error) => Err(error),
    }
}

// The configuration of that manifest.
fn configured(
    alloc: Global,
    number: u64,
    manifest: NextManifest<'_>,
) -> Result<Config, JournalError>
    ensures read { IfOk result (IsNextConfig manifest.entry) }
    ensures refused { IfErr result (IsNextFault number manifest.entry) }
{
    match manifest {
        NextManifest::Given(bytes) => given(alloc, bytes),
        NextManifest::Same(bytes) => own(alloc, number, bytes),
    }
}

// The segment that follows, with that configuration.
fn next<'m>(
    alloc: Global,
    number: u64,
    engine: &NumberedEngine<'_>,
    manifest: NextManifest<'m>,
    config: Config,
    numbering: Numbering,
) -> Result<Begun<'m>, JournalError>
    requires no_run { engine.now.runs.list ≡ [] }
    requires configured { IsNextConfig manifest config }
    ensures follows { IfOk result (IsNext number engine.now manifest.entry numbering) }
    ensures refused { IfErr result (IsNotNext number engine.now manifest.entry) }
{
    if !fits_numbered(engine, &config) {
        return Err(OrMemory::Fault(JournalFault::DoesNotFit));
    }
    let Some(following) = number.checked_add(1) else {
        return Err(OrMemory::Fault(JournalFault::InternalError));
    };
    match carried_lines_numbered(alloc, engine, &config, numbering) {
        Ok(lines) => Ok(Begun {
            number: following,
            config,
            manifest: Some(manifest.bytes()),
            carried: Some(lines),
        }),
        Err(AllocError) => Err(OrMemory::OutOfMemory),
    }
}
