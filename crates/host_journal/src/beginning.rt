// Which segment a start goes on with. It relies on `listing` for the names in the folder, on `manifests` for configurations, and on `last_line`
// for whether the newest segment has its last line.

ghost use Rattle.std.specs.Prelude.{◌≡◌, ◌⊎◌, ℕ, List, Option, IfErr, IfOk, IfSome, MatchResult, OnErr, OnOk, Some, option_map};
ghost use Rattle.host_journal.specs.Disks.{FolderMade, HoldsNothing, IsQuiet, Locked, with_step};
ghost use Rattle.host_journal.specs.Audits.{IsOrdered};
ghost use Rattle.host_journal.specs.Starts.{Fails, Finds, FindsFirst, HasEntered, HasEnteredFor, IsAccepted, IsEntered, IsGivenOther, IsMadeAndLocked, IsNewest, IsNoFirst, IsNotMadeFor, IsShutOutFor, IsUnlisted, IsUnmadeFor, IsUnreadSegment, ListsHeld};

use crate::disk::{Disk, DiskFault};
use crate::fault::{JournalError, JournalFault, JournalFile, of_file};
use crate::last_line::is_ended;
use crate::listing::{Listing, listing_of};
use crate::manifests::{given, own};
use base::OrMemory;
use engine_config::Config;
use std::alloc::{AllocError, Global};
use world_calls::CarriedLine;

/// Which segment a start goes on with.
#[derive(Drop)]
pub struct Begun<'m> {
    /// The segment's number.
    pub number: u64,
    /// What its manifest says.
    pub config: Config,
    /// The manifest of a segment that is to be made; none if there is a segment to go on with.
    pub manifest: Option<&'m [u8]>,
    /// The lines of what the engine takes over, if the segment is to be made and follows another one.
    pub carried: Option<Vec<CarriedLine>>,
}

/// Takes the lock, and finds the segment that a start goes on with: the newest one, or the first one, which is to be made. A folder that is
/// not there is made, once the manifest was accepted. Nothing else in the folder changes but the file of the lock.
pub fn begin<'m, D: Disk>(
    alloc: Global,
    disk: &mut D,
    manifest: Option<&'m [u8]>,
) -> Result<Begun<'m>, JournalError>
    // Which segment it is: the newest one, of a folder that holds a journal; or the first one, with the manifest that is given.
    ensures found { IfOk result (Finds (D.held disk.new) (option_map (λ bytes. bytes.now) manifest.entry)) }
    // What the folder holds stays.
    ensures held { D.held disk.new ≡ D.held disk.old }
    // J1 exactly if the names are not those of a journal, or if there is no segment and no manifest; and each other refusal for its cause.
    ensures refused { IfErr result (Fails (D.held disk.new) (option_map (λ bytes. bytes.now) manifest.entry) (D.steps disk.old) (D.steps disk.new)) }
    // The lock is taken first, and then nothing is written.
    ensures steps { MatchResult result (λ _. HasEntered (option_map (λ bytes. bytes.now) manifest.entry) (D.steps disk.old) (D.steps disk.new)) (HasEnteredFor (option_map (λ bytes. bytes.now) manifest.entry) (D.steps disk.old) (D.steps disk.new)) }
{
    match take_lock(alloc, disk, manifest) {
        Ok(()) => find(alloc, disk, manifest),
        Err(error) => Err(error),
    }
}

// Finds the segment that a start goes on with, whose folder is there.
fn find<'m, D: Disk>(
    alloc: Global,
    disk: &mut D,
    manifest: Option<&'m [u8]>,
) -> Result<Begun<'m>, JournalError>
    ensures found { IfOk result (Finds (D.held disk.new) (option_map (λ bytes. bytes.now) manifest.entry)) }
    ensures refused { IfErr result (Fails (D.held disk.new) (option_map (λ bytes. bytes.now) manifest.entry) (D.steps disk.old) (D.steps disk.new)) }
    ensures held { D.held disk.new ≡ D.held disk.old }
    ensures quiet { IsQuiet (D.steps disk.old) (D.steps disk.new) }
{
    match list_folder(alloc, disk) {
        Ok(Listing::Foreign) => Err(OrMemory::Fault(JournalFault::Foreign)),
        Ok(Listing::Empty) => begin_first(alloc, manifest),
        Ok(Listing::Segments { first: _, last }) => go_on(alloc, disk, last, manifest),
        Err(error) => Err(error),
    }
}

// Takes the lock, and makes the folder before, if there is none.
fn take_lock<D: Disk>(
    alloc: Global,
    disk: &mut D,
    manifest: Option<&[u8]>,
) -> Result<(), JournalError>
    ensures taken { OnOk result (IsEntered (option_map (λ bytes. bytes.now) manifest.entry) (D.steps disk.old) (D.steps disk.new)) }
    ensures refused { IfErr result (Fails (D.held disk.new) (option_map (λ bytes. bytes.now) manifest.entry) (D.steps disk.old) (D.steps disk.new)) }
    ensures held { D.held disk.new ≡ D.held disk.old }
    ensures steps { IfErr result (IsShutOutFor (option_map (λ bytes. bytes.now) manifest.entry) (D.steps disk.old) (D.steps disk.new)) }
{
    match disk.lock() {
        Ok(true) => Ok(()),
        Ok(false) => Err(OrMemory::Fault(JournalFault::InUse)),
        Err(DiskFault::Missing) => make_folder(alloc, disk, manifest),
        Err(DiskFault::Failed) => Err(OrMemory::Fault(JournalFault::File(JournalFile::Lock))),
        Err(DiskFault::OutOfMemory) => Err(OrMemory::OutOfMemory),
    }
}

// Makes the folder, once the manifest was accepted, and takes the lock.
fn make_folder<D: Disk>(
    alloc: Global,
    disk: &mut D,
    manifest: Option<&[u8]>,
) -> Result<(), JournalError>
    requires { HoldsNothing (D.held disk.old) }
    ensures taken { OnOk result (IsMadeAndLocked (option_map (λ bytes. bytes.now) manifest.entry) (D.steps disk.old) (D.steps disk.new)) }
    ensures refused { IfErr result (Fails (D.held disk.new) (option_map (λ bytes. bytes.now) manifest.entry) (D.steps disk.old) (D.steps disk.new)) }
    ensures held { D.held disk.new ≡ D.held disk.old }
    ensures steps { IfErr result (IsNotMadeFor (option_map (λ bytes. bytes.now) manifest.entry) (D.steps disk.old) (D.steps disk.new)) }
{
    match accept(alloc, manifest) {
        Ok(()) => make_and_lock(disk),
        Err(error) => Err(error),
    }
}

// Whether a manifest is given, and is accepted.
fn accept(alloc: Global, manifest: Option<&[u8]>) -> Result<(), JournalError>
    ensures accepted { OnOk result (IsAccepted (option_map (λ bytes. bytes.now) manifest.entry)) }
    ensures refused { IfErr result (IsNoFirst (option_map (λ bytes. bytes.now) manifest.entry)) }
{
    match manifest {
        Some(bytes) => match given(alloc, bytes) {
            Ok(_) => Ok(()),
            Err(error) => Err(error),
        },
        None => Err(OrMemory::Fault(JournalFault::Foreign)),
    }
}

// Makes the folder, and takes the lock.
fn make_and_lock<D: Disk>(disk: &mut D) -> Result<(), JournalError>
    ensures taken { OnOk result (D.steps disk.new ≡ with_step (with_step (D.steps disk.old) FolderMade) Locked) }
    ensures refused { (given : Option (List ℕ)) → IfErr result (Fails (D.held disk.new) given (D.steps disk.old) (D.steps disk.new)) }
    ensures steps { OnErr result (IsQuiet (D.steps disk.old) (D.steps disk.new) ⊎ IsQuiet (with_step (D.steps disk.old) FolderMade) (D.steps disk.new)) }
    ensures held { D.held disk.new ≡ D.held disk.old }
    ensures which { IfErr result IsUnmadeFor }
{
    match disk.make() {
        Ok(()) => {}
        Err(fault) => return Err(of_file(fault, JournalFile::Folder)),
    }
    match disk.lock() {
        Ok(true) => Ok(()),
        Ok(false) => Err(OrMemory::Fault(JournalFault::InUse)),
        Err(fault) => Err(of_file(fault, JournalFile::Lock)),
    }
}

/// What the names in the folder are.
pub(crate) fn list_folder<D: Disk>(alloc: Global, disk: &mut D) -> Result<Listing, JournalError>
    ensures listed { IfOk result (ListsHeld (D.held disk.new)) }
    ensures ordered { IfOk result IsOrdered }
    ensures held { D.held disk.new ≡ D.held disk.old }
    ensures steps { OnOk result (D.steps disk.new ≡ D.steps disk.old) }
    ensures quiet { IsQuiet (D.steps disk.old) (D.steps disk.new) }
    ensures unlisted { IfErr result (IsUnlisted (D.steps disk.old) (D.steps disk.new)) }
{
    match disk.names(alloc) {
        Ok(names) => match listing_of(alloc, names.as_slice()) {
            Ok(listing) => Ok(listing),
            Err(AllocError) => Err(OrMemory::OutOfMemory),
        },
        Err(fault) => Err(of_file(fault, JournalFile::Folder)),
    }
}

// The first segment is to be made, with the manifest that is given.
fn begin_first(alloc: Global, manifest: Option<&[u8]>) -> Result<Begun<'_>, JournalError>
    ensures found { IfOk result (FindsFirst (option_map (λ bytes. bytes.now) manifest.entry)) }
    ensures refused { IfErr result (IsNoFirst (option_map (λ bytes. bytes.now) manifest.entry)) }
{
    match manifest {
        Some(bytes) => match given(alloc, bytes) {
            Ok(config) => Ok(Begun {
                number: 1,
                config,
                manifest: Some(bytes),
                carried: None,
            }),
            Err(error) => Err(error),
        },
        None => Err(OrMemory::Fault(JournalFault::Foreign)),
    }
}

// The segment of that number goes on, with its own manifest.
fn go_on<'m, D: Disk>(
    alloc: Global,
    disk: &mut D,
    number: u64,
    manifest: Option<&'m [u8]>,
) -> Result<Begun<'m>, JournalError>
    requires { IfSome (D.held disk.old).names (λ names. IsNewest names number) }
    ensures held { D.held disk.new ≡ D.held disk.old }
    ensures found { IfOk result (Finds (D.held disk.new) (option_map (λ bytes. bytes.now) manifest.entry)) }
    ensures refused { IfErr result (Fails (D.held disk.new) (option_map (λ bytes. bytes.now) manifest.entry) (D.steps disk.old) (D.steps disk.new)) }
    ensures quiet { IsQuiet (D.steps disk.old) (D.steps disk.new) }
{
    let bytes = match disk.read_manifest(alloc, number) {
        Ok(bytes) => bytes,
        Err(fault) => return Err(of_file(fault, JournalFile::Manifest(number))),
    };
    match is_others(disk, number, manifest, bytes.as_slice()) {
        Ok(true) => return Err(OrMemory::Fault(JournalFault::OtherManifest)),
        Ok(false) => {}
        Err(error) => return Err(error),
    }
    match own(alloc, number, bytes.as_slice()) {
        Ok(config) => Ok(Begun {
            number,
            config,
            manifest: None,
            carried: None,
        }),
        Err(error) => Err(error),
    }
}

// Whether a manifest is given that has other bytes than these, and the segment of that number has no last line.
fn is_others<D: Disk>(
    disk: &mut D,
    number: u64,
    manifest: Option<&[u8]>,
    own: &[u8],
) -> Result<bool, JournalError>
    ensures held { D.held disk.new ≡ D.held disk.old }
    ensures quiet { IsQuiet (D.steps disk.old) (D.steps disk.new) }
    ensures fault { IfErr result (IsUnreadSegment number ((D.held disk.old).segments number) (D.steps disk.old) (D.steps disk.new)) }
    ensures other { IfOk result (IsGivenOther ((D.held disk.old).segments number) (option_map (λ bytes. bytes.now) manifest.entry) own.now) }
{
    match manifest {
        Some(bytes) => is_other(disk, number, bytes, own),
        None => Ok(false),
    }
}

// Whether these bytes are others, and the segment of that number has no last line.
fn is_other<D: Disk>(
    disk: &mut D,
    number: u64,
    bytes: &[u8],
    own: &[u8],
) -> Result<bool, JournalError>
    ensures held { D.held disk.new ≡ D.held disk.old }
    ensures quiet { IsQuiet (D.steps disk.old) (D.steps disk.new) }
    ensures fault { IfErr result (IsUnreadSegment number ((D.held disk.old).segments number) (D.steps disk.old) (D.steps disk.new)) }
    ensures other { IfOk result (IsGivenOther ((D.held disk.old).segments number) (Some bytes.now) own.now) }
{
    if bytes == own {
        return Ok(false);
    }
    match is_ended(disk, number) {
        Ok(true) => Ok(false),
        Ok(false) => Ok(true),
        Err(error) => Err(error),
    }
}
