// A file that is written whole, or stays as it was. It relies on `folder` for the file system.

ghost use Rattle.std.specs.Prelude.{◌≡◌, ◌≢◌, ℕ, Bool, false, IfOk, List, None, Option, MatchResult, string_bytes};
ghost use Rattle.cli_io.specs.Folders.{Step};
ghost use Rattle.cli_io.specs.Replacing.{At, Draft, Drafting, IsDressedFor, IsFrontOf, MayTakePlace, Placed, Replaces, Seen, Stage, TakesBytes, beside, draft_of, first_mode_of, new_draft, with_more};
ghost use Rattle.cli_io.specs.declared.folder.Look.TheVariants.{Stream};

use crate::folder::{Folder, Look};
use std::alloc::{AllocError, Global};
use std::io;
use std::io::ErrorKind;
use std::path::Path;

/// How many names are tried for a new file.
const TRIES: u32 = 100;

/// Writes a file anew: the bytes go into a new file beside it, which takes its place when they are all there and would outlast a stop of the
/// machine. So at each moment the file has what it had or all that it gets, and whatever else stands there stays as it is. A link stays one,
/// and where it leads is written. What takes the place of a file has its rights. What is no regular file, as a pipe, is written in its place,
/// from the front.
pub fn replace<F: Folder>(alloc: Global, folder: &mut F, path: &str, bytes: &[u8]) -> io::Result<()>
    ensures { Replaces path.now bytes.now (F.steps folder.old) result (F.steps folder.new) }
{
    let led = folder.lead(path)?;
    let out = led.as_str();
    match folder.look(out)? {
        Look::Stream => pour(folder, out, bytes),
        look => put_beside(alloc, folder, out, look, bytes),
    }
}

// Writes to what stands there in its place.
fn pour<F: Folder>(folder: &mut F, out: &str, bytes: &[u8]) -> io::Result<()>
    ensures { (path : List ℕ) (base : Option (List Step)) → At path bytes.now base (F.steps folder.old) (Seen out.now Stream None) → Replaces path bytes.now base result (F.steps folder.new) }
{
    folder.open_stream(out)?;
    write_all(folder, bytes)
}

// Writes a new file beside what stands there, and puts it in its place.
fn put_beside<F: Folder>(
    alloc: Global,
    folder: &mut F,
    out: &str,
    look: Look,
    bytes: &[u8],
) -> io::Result<()>
    requires { MayTakePlace look }
    ensures { (path : List ℕ) (base : Option (List Step)) → At path bytes.now base (F.steps folder.old) (Seen out.now look None) → Replaces path bytes.now base result (F.steps folder.new) }
{
    let name = create_beside(alloc, folder, out, look)?;
    match fill(folder, name.as_str(), out, look, bytes) {
        Ok(()) => {
            folder.settle(out);
            Ok(())
        }
        Err(error) => {
            folder.remove(name.as_str());
            Err(error)
        }
    }
}

// Makes a new file beside what stands there, and tells its path.
fn create_beside<F: Folder>(
    alloc: Global,
    folder: &mut F,
    out: &str,
    look: Look,
) -> io::Result<String>
    requires { MayTakePlace look }
    ensures { (path bytes : List ℕ) (base : Option (List Step)) → At path bytes base (F.steps folder.old) (Seen out.now look None) → MatchResult result (λ name. At path bytes base (F.steps folder.new) (Drafting (new_draft out.now look (string_bytes name)))) (λ _. (drawn : Option ℕ) × At path bytes base (F.steps folder.new) (Seen out.now look drawn)) }
{
    for _ in 0..TRIES {
        let name = name_beside(alloc, out, folder.chance()?)?;
        if is_same(name.as_str(), out) {
            continue;
        }
        match folder.create_new(name.as_str(), first_mode(look)) {
            Ok(()) => return Ok(name),
            Err(error) => {
                if error.kind() != ErrorKind::AlreadyExists {
                    return Err(error);
                }
            }
        }
    }
    Err(io::Error::from(ErrorKind::AlreadyExists))
}

fn is_same(name: &str, out: &str) -> bool
    ensures { result ≡ false → name.now ≢ out.now }
{
    name == out
}

// The mode of a new file: nobody else sees what is to be as private as what was there.
fn first_mode(look: Look) -> u32
    ensures { result ≡ first_mode_of look }
{
    match look {
        Look::Nothing => 0o666,
        Look::File(_) | Look::Stream => 0o600,
    }
}

// The path of a file beside another, whose name begins as that one's: with the rest of it, it has at most 254 bytes.
fn name_beside(alloc: Global, out: &str, number: u64) -> Result<String, AllocError>
    ensures { IfOk result (λ name. string_bytes name ≡ beside out.now number) }
{
    let name = Path::new(out).file_name().unwrap_or("");
    let name = format!(in alloc; "{name:.58}.camr-{number:016x}")?;
    Ok(
        Path::new(out)
            .with_file_name(alloc, name.as_str())?
            .into_string(),
    )
}

// Writes all to the new file, and puts it in the place.
fn fill<F: Folder>(
    folder: &mut F,
    name: &str,
    out: &str,
    look: Look,
    bytes: &[u8],
) -> io::Result<()>
    requires { MayTakePlace look }
    ensures { (path : List ℕ) (base : Option (List Step)) → At path bytes.now base (F.steps folder.old) (Drafting (new_draft out.now look name.now)) → MatchResult result (λ _. At path bytes.now base (F.steps folder.new) (Placed out.now)) (λ _. (draft : Draft) × At path bytes.now base (F.steps folder.new) (Drafting draft) × (draft.name ≡ name.now)) }
{
    write_all(folder, bytes)?;
    dress(folder, look)?;
    folder.sync()?;
    folder.rename(name, out)
}

// Gives the new file, which has all of the bytes, the rights of what was seen.
fn dress<F: Folder>(folder: &mut F, look: Look) -> io::Result<()>
    requires { MayTakePlace look }
    ensures { (path whole out name : List ℕ) (base : Option (List Step)) → At path whole base (F.steps folder.old) (Drafting (draft_of out look name whole false false)) → MatchResult result (λ _. (dressed : Bool) × IsDressedFor look dressed × At path whole base (F.steps folder.new) (Drafting (draft_of out look name whole dressed false))) (λ _. At path whole base (F.steps folder.new) (Drafting (draft_of out look name whole false false))) }
{
    match look {
        Look::File(rights) => folder.dress(rights),
        Look::Nothing | Look::Stream => Ok(()),
    }
}

// Writes all of the bytes to what is open.
fn write_all<F: Folder>(folder: &mut F, bytes: &[u8]) -> io::Result<()>
    ensures { (path whole : List ℕ) (base : Option (List Step)) (stage : Stage) → TakesBytes whole stage bytes.now → At path whole base (F.steps folder.old) stage → MatchResult result (λ _. At path whole base (F.steps folder.new) (with_more stage bytes.now)) (λ _. (some : List ℕ) × IsFrontOf some bytes.now × At path whole base (F.steps folder.new) (with_more stage some)) }
{
    let mut written = 0;
    for _ in 0..u64::MAX {
        if written == bytes.len() {
            return Ok(());
        }
        match folder.write(&bytes[written..]) {
            Ok(0) => return Err(io::Error::from(ErrorKind::WriteZero)),
            Ok(count) => written += count,
            Err(error) => {
                if error.kind() != ErrorKind::Interrupted {
                    return Err(error);
                }
            }
        }
    }
    Err(io::Error::from(ErrorKind::Interrupted))
}
