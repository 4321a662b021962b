// The machine's file system as a folder. It relies on `folder` for what is promised of one.

use crate::folder::{Folder, Look, Rights};
use std::fs::{File, OpenOptions, Permissions};
use std::io::{ErrorKind, Write};
use std::os::unix::fs::{MetadataExt, OpenOptionsExt, PermissionsExt, fchown};
use std::path::Path;
use std::random::RandomSource;
use std::rt::Files;
use std::{fs, io};

/// How many links are followed, as by the system.
const LINKS: u32 = 40;

/// The machine's file system, which is trusted to do what the steps of a `Folder` say, and in which one file at a time is open.
#[derive(Drop)]
pub struct Disk<'a, R: Files<File = File>> {
    rt: &'a R,
    file: Option<File>,
    // what is written does not have to outlast a stop of the machine: nothing waits for that
    is_passing: bool,
}

impl<'a, R: Files<File = File>> Disk<'a, R> {
    /// Nothing is open.
    pub fn new(rt: &'a R) -> Self {
        Disk {
            rt,
            file: None,
            is_passing: false,
        }
    }

    /// The same for files that are soon written anew: it does not wait until they would outlast a stop of the machine, and of a stop nothing is
    /// promised.
    pub fn passing(rt: &'a R) -> Self {
        Disk {
            rt,
            file: None,
            is_passing: true,
        }
    }
}

impl<R: Files<File = File> + RandomSource + AllocGlobal> Folder for Disk<'_, R> {
    ghost use Rattle.std.specs.Prelude.{None};

    ghost steps = { λ _. None };

    fn lead(&mut self, path: &str) -> io::Result<String> {
        let alloc = self.rt.alloc();
        let mut at = String::from_str(alloc, path)?;
        for _ in 0..LINKS {
            if !is_name(at.as_str()) {
                return Err(io::Error::from(ErrorKind::InvalidInput));
            }
            if is_of_a_process(self.rt, at.as_str()) {
                return Ok(at);
            }
            let link = match fs::read_link(self.rt, at.as_str()) {
                Ok(link) => link,
                Err(error) if is_no_link(error.kind()) => return Ok(at),
                Err(error) => return Err(error),
            };
            at = folder_of(at.as_str())
                .join(alloc, link.as_path())?
                .into_string();
        }
        Err(io::Error::from(ErrorKind::FilesystemLoop))
    }

    fn look(&mut self, path: &str) -> io::Result<Look> {
        if is_of_a_process(self.rt, path) {
            return Ok(Look::Stream);
        }
        let found = match fs::metadata(self.rt, path) {
            Ok(found) => found,
            Err(error) if error.kind() == ErrorKind::NotFound => return Ok(Look::Nothing),
            Err(error) => return Err(error),
        };
        if found.is_dir() {
            return Err(io::Error::from(ErrorKind::IsADirectory));
        }
        if !found.is_file() {
            return Ok(Look::Stream);
        }
        if found.permissions().readonly() {
            return Err(io::Error::from(ErrorKind::PermissionDenied));
        }
        let found = OpenOptions::new()
            .write(true)
            .open(self.rt, path)?
            .metadata()?;
        Ok(Look::File(Rights {
            mode: found.mode(),
            uid: found.uid(),
            gid: found.gid(),
        }))
    }

    fn chance(&mut self) -> io::Result<u64> {
        let mut bytes = [0u8; 8];
        self.rt.fill_bytes(&mut bytes)?;
        Ok(u64::from_le_bytes(bytes))
    }

    fn create_new(&mut self, path: &str, mode: u32) -> io::Result<()> {
        let mut how = OpenOptions::new();
        how.write(true).create_new(true).mode(mode);
        self.file = Some(how.open(self.rt, path)?);
        Ok(())
    }

    fn open_stream(&mut self, path: &str) -> io::Result<()> {
        let is_of_a_process = is_of_a_process(self.rt, path);
        let mut how = OpenOptions::new();
        how.write(!is_of_a_process).append(is_of_a_process);
        let file = how.open(self.rt, path)?;
        if !is_of_a_process && file.metadata()?.is_file() {
            return Err(io::Error::from(ErrorKind::InvalidInput));
        }
        self.file = Some(file);
        Ok(())
    }

    fn write(&mut self, bytes: &[u8]) -> io::Result<usize> {
        match &mut self.file {
            Some(file) => file.write(bytes),
            None => Err(io::Error::from(ErrorKind::InvalidInput)),
        }
    }

    fn dress(&mut self, rights: Rights) -> io::Result<()> {
        let file = opened(&self.file)?;
        let own = file.metadata()?;
        let has_group = (own.uid() == rights.uid && own.gid() == rights.gid)
            || fchown(file, Some(rights.uid), Some(rights.gid)).is_ok()
            || own.gid() == rights.gid
            || fchown(file, None, Some(rights.gid)).is_ok();
        file.set_permissions(Permissions::from_mode(mode_with(rights.mode, has_group)))
    }

    fn sync(&mut self) -> io::Result<()> {
        let file = opened(&self.file)?;
        if self.is_passing {
            return Ok(());
        }
        file.sync_all()
    }

    fn rename(&mut self, from: &str, to: &str) -> io::Result<()> {
        fs::rename(self.rt, from, to)?;
        self.file = None;
        Ok(())
    }

    fn remove(&mut self, path: &str) {
        if self.is_there(path) {
            let _ = fs::remove_file(self.rt, path);
        }
        self.file = None;
    }

    fn settle(&mut self, path: &str) {
        if self.is_passing {
            return;
        }
        if let Ok(folder) = File::open(self.rt, folder_of(path)) {
            let _ = folder.sync_all();
        }
    }
}

impl<R: Files<File = File>> Disk<'_, R> {
    // Whether the file that is open stands under that name.
    fn is_there(&self, path: &str) -> bool {
        let Some(file) = &self.file else {
            return false;
        };
        match (file.metadata(), fs::symlink_metadata(self.rt, path)) {
            (Ok(open), Ok(there)) => open.dev() == there.dev() && open.ino() == there.ino(),
            _ => false,
        }
    }
}

fn opened(file: &Option<File>) -> io::Result<&File> {
    match file {
        Some(file) => Ok(file),
        None => Err(io::Error::from(ErrorKind::InvalidInput)),
    }
}

// Whether a path ends with a name, and not with a folder's.
fn is_name(path: &str) -> bool {
    !path.ends_with('/') && !path.ends_with("/.") && Path::new(path).file_name().is_some()
}

// The folder that a path's last name stands in.
fn folder_of(path: &str) -> Path<'_> {
    match Path::new(path).parent() {
        Some(folder) if folder.as_str() != "" => folder,
        _ => Path::new("."),
    }
}

// Whether a path leads through the files that a process has open, as that of standard output does.
fn is_of_a_process<R: Files + AllocGlobal>(rt: &R, path: &str) -> bool {
    match fs::canonicalize(rt, folder_of(path)) {
        Ok(folder) => folder.as_path().starts_with("/proc")
            || folder.as_path().starts_with("/dev/fd"),
        Err(_) => false,
    }
}

/// Whether one file stands under both paths.
pub fn are_same<R: Files<File = File> + AllocGlobal>(rt: &R, path: &str, other: &str) -> bool {
    match (fs::metadata(rt, path), fs::metadata(rt, other)) {
        (Ok(one), Ok(two)) => one.dev() == two.dev() && one.ino() == two.ino(),
        (_, _) => false,
    }
}

/// Whether what a path names stands in that folder, or would.
pub fn stands_in<R: Files<File = File> + AllocGlobal>(rt: &R, path: &str, folder: &str) -> bool {
    are_same(rt, folder_of(path).as_str(), folder)
}

// Whether a link could not be read since there is none.
fn is_no_link(kind: ErrorKind) -> bool {
    kind == ErrorKind::NotFound || kind == ErrorKind::InvalidInput
}

/// The permissions of that mode, or if the group is another, those of them that the group and all others had.
fn mode_with(mode: u32, has_group: bool) -> u32 {
    if has_group {
        return mode & 0o777;
    }
    let both = (mode >> 3) & mode & 0o7;
    (mode & 0o700) | (both << 3) | both
}
