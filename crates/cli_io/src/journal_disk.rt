// The machine's file system as the folder of a journal, with standard output beside it. It relies on `host_journal` for what is promised of
// one, and on `inputs` for a manifest.

ghost use Rattle.std.specs.Prelude.{◌≡◌, ◌≤◌, IfOk, OnOk, length};

use crate::inputs::{MOST_MANIFEST, read_file};
use crate::reading::read_some;
use host_journal::{Disk, DiskFault};
use host_recovery::ReadFailed;
use std::alloc::{AllocError, Global};
use std::fs::{File, OpenOptions};
use std::io::{ErrorKind, Read, Write};
use std::rt::{Files, Runtime};
use std::{fs, io};
use trace::WriteFailed;

/// What stands for a name of a file that is not UTF-8: no name of a journal.
const NO_NAME: &str = "?";

/// The name of the lock's file.
const LOCK: &str = "lock";

/// A folder of the machine's file system, which is trusted to do what the steps of a `Disk` say, and standard output.
#[derive(Drop)]
pub struct JournalDisk<'a, R: Runtime + Files<File = File> + AllocGlobal, W: Write + Drop> {
    rt: &'a R,
    folder: &'a str,
    // held for as long as the journal is
    lock: Option<File>,
    // the open segment, with its number
    segment: Option<File>,
    number: u64,
    out: W,
}

impl<'a, R: Runtime + Files<File = File> + AllocGlobal, W: Write + Drop> JournalDisk<'a, R, W> {
    /// The folder of that path, of which nothing is open.
    pub fn new(rt: &'a R, folder: &'a str, out: W) -> Self {
        JournalDisk {
            rt,
            folder,
            lock: None,
            segment: None,
            number: 0,
            out,
        }
    }

    fn path(&self, name: &str) -> Result<String, AllocError> {
        format!(in self.rt.alloc(); "{}/{name}", self.folder)
    }

    fn segment_path(&self, number: u64) -> Result<String, AllocError> {
        format!(in self.rt.alloc(); "{}/{number:06}.trace", self.folder)
    }

    fn manifest_path(&self, number: u64) -> Result<String, AllocError> {
        format!(in self.rt.alloc(); "{}/{number:06}.toml", self.folder)
    }

    // Writes a file whole under a name that ends in `.new`, and renames it into place: the file, which is written on.
    fn make_file(&self, path: &str, bytes: &[u8]) -> io::Result<File> {
        let new = format!(in self.rt.alloc(); "{path}.new")?;
        let mut file = OpenOptions::new()
            .write(true)
            .create(true)
            .truncate(true)
            .open(self.rt, new.as_str())?;
        file.write_all(bytes)?;
        file.sync_all()?;
        fs::rename(self.rt, new.as_str(), path)?;
        self.settle()?;
        Ok(file)
    }

    // The names in the folder outlast a stop of the machine.
    fn settle(&self) -> io::Result<()> {
        File::open(self.rt, self.folder)?.sync_all()
    }

    // The names of the folder, but for itself, the one above it, and the lock's file.
    fn listed(&self, alloc: Global) -> io::Result<Vec<String>> {
        let mut names = Vec::new(alloc);
        for entry in fs::read_dir(self.rt, self.folder)? {
            let name = match &entry {
                Ok(entry) => String::from_str(alloc, entry.file_name())?,
                Err(error) if error.kind() == ErrorKind::InvalidFilename => {
                    String::from_str(alloc, NO_NAME)?
                }
                Err(error) => return Err(io::Error::from(error.kind())),
            };
            if name.as_str() != LOCK {
                names.push(name)?;
            }
        }
        Ok(names)
    }

    fn locked(&mut self) -> io::Result<bool> {
        let path = self.path(LOCK)?;
        let file = OpenOptions::new()
            .write(true)
            .create(true)
            .open(self.rt, path.as_str())?;
        match file.try_lock() {
            Ok(()) => {
                self.lock = Some(file);
                Ok(true)
            }
            Err(fs::TryLockError::WouldBlock) => Ok(false),
            Err(fs::TryLockError::Error(error)) => Err(error),
        }
    }

    fn opened(&mut self, number: u64) -> io::Result<()>
        ensures { OnOk result (self.new.number ≡ number) }
    {
        let path = self.segment_path(number)?;
        self.segment = Some(File::open(self.rt, path.as_str())?);
        self.number = number;
        Ok(())
    }

    // The segment is cut to that length, if it is longer, and is appended to.
    fn cut_to(&mut self, length: u64) -> io::Result<()>
        ensures { self.new.number ≡ self.old.number }
    {
        let number = self.number;
        let path = self.segment_path(number)?;
        let mut how = OpenOptions::new();
        how.append(true);
        let file = how.open(self.rt, path.as_str())?;
        shorten(&file, length)?;
        self.segment = Some(file);
        Ok(())
    }
}

// Cuts a file to that length, if it is longer.
fn shorten(file: &File, length: u64) -> io::Result<()> {
    if file.metadata()?.len() <= length {
        return Ok(());
    }
    file.set_len(length)?;
    file.sync_all()
}

// Why the file system did not do it.
fn fault_of(kind: ErrorKind) -> DiskFault {
    match kind {
        ErrorKind::NotFound => DiskFault::Missing,
        ErrorKind::OutOfMemory => DiskFault::OutOfMemory,
        _ => DiskFault::Failed,
    }
}

fn done<T>(asked: io::Result<T>) -> Result<T, DiskFault> {
    asked.map_err(|error| fault_of(error.kind()))
}

// Writes some of these bytes, one at least; a write that was interrupted is tried again.
fn written<W: Write>(out: &mut W, bytes: &[u8]) -> Result<usize, WriteFailed>
    ensures { IfOk result (λ count. (1 ≤ count) × (count ≤ length bytes.now)) }
{
    for _ in 0..u64::MAX {
        match out.write(bytes) {
            Ok(0) => return Err(WriteFailed),
            Ok(count) => return Ok(count),
            Err(error) => {
                if error.kind() != ErrorKind::Interrupted {
                    return Err(WriteFailed);
                }
            }
        }
    }
    Err(WriteFailed)
}

impl<R: Runtime + Files<File = File> + AllocGlobal, W: Write + Drop> Disk
    for JournalDisk<'_, R, W> {
    ghost use Rattle.std.specs.Prelude.{None};
    ghost use Rattle.host_journal.specs.Disks.{nothing_held};

    ghost steps = { λ _. None };

    ghost held = { λ _. nothing_held };

    ghost segment = { λ disk. disk.number };

    ghost remaining = { λ _. None };

    fn names(&mut self, alloc: Global) -> Result<Vec<String>, DiskFault> {
        done(self.listed(alloc))
    }

    fn lock(&mut self) -> Result<bool, DiskFault> {
        done(self.locked())
    }

    fn make(&mut self) -> Result<(), DiskFault> {
        done(fs::create_dir(self.rt, self.folder))
    }

    fn read_manifest(&mut self, alloc: Global, number: u64) -> Result<Vec<u8>, DiskFault> {
        let path = self
            .manifest_path(number)
            .map_err(|_| DiskFault::OutOfMemory)?;
        done(read_file(self.rt, path.as_str(), MOST_MANIFEST))
    }

    fn open_segment(&mut self, number: u64) -> Result<(), DiskFault> {
        match self.opened(number) {
            Ok(()) => Ok(()),
            Err(error) => Err(fault_of(error.kind())),
        }
    }

    fn read(&mut self, piece: &mut [u8]) -> Result<usize, ReadFailed> {
        let came = match &mut self.segment {
            Some(file) => read_some(file, piece),
            None => Err(io::Error::from(ErrorKind::InvalidInput)),
        };
        came.map_err(|_| ReadFailed)
    }

    fn cut(&mut self, length: u64) -> Result<(), DiskFault> {
        done(self.cut_to(length))
    }

    fn make_manifest(&mut self, number: u64, bytes: &[u8]) -> Result<(), DiskFault> {
        let path = self
            .manifest_path(number)
            .map_err(|_| DiskFault::OutOfMemory)?;
        match self.make_file(path.as_str(), bytes) {
            Ok(_file) => Ok(()),
            Err(error) => Err(fault_of(error.kind())),
        }
    }

    fn make_segment(&mut self, number: u64, bytes: &[u8]) -> Result<(), DiskFault> {
        let path = self
            .segment_path(number)
            .map_err(|_| DiskFault::OutOfMemory)?;
        self.segment = Some(done(self.make_file(path.as_str(), bytes))?);
        self.number = number;
        Ok(())
    }

    fn keep(&mut self, bytes: &[u8]) -> Result<usize, WriteFailed> {
        match &mut self.segment {
            Some(file) => written(file, bytes),
            None => Err(WriteFailed),
        }
    }

    fn sync(&mut self) -> Result<(), WriteFailed> {
        match &self.segment {
            Some(file) => file.sync_data().map_err(|_| WriteFailed),
            None => Err(WriteFailed),
        }
    }

    fn put(&mut self, bytes: &[u8]) -> Result<usize, WriteFailed> {
        written(&mut self.out, bytes)
    }
}
