// A folder in memory that stops after so many writes. It relies on `host_journal` for what a folder is.

ghost use Rattle.std.specs.Prelude.{◌≡◌, ◌≤◌, length};

use host_journal::{Disk, DiskFault};
use host_recovery::ReadFailed;
use std::alloc::{AllocError, Global};
use trace::WriteFailed;

/// The name of the lock's file.
const LOCK: &str = "lock";

/// A file of the folder.
#[derive(Drop)]
struct Kept {
    name: String,
    bytes: Vec<u8>,
}

/// A folder in memory that stops after so many writes: the last one is cut short. It watches that whatever is put out stands in the segment.
#[derive(Drop)]
pub(crate) struct Memory {
    alloc: Global,
    is_there: bool,
    files: Vec<Kept>,
    // the open segment's place and number, and how many of its bytes were read
    open: usize,
    number: u64,
    read: usize,
    /// Where in the segment begins what this start puts out.
    pub(crate) from: usize,
    pub(crate) out: Vec<u8>,
    left: u32,
    /// Whether something was put out before it stood in the segment.
    pub(crate) is_early: bool,
}

impl Memory {
    /// There is no folder, and so many writes are done.
    pub(crate) fn new(alloc: Global, left: u32) -> Self {
        Memory {
            alloc,
            is_there: false,
            files: Vec::new(alloc),
            open: 0,
            number: 0,
            read: 0,
            from: 0,
            out: Vec::new(alloc),
            left,
            is_early: false,
        }
    }

    // Whether a write is still done.
    fn writes(&mut self) -> bool
        ensures { self.new.number ≡ self.old.number }
    {
        if self.left == 0 {
            return false;
        }
        self.left -= 1;
        true
    }

    // How many of so many bytes are written: the last write is cut short.
    fn count(&self, len: usize) -> usize
        requires { 1 ≤ len }
        ensures least { 1 ≤ result }
        ensures most { result ≤ len }
    {
        if self.left == 0 && len > 1 {
            len / 2
        } else {
            len
        }
    }

    // What was not read yet of the open segment.
    fn rest(&self) -> &[u8] {
        match self.files.get(self.open) {
            Some(file) => file.bytes.as_slice().get(self.read..).unwrap_or(&[]),
            None => &[],
        }
    }

    fn place_of(&self, name: &str) -> Option<usize> {
        self.files
            .iter()
            .position(|file| file.name.as_str() == name)
    }

    // The file has these bytes, whether or not it was there.
    fn make(&mut self, name: String, bytes: &[u8]) -> Result<(), AllocError> {
        let bytes = bytes.to_vec(self.alloc)?;
        match self.place_of(name.as_str()) {
            Some(place) => {
                if let Some(file) = self.files.get_mut(place) {
                    file.bytes = bytes;
                }
                Ok(())
            }
            None => {
                self.files.push(Kept { name, bytes })?;
                Ok(())
            }
        }
    }

    // The same of one that is written whole before it has its name.
    fn make_whole(&mut self, name: String, bytes: &[u8]) -> Result<(), DiskFault> {
        if !self.writes() {
            let half = bytes.len() / 2;
            let new = format!(in self.alloc; "{}.new", name.as_str()).map_err(
                |_| DiskFault::OutOfMemory,
            )?;
            let front = bytes.get(..half).unwrap_or(&[]);
            self.make(new, front).map_err(|_| DiskFault::OutOfMemory)?;
            return Err(DiskFault::Failed);
        }
        self.make(name, bytes).map_err(|_| DiskFault::OutOfMemory)
    }

    // The bytes of a file.
    fn bytes_of(&self, name: &str) -> Option<&[u8]> {
        match self.files.iter().find(|file| file.name.as_str() == name) {
            Some(file) => Some(file.bytes.as_slice()),
            None => None,
        }
    }

    /// The bytes of the newest segment, which is the first or the second one.
    pub(crate) fn segment(&self) -> &[u8] {
        match self.bytes_of("000002.trace") {
            Some(bytes) => bytes,
            None => self.bytes_of("000001.trace").unwrap_or(&[]),
        }
    }

    // Whether what was put out stands in the segment.
    fn is_covered(&self) -> bool {
        let from = self.from;
        let segment = self.segment();
        let Some(told) = segment.get(from..) else {
            return false;
        };
        let out = self.out.as_slice();
        told.starts_with(out)
    }

    /// What is put out from now on is what a new start puts out, and every write is done.
    pub(crate) fn restart(&mut self) {
        let segment = self.segment();
        self.from = whole(segment);
        self.out.clear();
        self.left = u32::MAX;
    }
}

// Puts the next bytes at the front of the piece: how many.
fn copied(rest: &[u8], piece: &mut [u8]) -> usize
    ensures { result ≤ length piece.new }
{
    let count = rest.len().min(piece.len());
    piece[..count].copy_from_slice(&rest[..count]);
    count
}

// How many bytes stand in whole lines.
fn whole(text: &[u8]) -> usize {
    match text.iter().rposition(|byte| *byte == b'\n') {
        Some(place) => place.saturating_add(1),
        None => 0,
    }
}

impl Disk for Memory {
    ghost use Rattle.std.specs.Prelude.{None};
    ghost use Rattle.host_journal.specs.Disks.{nothing_held};

    ghost steps = { λ _. None };

    ghost held = { λ _. nothing_held };

    ghost segment = { λ memory. memory.number };

    ghost remaining = { λ _. None };

    fn names(&mut self, alloc: Global) -> Result<Vec<String>, DiskFault> {
        if !self.is_there {
            return Err(DiskFault::Missing);
        }
        let mut names = Vec::new(alloc);
        for file in &self.files {
            let name = String::from_str(alloc, file.name.as_str()).map_err(
                |_| DiskFault::OutOfMemory,
            )?;
            if name.as_str() != LOCK {
                names.push(name).map_err(|_| DiskFault::OutOfMemory)?;
            }
        }
        Ok(names)
    }

    fn lock(&mut self) -> Result<bool, DiskFault> {
        if !self.is_there {
            return Err(DiskFault::Missing);
        }
        let name = String::from_str(self.alloc, LOCK).map_err(|_| DiskFault::OutOfMemory)?;
        if !self.writes() {
            return Err(DiskFault::Failed);
        }
        self.make(name, &[]).map_err(|_| DiskFault::OutOfMemory)?;
        Ok(true)
    }

    fn make(&mut self) -> Result<(), DiskFault> {
        if !self.writes() {
            return Err(DiskFault::Failed);
        }
        self.is_there = true;
        Ok(())
    }

    fn read_manifest(&mut self, alloc: Global, number: u64) -> Result<Vec<u8>, DiskFault> {
        let name = format!(in alloc; "{number:06}.toml").map_err(|_| DiskFault::OutOfMemory)?;
        match self
            .files
            .iter()
            .find(|file| file.name.as_str() == name.as_str())
        {
            Some(file) => file
                .bytes
                .as_slice()
                .to_vec(alloc)
                .map_err(|_| DiskFault::OutOfMemory),
            None => Err(DiskFault::Missing),
        }
    }

    fn open_segment(&mut self, number: u64) -> Result<(), DiskFault> {
        let name = format!(in self.alloc; "{number:06}.trace").map_err(|_| DiskFault::OutOfMemory)?;
        match self.place_of(name.as_str()) {
            Some(place) => {
                self.open = place;
                self.number = number;
                self.read = 0;
                Ok(())
            }
            None => Err(DiskFault::Missing),
        }
    }

    fn read(&mut self, piece: &mut [u8]) -> Result<usize, ReadFailed> {
        let count = copied(self.rest(), piece);
        self.read = self.read.saturating_add(count);
        Ok(count)
    }

    fn cut(&mut self, length: u64) -> Result<(), DiskFault> {
        if !self.writes() {
            return Err(DiskFault::Failed);
        }
        if let Some(file) = self.files.get_mut(self.open) {
            file.bytes.truncate(length as usize);
        }
        Ok(())
    }

    fn make_manifest(&mut self, number: u64, bytes: &[u8]) -> Result<(), DiskFault> {
        let name = format!(in self.alloc; "{number:06}.toml").map_err(|_| DiskFault::OutOfMemory)?;
        self.make_whole(name, bytes)
    }

    fn make_segment(&mut self, number: u64, bytes: &[u8]) -> Result<(), DiskFault> {
        let name = format!(in self.alloc; "{number:06}.trace").map_err(|_| DiskFault::OutOfMemory)?;
        self.make_whole(name, bytes)?;
        self.from = 0;
        self.open_segment(number)
    }

    fn keep(&mut self, bytes: &[u8]) -> Result<usize, WriteFailed> {
        if !self.writes() {
            return Err(WriteFailed);
        }
        let count = self.count(bytes.len());
        let some = &bytes[..count];
        let open = self.open;
        match self.files.get_mut(open) {
            Some(file) => match file.bytes.extend_from_slice(some) {
                Ok(()) => Ok(count),
                Err(_) => Err(WriteFailed),
            },
            None => Err(WriteFailed),
        }
    }

    fn sync(&mut self) -> Result<(), WriteFailed> {
        if self.writes() {
            Ok(())
        } else {
            Err(WriteFailed)
        }
    }

    fn put(&mut self, bytes: &[u8]) -> Result<usize, WriteFailed> {
        if !self.writes() {
            return Err(WriteFailed);
        }
        let count = self.count(bytes.len());
        let some = &bytes[..count];
        if self.out.extend_from_slice(some).is_err() {
            return Err(WriteFailed);
        }
        if !self.is_covered() {
            self.is_early = true;
        }
        Ok(count)
    }
}
