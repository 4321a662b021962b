// A file is written whole in a folder where names are planted, each call fails in its turn, and others write meanwhile.

use cli_io::{Folder, Look, Rights, replace};
use std::alloc::{AllocError, Global};
use std::io;
use std::io::ErrorKind;

/// What stood there, and what is to stand there.
const OLD: &[u8] = b"old";

const NEW: &[u8] = b"all of the bytes";

const RIGHTS: Rights = Rights {
    mode: 0o640,
    uid: 1,
    gid: 2,
};

/// More calls than there are.
const CALLS: u32 = 40;

/// What stands under a name.
#[derive(Drop)]
struct Held {
    name: String,
    bytes: Vec<u8>,
    mode: u32,
}

/// A folder in memory, one of whose calls fails. It watches at each call that what stands under `out` is the old or all of the new.
#[derive(Drop)]
struct Planted {
    alloc: Global,
    held: Vec<Held>,
    open: Option<String>,
    is_synced: bool,
    // the number that is drawn next, and by how much the one after that is greater
    number: u64,
    further: u64,
    calls: u32,
    fails_at: u32,
    is_torn: bool,
}

impl Planted {
    fn new(alloc: Global, fails_at: u32) -> Self {
        Planted {
            alloc,
            held: Vec::new(alloc),
            open: None,
            is_synced: false,
            number: 0,
            further: 1,
            calls: 0,
            fails_at,
            is_torn: false,
        }
    }

    fn plant(&mut self, name: &str, bytes: &[u8], mode: u32) -> Result<(), AllocError> {
        self.held.push(Held {
            name: String::from_str(self.alloc, name)?,
            bytes: bytes.to_vec(self.alloc)?,
            mode,
        })?;
        Ok(())
    }

    fn find(&self, name: &str) -> Option<&Held> {
        self.held.iter().find(|held| held.name.as_str() == name)
    }

    fn has(&self, name: &str, bytes: &[u8]) -> bool {
        self.find(name)
            .is_some_and(|held| held.bytes.as_slice() == bytes)
    }

    // One call more, which may fail.
    fn call(&mut self) -> io::Result<()> {
        self.calls = self.calls.saturating_add(1);
        if self.find("out").is_some() && !self.has("out", OLD) && !self.has("out", NEW) {
            self.is_torn = true;
        }
        if self.calls == self.fails_at {
            return Err(io::Error::from(ErrorKind::Other));
        }
        Ok(())
    }

    fn is_open(&self, name: &str) -> bool {
        self.open.as_ref().is_some_and(|open| open.as_str() == name)
    }

    fn take_away(&mut self, name: &str) {
        self.held.retain(|held| held.name.as_str() != name);
    }
}

impl Folder for Planted {
    ghost use Rattle.std.specs.Prelude.{None};

    ghost steps = { λ _. None };

    fn lead(&mut self, path: &str) -> io::Result<String> {
        self.call()?;
        let out = if path == "link" { "out" } else { path };
        Ok(String::from_str(self.alloc, out)?)
    }

    fn look(&mut self, path: &str) -> io::Result<Look> {
        self.call()?;
        Ok(match self.find(path) {
            Some(held) => Look::File(Rights {
                mode: held.mode,
                ..RIGHTS
            }),
            None => Look::Nothing,
        })
    }

    fn chance(&mut self) -> io::Result<u64> {
        self.call()?;
        let number = self.number;
        self.number = self.number.saturating_add(self.further);
        Ok(number)
    }

    fn create_new(&mut self, path: &str, mode: u32) -> io::Result<()> {
        self.call()?;
        if self.find(path).is_some() {
            return Err(io::Error::from(ErrorKind::AlreadyExists));
        }
        self.plant(path, b"", mode)?;
        self.open = Some(String::from_str(self.alloc, path)?);
        self.is_synced = false;
        Ok(())
    }

    fn open_stream(&mut self, path: &str) -> io::Result<()> {
        self.call()?;
        self.open = Some(String::from_str(self.alloc, path)?);
        Ok(())
    }

    // At most three bytes.
    fn write(&mut self, bytes: &[u8]) -> io::Result<usize> {
        self.call()?;
        let some = bytes.get(..3).unwrap_or(bytes);
        let Some(open) = &self.open else {
            return Err(io::Error::from(ErrorKind::Other));
        };
        for held in self.held.iter_mut() {
            if held.name.as_str() == open.as_str() {
                held.bytes.extend_from_slice(some)?;
            }
        }
        self.is_synced = false;
        Ok(some.len())
    }

    fn dress(&mut self, rights: Rights) -> io::Result<()> {
        self.call()?;
        let Some(open) = &self.open else {
            return Err(io::Error::from(ErrorKind::Other));
        };
        for held in self.held.iter_mut() {
            if held.name.as_str() == open.as_str() {
                held.mode = rights.mode;
            }
        }
        self.is_synced = false;
        Ok(())
    }

    fn sync(&mut self) -> io::Result<()> {
        self.call()?;
        self.is_synced = true;
        Ok(())
    }

    fn rename(&mut self, from: &str, to: &str) -> io::Result<()> {
        self.call()?;
        if !self.is_open(from) || !self.is_synced {
            self.is_torn = true;
        }
        let name = String::from_str(self.alloc, to)?;
        self.take_away(to);
        for held in self.held.iter_mut() {
            if held.name.as_str() == from {
                held.name = name;
                break;
            }
        }
        self.open = None;
        Ok(())
    }

    fn remove(&mut self, path: &str) {
        let _ = self.call();
        if self.is_open(path) {
            self.take_away(path);
        } else {
            self.is_torn = true;
        }
        self.open = None;
    }

    fn settle(&mut self, _path: &str) {
        let _ = self.call();
    }
}

// Whether the folder is as it is to be: what stood there, if all failed, or the new with the mode of the old; and nothing else.
fn is_as_wanted(folder: &Planted, is_done: bool, mode: u32, count: usize) -> bool {
    let out = if is_done { NEW } else { OLD };
    folder.has("out", out)
        && folder.find("out").is_some_and(|held| held.mode == mode)
        && folder.held.len() == count
        && !folder.is_torn
}

/// Each call fails in its turn: what stands there is what was there, or all that is written, with its mode, and nothing else is left.
pub fn each_call_of_a_folder_fails_once(alloc: Global) -> Result<bool, AllocError> {
    let mut done = 0u32;
    for fails_at in 1..=CALLS {
        let mut folder = Planted::new(alloc, fails_at);
        folder.plant("out", OLD, 0o640)?;
        folder.plant("other", OLD, 0o600)?;
        let is_done = replace(alloc, &mut folder, "link", NEW).is_ok();
        if !is_as_wanted(&folder, is_done, 0o640, 2) || !folder.has("other", OLD) {
            return Ok(false);
        }
        if is_done {
            done = done.saturating_add(1);
        }
    }
    // lead, look, a number, a name, six writes, rights, sync and rename: a failure of any is one, of what comes after is none
    Ok(done == CALLS - 13)
}

/// The same where nothing stands there: then nothing does after a failure either.
pub fn a_new_file_is_whole_or_not_there(alloc: Global) -> Result<bool, AllocError> {
    for fails_at in 1..=CALLS {
        let mut folder = Planted::new(alloc, fails_at);
        let is_done = replace(alloc, &mut folder, "out", NEW).is_ok();
        let is_as_wanted = if is_done {
            is_as_wanted(&folder, true, 0o666, 1)
        } else {
            folder.held.is_empty() && !folder.is_torn
        };
        if !is_as_wanted {
            return Ok(false);
        }
    }
    Ok(true)
}

/// The names that are drawn first are taken: what stands there stays, and another is drawn. Where all are, nothing is written.
pub fn names_are_planted(alloc: Global) -> Result<bool, AllocError> {
    let mut folder = Planted::new(alloc, 0);
    folder.plant("out", OLD, 0o640)?;
    folder.plant("out.camr-0000000000000000", OLD, 0o600)?;
    folder.plant("out.camr-0000000000000001", OLD, 0o600)?;
    let is_done = replace(alloc, &mut folder, "out", NEW).is_ok();
    let stays = folder.has("out.camr-0000000000000000", OLD)
        && folder.has("out.camr-0000000000000001", OLD);
    let others = is_done && stays && is_as_wanted(&folder, true, 0o640, 3);

    let mut folder = Planted::new(alloc, 0);
    folder.further = 0;
    folder.plant("out", OLD, 0o640)?;
    folder.plant("out.camr-0000000000000000", OLD, 0o600)?;
    let is_refused = replace(alloc, &mut folder, "out", NEW).is_err();
    let stays = folder.has("out.camr-0000000000000000", OLD);
    Ok(others && is_refused && stays && is_as_wanted(&folder, false, 0o640, 2))
}
