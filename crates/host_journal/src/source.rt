// The open segment as a source of bytes. It relies on `disk`, and on `host_recovery` for what a source is.

ghost use Rattle.std.specs.Prelude.{◌≡◌};
ghost use Rattle.host_journal.specs.Starts.{after_failed};

use crate::disk::Disk;
use host_recovery::{ReadFailed, Source};
use std::marker::{Brand, PhantomData};

/// What is read from. Contracts see which one it is, what the folder holds, which segment is open, its steps, and what comes from here on.
pub(crate) trait Reader {
    ghost use Rattle.std.specs.Prelude.{◌≡◌, ◌<◌, ℕ, List, Option, length};
    ghost use Rattle.host_journal.specs.Disks.{Gives, Held, ReadsBytes, Step};

    ghost name: { Self → ℕ };

    ghost held: { Self → Held };

    ghost segment: { Self → ℕ };

    ghost steps: { Self → Option (List Step) };

    ghost remaining: { Self → Option (List ℕ) };

    /// Puts the next bytes at the front of the piece.
    fn read(&mut self, piece: &mut [u8]) -> Result<usize, ReadFailed>
        requires { 0 < length piece.old }
        ensures gives { Gives (remaining self.old) result piece.new (remaining self.new) }
        ensures name { name self.new ≡ name self.old }
        ensures held { held self.new ≡ held self.old }
        ensures segment { segment self.new ≡ segment self.old }
        ensures steps { ReadsBytes (segment self.old) (steps self.old) result (steps self.new) };
}

/// A folder that is lent. Its name is that of the loan.
#[derive(Drop)]
pub(crate) struct Lending<'a, D: Disk> {
    pub(crate) disk: &'a mut D,
}

impl<D: Disk> Lending<'_, D> {
    /// The folder goes back as it is.
    pub(crate) fn end(self)
        ensures held { D.held self.exit.0.now ≡ D.held self.entry.disk.now }
        ensures segment { D.segment self.exit.0.now ≡ D.segment self.entry.disk.now }
        ensures steps { D.steps self.exit.0.now ≡ D.steps self.entry.disk.now }
    {}
}

impl<D: Disk> Reader for Lending<'_, D> {
    ghost name = { λ lending. lending.disk.ghost_name };

    ghost held = { λ lending. D.held lending.disk.now };

    ghost segment = { λ lending. D.segment lending.disk.now };

    ghost steps = { λ lending. D.steps lending.disk.now };

    ghost remaining = { λ lending. D.remaining lending.disk.now };

    fn read(&mut self, piece: &mut [u8]) -> Result<usize, ReadFailed> {
        self.disk.read(piece)
    }
}

/// What stays so while a segment is read. Whoever reads passes `Brand` to a function over this, and picks it there.
pub(crate) trait Lent {
    ghost use Rattle.std.specs.Prelude.{ℕ, List, Option};
    ghost use Rattle.host_journal.specs.Disks.{Held, Step};

    ghost name: { ℕ };

    ghost held: { Held };

    ghost segment: { ℕ };

    ghost steps: { Option (List Step) };
}

impl Lent for Brand {
    ghost use Rattle.std.specs.Prelude.{None};
    ghost use Rattle.host_journal.specs.Disks.{nothing_held};

    ghost name = { 0 };

    ghost held = { nothing_held };

    ghost segment = { 0 };

    ghost steps = { None };
}

/// What is read from, while these stay so. A read that fails is a step.
pub(crate) struct OpenSegment<M: Reader, L: Lent> {
    pub(crate) reader: M,
    /// How many reads failed.
    pub(crate) failed: u64,
    pub(crate) of: PhantomData<L>,
    ghost name: { M.name reader ≡ L.name },
    ghost held: { M.held reader ≡ L.held },
    ghost segment: { M.segment reader ≡ L.segment },
    ghost steps: { M.steps reader ≡ after_failed L.segment failed L.steps },
}

impl<M: Reader, L: Lent> Source for OpenSegment<M, L> {
    ghost remaining = { λ segment. M.remaining segment.reader };

    ghost failures = { λ segment. segment.failed };

    fn read(&mut self, piece: &mut [u8]) -> Result<usize, ReadFailed> {
        if self.failed == u64::MAX {
            return Err(ReadFailed);
        }
        match self.reader.read(piece) {
            Ok(count) => Ok(count),
            Err(ReadFailed) => {
                self.failed += 1;
                Err(ReadFailed)
            }
        }
    }
}
