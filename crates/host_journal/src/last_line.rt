// Whether a segment has its last line. It relies on `disk` for its bytes, and on `trace` for what a last line is.

ghost use Rattle.std.specs.Prelude.{◌≡◌, ◌≢◌, ◌++◌, [], ◌∷◌, ℕ, List, IfErr, IfOk, false, length, true};
ghost use Rattle.host_journal.specs.Disks.{IsQuiet};
ghost use Rattle.host_journal.specs.Starts.{IsUnreadSegment};
ghost use Rattle.host_journal.specs.Texts.{EndsInSums, IsLastLine, IsScanned, ReadsAll, Says, Tells};

use crate::disk::Disk;
use crate::fault::{JournalError, JournalFault, JournalFile, of_file};
use base::OrMemory;
use host_recovery::{MOST_WHOLE, ReadFailed};
use trace::laws::LONGEST_LINE;
use trace::read_totals;
use trace_lines::Text;

/// How many bytes are read at a time.
const PIECE: usize = 4096;

/// The line that comes, as far as it has no more bytes than a line may have.
#[derive(Drop)]
struct LastLine {
    line: Text,
    is_long: bool,
    // whether the line before it is a last line
    is_end: bool,
}

impl LastLine {
    // No byte came.
    fn none() -> Self
        ensures { IsScanned [] result.line result.is_long result.is_end }
    {
        LastLine {
            line: Text::none(),
            is_long: false,
            is_end: false,
        }
    }

    // Takes these bytes.
    fn take(&mut self, bytes: &[u8])
        ensures { (before : List ℕ) → IsScanned before self.old.line self.old.is_long self.old.is_end → IsScanned (before ++ bytes.now) self.new.line self.new.is_long self.new.is_end }
    {
        for byte in bytes {
            self.take_byte(*byte);
        }
    }

    fn take_byte(&mut self, byte: u8)
        ensures { (before : List ℕ) → IsScanned before self.old.line self.old.is_long self.old.is_end → IsScanned (before ++ byte ∷ []) self.new.line self.new.is_long self.new.is_end }
    {
        if byte == b'\n' {
            self.end_line();
        } else {
            self.push(byte);
        }
    }

    // The line that came is whole.
    fn end_line(&mut self)
        ensures { (before : List ℕ) → IsScanned before self.old.line self.old.is_long self.old.is_end → IsScanned (before ++ 10 ∷ []) self.new.line self.new.is_long self.new.is_end }
    {
        self.is_end = self.is_last();
        self.is_long = false;
        self.line.clear();
    }

    // Whether the line that came is a last line.
    fn is_last(&self) -> bool
        ensures long { self.now.is_long ≡ true → result ≡ false }
        ensures last { self.now.is_long ≡ false → Tells IsLastLine self.now.line result }
    {
        if self.is_long {
            return false;
        }
        is_sums(self.line.as_slice())
    }

    // One byte more of the line that comes.
    fn push(&mut self, byte: u8)
        requires { byte ≢ 10 }
        ensures { (before : List ℕ) → IsScanned before self.old.line self.old.is_long self.old.is_end → IsScanned (before ++ byte ∷ []) self.new.line self.new.is_long self.new.is_end }
    {
        if self.line.len() < LONGEST_LINE {
            self.line.push(byte);
        } else {
            self.is_long = true;
        }
    }

    // Whether a last line came, and nothing after it.
    fn is_whole(&self) -> bool
        ensures { (bytes : List ℕ) → IsScanned bytes self.now.line self.now.is_long self.now.is_end → Tells EndsInSums bytes result }
    {
        self.is_end && self.line.len() == 0
    }
}

// Whether this is a last line, without its line feed.
fn is_sums(line: &[u8]) -> bool
    ensures { Tells IsLastLine line.now result }
{
    match str::from_utf8(line) {
        Ok(text) => read_totals(text).is_some(),
        Err(_) => false,
    }
}

/// Whether the segment of that number ends with a last line. What stands before it is not judged.
pub(crate) fn is_ended<D: Disk>(disk: &mut D, number: u64) -> Result<bool, JournalError>
    ensures held { D.held disk.new ≡ D.held disk.old }
    ensures quiet { IsQuiet (D.steps disk.old) (D.steps disk.new) }
    ensures fault { IfErr result (IsUnreadSegment number ((D.held disk.old).segments number) (D.steps disk.old) (D.steps disk.new)) }
    ensures says { Says EndsInSums ((D.held disk.old).segments number) result }
{
    match disk.open_segment(number) {
        Ok(()) => {}
        Err(fault) => return Err(of_file(fault, JournalFile::Segment(number))),
    }
    match ends_so(disk) {
        Ok(is_whole) => Ok(is_whole),
        Err(ReadFailed) => Err(OrMemory::Fault(JournalFault::File(JournalFile::Segment(number)))),
    }
}

// Whether the open segment ends so.
fn ends_so<D: Disk>(disk: &mut D) -> Result<bool, ReadFailed>
    ensures says { Says EndsInSums (D.remaining disk.old) result }
    ensures held { D.held disk.new ≡ D.held disk.old }
    ensures steps { ReadsAll (D.segment disk.old) (D.remaining disk.old) (D.steps disk.old) result (D.steps disk.new) }
{
    let mut piece = [0; PIECE];
    let mut last = LastLine::none();
    let mut came = 0;
    while came < MOST_WHOLE {
        let count = match disk.read(&mut piece) {
            Ok(count) => count,
            Err(ReadFailed) => return Err(ReadFailed),
        };
        if count == 0 {
            return Ok(last.is_whole());
        }
        last.take(&piece[..count]);
        came += count;
    }
    Err(ReadFailed)
}
