// Whether a segment begins with a text. It relies on `disk` for its bytes.

ghost use Rattle.std.specs.Prelude.{◌≡◌, ◌≢◌, ◌≤◌, ◌++◌, IfErr, MatchOption, false, length, true};
ghost use Rattle.host_journal.specs.Disks.{IsQuiet};
ghost use Rattle.host_journal.specs.Linked.{BeginsSo, IsOther, LeftAfter};
ghost use Rattle.host_journal.specs.Starts.{IsUnreadSegment};
ghost use Rattle.host_journal.specs.Texts.{ReadsAll, Says};

use crate::disk::Disk;
use crate::fault::{JournalError, JournalFault, JournalFile, of_file};
use base::OrMemory;
use host_recovery::ReadFailed;

/// How many bytes are read at a time.
const PIECE: usize = 4096;

/// Returns whether the segment of that number begins with these bytes.
pub(crate) fn segment_begins_with<D: Disk>(
    disk: &mut D,
    number: u64,
    front: &[u8],
) -> Result<bool, JournalError>
    ensures says { Says (BeginsSo front.now) ((D.held disk.old).segments number) result }
    ensures held { D.held disk.new ≡ D.held disk.old }
    ensures quiet { IsQuiet (D.steps disk.old) (D.steps disk.new) }
    ensures refused { IfErr result (IsUnreadSegment number ((D.held disk.old).segments number) (D.steps disk.old) (D.steps disk.new)) }
{
    match disk.open_segment(number) {
        Ok(()) => {}
        Err(fault) => return Err(of_file(fault, JournalFile::Segment(number))),
    }
    match gives_front(disk, front) {
        Ok(is_so) => Ok(is_so),
        Err(ReadFailed) => Err(OrMemory::Fault(JournalFault::File(JournalFile::Segment(number)))),
    }
}

// Returns whether what the open segment gives begins with these bytes.
fn gives_front<D: Disk>(disk: &mut D, front: &[u8]) -> Result<bool, ReadFailed>
    ensures says { Says (BeginsSo front.now) (D.remaining disk.old) result }
    ensures held { D.held disk.new ≡ D.held disk.old }
    ensures steps { ReadsAll (D.segment disk.old) (D.remaining disk.old) (D.steps disk.old) result (D.steps disk.new) }
{
    let mut piece = [0; PIECE];
    let mut left = front;
    while !left.is_empty() {
        let count = match disk.read(&mut piece) {
            Ok(count) => count,
            Err(ReadFailed) => return Err(ReadFailed),
        };
        if count == 0 {
            return Ok(false);
        }
        match left_after(left, &piece[..count]) {
            Some(rest) => left = rest,
            None => return Ok(false),
        }
    }
    Ok(true)
}

// Returns what of a text is still to come after this piece; `None` if the piece is another one.
fn left_after<'a>(left: &'a [u8], piece: &[u8]) -> Option<&'a [u8]>
    ensures { MatchOption result (IsOther left.now piece.now) (λ rest. LeftAfter left.now piece.now rest.now) }
{
    if piece.len() <= left.len() {
        return without_front(left, piece);
    }
    match without_front(piece, left) {
        Some(_) => Some(&left[left.len()..]),
        None => None,
    }
}

// Returns what follows a front of a text; `None` if the text begins otherwise.
fn without_front<'a>(text: &'a [u8], front: &[u8]) -> Option<&'a [u8]>
    requires { length front.now ≤ length text.now }
    ensures { MatchOption result (BeginsSo front.now text.now → ⊥) (λ rest. text.now ≡ front.now ++ rest.now) }
{
    let (start, rest) = text.split_at(front.len());
    if is_same(start, front) {
        Some(rest)
    } else {
        None
    }
}

fn is_same(text: &[u8], other: &[u8]) -> bool
    ensures same { result ≡ true → text.now ≡ other.now }
    ensures other { result ≡ false → text.now ≢ other.now }
{
    text == other
}
