// Whether the open segment is text. It relies on `disk` for its bytes, and on `trace_lines` for the place where a few of them are kept.

ghost use Rattle.std.specs.Prelude.{◌≡◌, ◌≤◌, IsUtf8, MatchOption, drop, length};
ghost use Rattle.host_journal.specs.Texts.{IsBad, IsCutAt, ReadsAll, Says};

use crate::disk::Disk;
use host_recovery::{MOST_WHOLE, ReadFailed};
use trace_lines::Text;

/// How many bytes a character has at most.
const CHARACTER: usize = 4;

/// How many bytes are read at a time: after what may begin a character they have room in a `Text`.
const PIECE: usize = 4092;

/// Whether all that the open segment gives is UTF-8.
pub(crate) fn is_text<D: Disk>(disk: &mut D) -> Result<bool, ReadFailed>
    ensures says { Says IsUtf8 (D.remaining disk.old) result }
    ensures held { D.held disk.new ≡ D.held disk.old }
    ensures steps { ReadsAll (D.segment disk.old) (D.remaining disk.old) (D.steps disk.old) result (D.steps disk.new) }
{
    let mut piece = [0; PIECE];
    let mut waiting = Text::none();
    let mut came = 0;
    while came < MOST_WHOLE {
        let count = match disk.read(&mut piece) {
            Ok(count) => count,
            Err(ReadFailed) => return Err(ReadFailed),
        };
        if count == 0 {
            return Ok(waiting.len() == 0);
        }
        waiting.put(&piece[..count]);
        match whole_of(waiting.as_slice()) {
            Some(whole) => drop_front(&mut waiting, whole),
            None => return Ok(false),
        }
        came += count;
    }
    Err(ReadFailed)
}

// How many bytes from the front are whole characters. Those after may begin one more; none if they cannot.
fn whole_of(bytes: &[u8]) -> Option<usize>
    ensures { MatchOption result (IsBad bytes.now) (IsCutAt bytes.now) }
{
    match str::from_utf8(bytes) {
        Ok(_) => Some(bytes.len()),
        Err(error) => {
            let whole = error.valid_up_to();
            if bytes.len() - whole < CHARACTER {
                Some(whole)
            } else {
                None
            }
        }
    }
}

// Drops so many bytes from the front of a text.
fn drop_front(text: &mut Text, count: usize)
    requires { count ≤ length text.old }
    ensures { text.new ≡ drop count text.old }
{
    let mut rest = Text::none();
    rest.put(&text.as_slice()[count..]);
    *text = rest;
}
