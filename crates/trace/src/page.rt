// What is printed and not yet handed on, up to four kilobytes at a time. It relies on `sink`, and on `trace_lines` for the text.

ghost use Rattle.std.specs.Prelude.{◌≡◌, ◌+◌, ◌*◌, ◌^◌, ◌≤◌, [], Some, drop, length, OnOk};
ghost use Rattle.trace.specs.Growing.{Goes};
ghost use Rattle.trace.specs.Pages.{Flushes};

use crate::fault::PrintFault;
use crate::sink::{Sink, hand_on};
use trace_lines::{ROOM, Text};

/// How long a line may be.
pub(crate) const RECORD: usize = 700;

/// What is not yet handed on, and how many bytes were.
#[derive(Drop)]
pub(crate) struct Page {
    pub(crate) text: Text,
    pub(crate) written: u128,
}

/// Hands on what there is. After a failed write the page holds what the sink did not take.
pub(crate) fn flush<S: Sink>(page: &mut Page, out: &mut S) -> Result<(), PrintFault>
    requires { page.old.written ≤ 2 ^ 100 }
    ensures text { Flushes page.old (S.bytes out.old) (S.failures out.old) result page.new (S.bytes out.new) (S.failures out.new) }
    ensures left { Goes (Some []) page.old.text (S.bytes out.old) page.new.text (S.bytes out.new) }
    ensures empty { OnOk result (page.new.text ≡ []) }
    ensures most { page.new.written ≤ page.old.written + ROOM }
    ensures same { S.origin out.new ≡ S.origin out.old }
{
    match hand_on(page.text.as_slice(), out) {
        Ok(()) => {
            page.written += page.text.len() as u128;
            page.text.clear();
            Ok(())
        }
        Err(taken) => {
            drop_front(&mut page.text, taken);
            Err(PrintFault {
                written: page.written + taken as u128,
            })
        }
    }
}

// Drops so many bytes from the front of a text.
fn drop_front(text: &mut Text, count: usize)
    requires { count ≤ length text.old }
    ensures { text.new ≡ drop count text.old }
{
    let mut rest = Text::none();
    rest.put(&text.as_slice()[count..]);
    *text = rest;
}

/// Hands on what there is, where a line more might find no room.
pub(crate) fn make_room<S: Sink>(page: &mut Page, out: &mut S) -> Result<(), PrintFault>
    requires { page.old.written ≤ 2 ^ 100 }
    ensures text { Flushes page.old (S.bytes out.old) (S.failures out.old) result page.new (S.bytes out.new) (S.failures out.new) }
    ensures left { Goes (Some []) page.old.text (S.bytes out.old) page.new.text (S.bytes out.new) }
    ensures room { OnOk result (length page.new.text + RECORD ≤ ROOM) }
    ensures most { page.new.written ≤ page.old.written + ROOM }
    ensures same { S.origin out.new ≡ S.origin out.old }
{
    if page.text.len() + RECORD <= ROOM {
        return Ok(());
    }
    flush(page, out)
}
