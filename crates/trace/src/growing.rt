// A trace that is printed while its history grows: its first line, then the line of each record as it comes, and at the end the sums. It relies on
// `page` for what goes out, and on `printer` and `sums` for lines.

ghost use Rattle.std.specs.Prelude.{◌≡◌, ◌+◌, ◌≤◌, ◌⊎◌, [], Some, length, OnErr, OnOk};
ghost use Rattle.trace_lines.specs.Written.{IsPut};
ghost use Rattle.trace.specs.HasText.{HasText};
ghost use Rattle.trace.specs.Growing.{FailsBySink, Goes, PrintsOn, StopsIn};
ghost use Rattle.trace.specs.TraceText.{header, record_text, totals_text};

use crate::fitting::fits;
use crate::page::{Page, RECORD, flush, make_room};
use crate::printer::print_record;
use crate::sink::{Sink, WriteFailed};
use crate::sums::print_totals;
use crate::version::header;
use std::marker::Model;
use trace_lines::{ROOM, Text};
use world_calls::{Record, Totals, Version};

/// A trace of that version, as far as it is printed. Of its text up to four kilobytes wait to be handed on. Contracts see the version,
/// and the bytes that wait.
#[derive(Drop)]
pub struct Growing {
    version: Version,
    // its count of bytes is begun anew by each call
    page: Page,
}

impl Model for Growing {
    ghost use Rattle.trace.specs.Growing.{GrowingState};

    ghost Value = { GrowingState };

    ghost view = { λ g. record { version = g.version; waiting = g.page.text } };
}

impl Growing {
    /// The first line, which waits.
    pub fn of(version: Version) -> Self
        ensures { result ≡ record { version = version; waiting = header version } }
    {
        let mut text = Text::none();
        text.put(header(version).as_bytes());
        Growing {
            version,
            page: Page { text, written: 0 },
        }
    }

    /// Prints the line of one record more. If it finds no room, what waits is handed on before. After a failed write nothing of the line is
    /// printed, and a further call goes on from there: no byte that the sink took goes out again, and none is left out.
    pub fn print_next<S: Sink>(&mut self, entry: &Record, out: &mut S) -> Result<(), WriteFailed>
        requires spelled { HasText self.old.version entry.now }
        ensures text { PrintsOn (record_text self.old.version entry.now) self.old.waiting (S.bytes out.old) result self.new.waiting (S.bytes out.new) }
        // A write that failed did so before the line.
        ensures stops { OnErr result (StopsIn (Some []) self.old.waiting (S.bytes out.old) (S.bytes out.new)) }
        ensures failures { FailsBySink (S.failures out.old) result (S.failures out.new) }
        ensures version { self.new.version ≡ self.old.version }
        ensures left { OnErr result (Goes (Some []) self.old.waiting (S.bytes out.old) self.new.waiting (S.bytes out.new)) }
    {
        self.make_room(out)?;
        self.put(entry);
        Ok(())
    }

    // The line of a record waits too, for which there is room.
    fn put(&mut self, entry: &Record)
        requires spelled { HasText self.old.version entry.now }
        requires room { length self.old.waiting + RECORD ≤ ROOM }
        ensures text { IsPut (record_text self.old.version entry.now) self.old.waiting self.new.waiting }
        ensures version { self.new.version ≡ self.old.version }
    {
        fits(entry);
        print_record(entry, &mut self.page.text);
    }

    // So does the last line.
    fn put_totals(&mut self, totals: Totals)
        requires { length self.old.waiting + RECORD ≤ ROOM }
        ensures text { IsPut (totals_text totals) self.old.waiting self.new.waiting }
    {
        print_totals(totals, &mut self.page.text);
    }

    // Hands on what waits, where a line more might find no room.
    fn make_room<S: Sink>(&mut self, out: &mut S) -> Result<(), WriteFailed>
        ensures text { PrintsOn (Some []) self.old.waiting (S.bytes out.old) result self.new.waiting (S.bytes out.new) }
        ensures failures { FailsBySink (S.failures out.old) result (S.failures out.new) }
        ensures left { Goes (Some []) self.old.waiting (S.bytes out.old) self.new.waiting (S.bytes out.new) }
        ensures room { OnOk result (length self.new.waiting + RECORD ≤ ROOM) }
        ensures version { self.new.version ≡ self.old.version }
    {
        self.page.written = 0;
        match make_room(&mut self.page, out) {
            Ok(()) => Ok(()),
            Err(_) => Err(WriteFailed),
        }
    }

    /// Hands on what waits. After a failed write the rest waits, and a further call hands it on.
    pub fn hand_on<S: Sink>(&mut self, out: &mut S) -> Result<(), WriteFailed>
        ensures text { PrintsOn (Some []) self.old.waiting (S.bytes out.old) result self.new.waiting (S.bytes out.new) }
        ensures failures { FailsBySink (S.failures out.old) result (S.failures out.new) }
        ensures left { Goes (Some []) self.old.waiting (S.bytes out.old) self.new.waiting (S.bytes out.new) }
        ensures all { OnOk result (self.new.waiting ≡ []) }
        ensures version { self.new.version ≡ self.old.version }
    {
        self.page.written = 0;
        match flush(&mut self.page, out) {
            Ok(()) => Ok(()),
            Err(_) => Err(WriteFailed),
        }
    }

    /// Prints the last line, and hands all on. Nothing can be printed after it.
    pub fn end<S: Sink>(mut self, totals: Totals, out: &mut S) -> Result<(), WriteFailed>
        ensures text { PrintsOn (totals_text totals) self.waiting (S.bytes out.old) result [] (S.bytes out.new) }
        ensures stops { OnErr result (StopsIn (Some []) self.waiting (S.bytes out.old) (S.bytes out.new) ⊎ StopsIn (totals_text totals) self.waiting (S.bytes out.old) (S.bytes out.new)) }
        ensures failures { FailsBySink (S.failures out.old) result (S.failures out.new) }
    {
        self.make_room(out)?;
        self.put_totals(totals);
        self.hand_on(out)
    }
}
