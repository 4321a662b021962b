// The rows of a table, written one by one. It relies on `rows` for what they are of, on `decisions` for the texts, and on `cli_text_page` for the
// page that a row is put on.

ghost use Rattle.std.specs.Prelude.{◌≡◌, ◌<◌, ◌++◌, false, map, string_bytes, OnOk};
ghost use Rattle.std.specs.List.{flat_map};
ghost use Rattle.std.specs.Io.KnownBytes.{Appends};
ghost use Rattle.cli_text_page.specs.Page.{Puts, byte_digits};
ghost use Rattle.show_decision.specs.RowTexts.{ascq_text, heading_text, key_rows_text, key_text, last_text, line_text, range_text, row_text, usual_text};

use crate::decisions::Decisions;
use crate::rows::Row;
use ccb::CamStatus;
use cli_text_page::Page;
use std::alloc::Global;
use std::io;
use std::io::Write;

/// How many bytes stand before the decision of a row.
const WIDTH: usize = 45;

/// What all rows of a key begin with.
#[derive(Clone, Copy)]
pub(crate) struct Heading {
    pub(crate) status: CamStatus,
    pub(crate) scsi: u8,
    pub(crate) response: u8,
    pub(crate) key: u8,
}

/// Writes all rows of a key: that of the codes of which the usual thing was decided, and the others.
pub(crate) fn write_key_rows<W: Write>(
    alloc: Global,
    heading: Heading,
    decisions: &Decisions,
    usual: usize,
    rows: &[Row],
    out: &mut W,
) -> io::Result<()>
    requires { heading.key < 16 }
    ensures { OnOk result (Appends (W.contents out.old) (W.contents out.new) (key_rows_text heading (map string_bytes decisions.now.texts.items) usual rows.now)) }
{
    write_usual(alloc, heading, decisions, usual, out)?;
    write_rows(alloc, heading, decisions, rows, out)
}

// Writes the row of a key alone.
fn write_usual<W: Write>(
    alloc: Global,
    heading: Heading,
    decisions: &Decisions,
    usual: usize,
    out: &mut W,
) -> io::Result<()>
    requires { heading.key < 16 }
    ensures { OnOk result (Appends (W.contents out.old) (W.contents out.new) (usual_text heading (map string_bytes decisions.now.texts.items) usual)) }
{
    let mut page = Page::new(alloc);
    put_heading(heading, &mut page);
    end_row(decisions.text(usual), &mut page);
    page.write_to(out)?;
    Ok(())
}

// Writes the rows of ranges.
fn write_rows<W: Write>(
    alloc: Global,
    heading: Heading,
    decisions: &Decisions,
    rows: &[Row],
    out: &mut W,
) -> io::Result<()>
    requires { heading.key < 16 }
    ensures { OnOk result (Appends (W.contents out.old) (W.contents out.new) (flat_map (line_text heading (map string_bytes decisions.now.texts.items)) rows.now)) }
{
    for row in rows {
        write_row(alloc, heading, decisions, *row, out)?;
    }
    Ok(())
}

fn write_row<W: Write>(
    alloc: Global,
    heading: Heading,
    decisions: &Decisions,
    row: Row,
    out: &mut W,
) -> io::Result<()>
    requires { heading.key < 16 }
    ensures { OnOk result (Appends (W.contents out.old) (W.contents out.new) (line_text heading (map string_bytes decisions.now.texts.items) row)) }
{
    let mut page = Page::new(alloc);
    put_heading(heading, &mut page);
    put_range(row, &mut page);
    end_row(decisions.text(row.decision), &mut page);
    page.write_to(out)?;
    Ok(())
}

// Puts what was decided after what is there, in its place, and ends the row.
fn end_row(decision: &str, page: &mut Page)
    ensures { page.new.is_torn ≡ false → (page.old.is_torn ≡ false) × (string_bytes page.new.text ≡ row_text (string_bytes page.old.text) decision.now) }
{
    let wide = page.len();
    page.blanks(WIDTH.saturating_sub(wide));
    page.text(decision);
    page.text("\n");
}

// Puts the status, the SCSI status, the response code and the key.
fn put_heading(heading: Heading, page: &mut Page)
    requires { heading.key < 16 }
    ensures { Puts page.old (heading_text heading) page.new }
{
    put_byte("status ", heading.status.code(), page);
    put_byte(" scsi ", heading.scsi, page);
    put_byte(" code ", heading.response, page);
    page.text(" key ");
    put_key(heading.key, page);
}

// Puts a byte after some words.
fn put_byte(before: &str, byte: u8, page: &mut Page)
    ensures { Puts page.old (before.now ++ byte_digits byte) page.new }
{
    page.text(before);
    page.byte(byte);
}

// Puts the digit of a key.
fn put_key(key: u8, page: &mut Page)
    requires { key < 16 }
    ensures { Puts page.old (key_text key) page.new }
{
    page.ascii(if key < 10 {
        key + b'0'
    } else {
        key + (b'a' - 10)
    });
}

// Puts an ASC with a range of ASCQ; of all of them the ASC alone.
fn put_range(row: Row, page: &mut Page)
    ensures { Puts page.old (range_text row) page.new }
{
    put_byte(" asc ", row.asc, page);
    put_ascq(row.first, row.last, page);
}

fn put_ascq(first: u8, last: u8, page: &mut Page)
    ensures { Puts page.old (ascq_text first last) page.new }
{
    if first == 0 && last == u8::MAX {
        return;
    }
    put_byte("/", first, page);
    put_last(first, last, page);
}

fn put_last(first: u8, last: u8, page: &mut Page)
    ensures { Puts page.old (last_text first last) page.new }
{
    if first != last {
        put_byte("-", last, page);
    }
}
