// Prints how a case came out otherwise: for each output the first line that differs, and the status. It relies on
// `test_cases`.

use std::io;
use std::io::Write;
use test_cases::{Case, Outcome};

/// Writes the case's name and place, and what differs.
pub fn print<W: Write>(path: &str, case: &Case<'_>, came: &Outcome, out: &mut W) -> io::Result<()> {
    let wanted = &case.wanted;
    writeln!(out, "{path}:{}: {}", case.line, case.name)?;
    print_text("standard output", &wanted.out, &came.out, out)?;
    print_text("standard error", &wanted.err, &came.err, out)?;
    if wanted.status != came.status {
        writeln!(
            out,
            "  status: {} is wanted, and {} came",
            wanted.status, came.status
        )?;
    }
    Ok(())
}

// The first line in which two texts differ.
fn print_text<W: Write>(name: &str, wanted: &[u8], came: &[u8], out: &mut W) -> io::Result<()> {
    let mut wanted_lines = wanted.split(|byte| *byte == b'\n');
    let mut lines = came.split(|byte| *byte == b'\n');
    for number in 1..u64::MAX {
        let (wanted, came) = (wanted_lines.next(), lines.next());
        if wanted != came {
            writeln!(out, "  {name}, line {number}:")?;
            print_line("wanted", wanted, out)?;
            return print_line("came", came, out);
        }
        if came.is_none() {
            break;
        }
    }
    Ok(())
}

// A line, and nothing where the text has no such line.
fn print_line<W: Write>(name: &str, line: Option<&[u8]>, out: &mut W) -> io::Result<()> {
    write!(out, "    {name}")?;
    if let Some(line) = line {
        write!(out, ": ")?;
        out.write_all(line)?;
    }
    writeln!(out)
}
