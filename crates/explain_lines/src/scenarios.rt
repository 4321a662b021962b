// The report of a scenario that has lines which are not of the form. It relies on `scenario` for which lines these are, on `firsts` for
// what is against one, and on `telling` for the report of it.

use crate::firsts::{Kept, is_faulty, line_slip};
use crate::lines::{Line, is_devices, line_of, without_return};
use crate::slips::{Found, Slip};
use crate::telling::{put as put_line_report, put_code, put_line};
use cli_text_page::Page;
use explain_layout::without_mark;
use std::alloc::{AllocError, Global};
use world_calls::Version;

/// How many lines are told of in full, of those that are not of the form.
const MOST_WHOLE: u64 = 8;

/// Puts what there is to say of a scenario, a path and its text, over a manifest of that version, whose first line that is not of the form has that number: of this
/// line, and of the next such lines, of eight in full. Of lines that are wrong only by the carriage return at their ends one is told of. Of
/// what looks like a file of devices it says that alone, and which command takes it.
pub fn put(
    alloc: Global,
    version: Version,
    path: &str,
    text: &str,
    first: usize,
    page: &mut Page,
) -> Result<(), AllocError> {
    let mut told = Told {
        version,
        found: 0,
        has_return: false,
    };
    let line = line_of(path, text, first);
    if is_devices(text) {
        put_devices(&line, page);
        return Ok(());
    }
    told.counts(alloc, line.line)?;
    put_faulty(alloc, version, &line, page)?;
    put_after_mark(alloc, version, &line, page)?;
    put_next(alloc, path, text, first, told, page)
}

// Puts that a line is none of a scenario, since the file looks like one of devices.
fn put_devices(line: &Line<'_>, page: &mut Page) {
    put_line(page, line, 0, without_return(line.line).len());
    page.text("  = here: it is no line of a scenario, and the file looks like one of devices\n");
    put_code(page, "N1");
    page.text("  = to mend it: `camr try MANIFEST ");
    page.foreign(line.path);
    page.text("` takes a file of devices\n");
}

// The version of the manifest; how many lines were found so far; and whether one of them is wrong only by the carriage return at its end.
#[derive(Clone, Copy)]
struct Told {
    version: Version,
    found: u64,
    has_return: bool,
}

impl Told {
    // Whether a line is to be told of: it is not of the form also without a carriage return at its end, or it is the first one that is
    // wrong by that alone. It is counted then.
    fn counts(&mut self, alloc: Global, line: &str) -> Result<bool, AllocError> {
        let is_wrong = is_faulty(alloc, self.version, without_return(line))?;
        let is_return = !is_wrong && !self.has_return && is_faulty(alloc, self.version, line)?;
        if is_return {
            self.has_return = true;
        }
        if is_wrong || is_return {
            self.found = self.found.saturating_add(1);
        }
        Ok(is_wrong || is_return)
    }
}

// Puts what is against a line of a scenario that is not of the form.
fn put_faulty(
    alloc: Global,
    version: Version,
    line: &Line<'_>,
    page: &mut Page,
) -> Result<(), AllocError> {
    let whole = without_return(line.line);
    let found = if is_faulty(alloc, version, whole)? {
        line_slip(alloc, line.line, Kept::Scenario, version)?
    } else {
        Found::of(Slip::Return, whole.len(), line.line.len())
    };
    put_line_report(page, line, &found, Kept::Scenario, version, "N1");
    Ok(())
}

// Puts the same of what follows a byte order mark before a line, if that is not of the form either.
fn put_after_mark(
    alloc: Global,
    version: Version,
    line: &Line<'_>,
    page: &mut Page,
) -> Result<(), AllocError> {
    let rest = without_mark(line.line);
    if rest.len() == line.line.len() || !is_faulty(alloc, version, rest)? {
        return Ok(());
    }
    let mark = line.line.len().saturating_sub(rest.len());
    let after = Line {
        path: line.path,
        text: line.text,
        number: line.number,
        start: line.start.saturating_add(mark),
        line: rest,
    };
    page.fill("\nrefused too: N1 at {}\n", &[line.number as u64]);
    put_faulty(alloc, version, &after, page)
}

// Puts the same of the lines after one, as far as they are to be told of, and of how many of them nothing was put.
fn put_next(
    alloc: Global,
    path: &str,
    text: &str,
    first: usize,
    told: Told,
    page: &mut Page,
) -> Result<(), AllocError> {
    let mut told = told;
    let mut number = 0usize;
    let mut start = 0usize;
    for line in text.split('\n') {
        number = number.saturating_add(1);
        if number > first && told.counts(alloc, line)? && told.found <= MOST_WHOLE {
            let line = Line {
                path,
                text,
                number,
                start,
                line,
            };
            page.fill("\nrefused too: N1 at {}\n", &[number as u64]);
            put_faulty(alloc, told.version, &line, page)?;
        }
        start = start.saturating_add(line.len()).saturating_add(1);
    }
    let left = told.found.saturating_sub(MOST_WHOLE);
    if left > 0 {
        page.fill("\nrefused too: {} lines more, by N1\n", &[left]);
    }
    Ok(())
}
