// What there is to say of a code, and how it is printed. The rows stand in `programs`, `policies`, `files` and `calls`; docs/FORMATS.md
// and docs/POLICIES.md have the same words, and a test sees that each example gives its code, and that what is mended does not.

use crate::calls::{CALLS, QUEUES, SHARED};
use crate::code::Code;
use crate::files::{DEVICES, JOURNALS, MANIFESTS, SCENARIOS, TRACES};
use crate::policies::POLICIES;
use crate::programs::{BYTES, SHAPES, TEXTS};
use cli_text_page::Page;
use std::alloc::Global;
use std::io;
use std::io::Write;

/// By what an example is shown.
#[derive(Clone, Copy, PartialEq, Eq)]
pub enum Shown {
    /// `check`, of the beginning of a manifest, with the program p1 after it, which is POLICY.
    Manifest,
    /// `migrate`, of the same.
    Migration,
    /// `check`, of the text of a program.
    Program,
    /// `check`, of the text of a program's beginning, with POLICY after it.
    Head,
    /// `check`, of the bytes of a program.
    Code,
    /// `check`, of the bytes of a program's beginning, with POLICY_BYTES after them.
    CodeHead,
    /// `run`, of a scenario.
    Scenario,
    /// `replay`, of a trace.
    Trace,
    /// `try`, of a file of devices.
    Devices,
    /// The program itself, by the words of its command line.
    Command,
    /// No file: a call of a host.
    Call,
}

/// What there is to say of a code. A line of an example with `# N times` after it stands for N such lines.
#[derive(Clone, Copy)]
pub struct Explanation {
    /// What it means, with its numbers: a sentence without its full stop.
    pub meaning: &'static str,
    /// What most often is the cause, or what to do.
    pub cause: &'static str,
    /// What to do about it, where a manifest that is checked gives it.
    pub advice: Option<&'static str>,
    pub shown: Shown,
    /// The smallest text that gives the code.
    pub example: &'static str,
    /// That text mended.
    pub mended: &'static str,
}

/// How many times a line of an example is written out at most.
const MOST_WRITTEN: u64 = 8;

/// A program that is accepted: it gives its freeze back and lets the CCB wait again.
pub const POLICY: &str =
    "jeq r2, 0, +2\nmov64 r1, r2\ncall 2\nmov64 r1, 1\ncall 4\nmov64 r0, 0\nexit";

/// Its bytes.
pub const POLICY_BYTES: &str =
    "15 02 02 00 00 00 00 00\nbf 21 00 00 00 00 00 00\n85 00 00 00 02 00 00 00\nb7 01 00 00 01 00 00 00\n85 00 00 00 04 00 00 00\nb7 00 00 00 00 00 00 00\n95 00 00 00 00 00 00 00";

// What there is to say of no code.
const NOTHING: Explanation = Explanation {
    meaning: "",
    cause: "",
    advice: None,
    shown: Shown::Call,
    example: "",
    mended: "",
};

impl Code {
    // The rows of its letter.
    fn rows(self) -> &'static [Explanation] {
        match self.letter {
            b'A' => TEXTS,
            b'E' => BYTES,
            b'S' => SHAPES,
            b'V' => POLICIES,
            b'M' => MANIFESTS,
            b'N' => SCENARIOS,
            b'J' => JOURNALS,
            b'C' => CALLS,
            b'Q' => QUEUES,
            b'X' => TRACES,
            b'L' => SHARED,
            b'D' => DEVICES,
            _ => &[],
        }
    }

    /// What there is to say of it.
    pub fn explanation(self) -> Explanation {
        let place = usize::from(self.number.saturating_sub(1));
        self.rows().get(place).copied().unwrap_or(NOTHING)
    }
}

impl Shown {
    // What stands above an example.
    fn title(self) -> &'static str {
        match self {
            Shown::Manifest => "The beginning of a manifest",
            Shown::Migration => "The beginning of a manifest that is to be migrated",
            Shown::Program => "A program",
            Shown::Head => "The beginning of a program",
            Shown::Code => "A program's `code`",
            Shown::CodeHead => "The beginning of a program's `code`",
            Shown::Scenario => "A scenario",
            Shown::Trace => "A trace",
            Shown::Devices => "A file of devices",
            Shown::Command => "A command",
            Shown::Call => "A call of a host",
        }
    }

    // Whether a line of comment may stand in an example.
    fn has_comments(self) -> bool {
        !matches!(self, Shown::Code | Shown::CodeHead | Shown::Trace)
    }
}

/// Writes what the code means, its commonest cause, the smallest text that gives it, and that text mended. It fails if memory is refused,
/// as such an error and with nothing out, or if the writer does.
pub fn print<W: Write>(alloc: Global, code: Code, out: &mut W) -> io::Result<()> {
    let mut page = Page::new(alloc);
    put(code, &mut page);
    page.write_to(out)
}

fn put(code: Code, page: &mut Page) {
    let row = code.explanation();
    page.shown(&code);
    page.text(": ");
    page.text(row.meaning);
    page.text(".\nMost often: ");
    page.text(row.cause);
    page.text(".\n\n");
    page.text(row.shown.title());
    page.text(" that gives it:\n\n");
    put_lines(row.example, row.shown, page);
    page.text("\nMended:\n\n");
    put_lines(row.mended, row.shown, page);
}

// Puts the lines of an example, each as often as it says.
fn put_lines(text: &str, shown: Shown, page: &mut Page) {
    let text = if text.is_empty() { "(nothing)" } else { text };
    for line in text.split('\n') {
        match line.split_once("   # ") {
            Some((line, times)) => put_times(line, count_in(times), shown, page),
            None => put_line(line, page),
        }
    }
}

// N of `N times`.
fn count_in(times: &str) -> u64 {
    let number = times.split(' ').next().unwrap_or("");
    number.parse::<u64>().unwrap_or(1)
}

// Puts a line so many times; if these are many, once, after how often it is meant.
fn put_times(line: &str, count: u64, shown: Shown, page: &mut Page) {
    if count <= MOST_WRITTEN {
        for _time in 0..count {
            put_line(line, page);
        }
        return;
    }
    page.fill(
        if shown.has_comments() {
            "    # the next line {} times\n"
        } else {
            "    (the next line {} times)\n"
        },
        &[count],
    );
    put_line(line, page);
}

fn put_line(line: &str, page: &mut Page) {
    page.text("    ");
    page.text(line);
    page.text("\n");
}
