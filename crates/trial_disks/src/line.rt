// How a line says what is wrong with a file of devices. It relies on `cli_text_page` for the page.

use crate::fault::{DisksFault, Form, Misplaced, Never, Wrong};
use crate::keys::Bounds;
use cli_text_page::Page;

impl DisksFault {
    /// Puts its code, where it is, and what is wrong there, all in one line and without a line feed.
    pub fn put(&self, page: &mut Page) {
        page.text(self.code());
        self.put_place(page);
        page.text(": ");
        page.foreign(self.key.as_str());
        self.put_wrong(page);
    }

    // Puts where it is.
    fn put_place(&self, page: &mut Page) {
        if let Wrong::Text { line, column } = self.wrong {
            page.fill(" at line {}, column {}", &[line, column]);
        }
        if self.device > 0 {
            page.fill(" at device {}", &[self.device as u64]);
        }
        if self.failure > 0 {
            page.fill(", failure {}", &[self.failure as u64]);
        }
    }

    // Puts what is wrong with the key, after it.
    fn put_wrong(&self, page: &mut Page) {
        match self.wrong {
            Wrong::Text { .. } => {}
            Wrong::Missing => page.text(" is missing"),
            Wrong::Unknown => page.text(self.no_key()),
            Wrong::Form(form) => page.text(form.lacking()),
            Wrong::Outside { number, bounds } => put_outside(number, bounds, page),
            Wrong::Turned { least, most } => {
                page.fill(" is [{}, {}], and the least comes first", &[least, most]);
            }
            Wrong::Never(never) => put_never(never, page),
            Wrong::Queue(misplaced) => put_misplaced(misplaced, page),
        }
    }

    // What is said of a key that is none.
    fn no_key(&self) -> &'static str {
        if self.failure > 0 {
            " is no key of a failure"
        } else if self.device > 0 {
            " is no key of a device"
        } else {
            " is no key of a file of devices"
        }
    }
}

impl Form {
    // What is said, after the key, of a value that is not so.
    fn lacking(self) -> &'static str {
        match self {
            Form::Table => "it is no table",
            Form::Devices => " is no array of tables: write [[device]]",
            Form::Failures => " is no array of tables: write [[device.failure]]",
            Form::Number => " is no whole number",
            Form::Span => " is neither a whole number nor an array of two",
            Form::Text => " is no text",
            Form::Completion => {
                " has not three words: the CAM status, the SCSI status and the sense data, as 0c 08 -"
            }
            Form::Status => " has no CAM status as its first word",
            Form::Scsi => " has no SCSI status as its second word",
            Form::Sense => " has no sense data as its third word",
        }
    }
}

fn put_outside(number: i64, bounds: Bounds, page: &mut Page) {
    page.text(" is ");
    page.signed(number);
    page.fill(", not {} to {}", &[bounds.least, bounds.most]);
}

// Puts why no start ever meets a failure, after the key that says so.
fn put_never(never: Never, page: &mut Page) {
    let (words, numbers) = match never {
        Never::InProgress => (
            " is no failure: by CAM status 00 the request is in progress",
            [0, 0],
        ),
        Never::Completed => (
            " is no failure: by CAM status 01 the request is completed",
            [0, 0],
        ),
        Never::Window { from, until } => {
            (" is {}, not less than until, which is {}", [from, until])
        }
        Never::Period { from, period } => {
            (" is {}, not less than period, which is {}", [from, period])
        }
        Never::Patch { first, last } => (" is {}, more than last, which is {}", [first, last]),
    };
    page.fill(words, &numbers);
}

// Puts why a device has no queue of its own, after the key.
fn put_misplaced(misplaced: Misplaced, page: &mut Page) {
    let (words, numbers) = match misplaced {
        Misplaced::Beyond { queue, queues } => (
            "queue is {}, and the queues of the manifest are 0 to {}",
            [queue, queues.saturating_sub(1)],
        ),
        Misplaced::Taken { queue, device } => {
            ("queue is {}, which device {} has", [queue, device])
        }
        Misplaced::Unnamed { device } => ("queue is missing, as in device {}", [device, 0]),
    };
    page.fill(words, &numbers);
}
