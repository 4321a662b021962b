// Why there is no trial, or that CCBs are left in one, each as a line. It relies on `trial_disks` for what is wrong with devices, and on
// `cli_commands` for other faults.

ghost use Rattle.std.specs.Prelude.{◌≡◌, ◌≢◌, ◌≤◌};
ghost use Rattle.cli_inspection.specs.Trials.{status_untold};

use cli_commands::{Fault, unwritten};
use cli_text_page::Page;
use host_trial::{Ending, Halt, Trial};
use std::alloc::Global;
use std::io::Write;
use trial_disks::DisksFault;

/// Why there is no trial.
#[derive(Drop)]
pub(crate) enum Untold<'a> {
    /// Memory, a file or the manifest.
    Fault(Fault<'a>),
    /// The devices are not of the form, or have no queues of their own among those of the manifest.
    Disks(DisksFault),
}

/// Reports why there is no trial, and answers the status.
pub(crate) fn report_untold<E: Write>(alloc: Global, untold: &Untold<'_>, err: &mut E) -> u8
    ensures status { (1 ≤ result) × (result ≤ 2) }
    ensures two { status_untold untold.now ≡ 2 → result ≡ 2 }
{
    let mut page = Page::new(alloc);
    page.text("camr: ");
    match untold {
        Untold::Fault(fault) => return fault.report(err),
        Untold::Disks(fault) => fault.put(&mut page),
    }
    page.text("\n");
    write(page, err)
}

/// Reports that requests are left, and answers the status.
pub(crate) fn report_ending<E: Write>(alloc: Global, trial: &Trial, err: &mut E) -> u8
    ensures { (1 ≤ result) × (result ≤ 2) }
{
    let mut page = Page::new(alloc);
    let (words, count) = match trial.ending {
        Ending::Finished => ("camr: each request is finished", 0),
        Ending::Stopped(count) => (stopped(trial.halt), count),
    };
    page.fill(words, &[count as u64]);
    if trial.unsubmitted > 0 {
        page.fill(", {} requests were never submitted", &[trial.unsubmitted]);
    }
    page.text("\n");
    write(page, err)
}

// By what a trial was stopped.
fn stopped(halt: Halt) -> &'static str {
    match halt {
        Halt::Limit => "camr: the trial was stopped by limit: {} CCBs are not finished",
        Halt::Until => "camr: the trial was stopped by until: {} CCBs are not finished",
        Halt::Over => "camr: the trial was stopped: {} CCBs are not finished",
    }
}

// Writes the line of what was refused, and answers the status.
fn write<E: Write>(mut page: Page, err: &mut E) -> u8
    ensures { (1 ≤ result) × (result ≤ 2) }
{
    match page.write_to(err) {
        Ok(()) => 1,
        Err(error) => unwritten(error, err),
    }
}
