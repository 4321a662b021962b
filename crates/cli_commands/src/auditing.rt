// The audit of a journal, over a disk. It relies on `host_journal`, on `journal_reports` for how faults are reported, and on `trace_lines` for
// numbers.

ghost use Rattle.std.specs.Prelude.{◌≡◌, ◌≢◌, ◌≤◌};
ghost use Rattle.std.specs.Io.KnownBytes.{Appends, Keeps};
ghost use Rattle.base.specs.declared.or_memory.OrMemory.{OrMemory as Error};
ghost use Rattle.host_journal.specs.Audits.{FailsToAudit, IsAudited};
ghost use Rattle.host_journal.specs.Disks.{IsQuiet};
ghost use Rattle.host_journal.specs.declared.auditing.Audited.{Audited as Found};
ghost use Rattle.host_journal.specs.declared.fault.JournalFault.{JournalFault as Reason};
ghost use Rattle.cli_commands.specs.Journaling.{IsStatus, audit_text};

use crate::files::write;
use crate::journal_reports::{Place, report};
use host_journal::{Audited, Disk, audit};
use std::alloc::Global;
use std::io::Write;
use trace_lines::{Text, print_long_number};

/// Replays the segments of a journal, whose folder the disk is, and returns the status: 0 if all are accepted, which is reported on `out`; 1
/// if one is refused; 2 for want of memory, or if a file or a writer fails.
pub fn audit_journal<D: Disk, W: Write, E: Write>(
    alloc: Global,
    disk: &mut D,
    folder: &str,
    out: &mut W,
    err: &mut E,
) -> u8
    ensures status { result ≤ 2 }
    // All of it was accepted, and that went out.
    ensures accepted { result ≡ 0 → (found : Found) × IsAudited (D.held disk.old) found × Appends (W.contents out.old) (W.contents out.new) (audit_text found) }
    // It has the fault that is reported.
    ensures refused { result ≡ 1 → (error : Error Reason) × FailsToAudit (D.held disk.old) (D.steps disk.old) (D.steps disk.new) error × IsStatus error 1 }
    ensures nothing { result ≡ 1 → Keeps (W.contents out.old) (W.contents out.new) }
    // Nothing is written to the folder, and no lock is taken.
    ensures quiet { IsQuiet (D.steps disk.old) (D.steps disk.new) }
{
    match audit(alloc, disk) {
        Ok(audit) => put_audit(&audit, out, err),
        Err(fault) => {
            let place = Place {
                alloc,
                folder,
                path: "",
            };
            report(place, fault, err)
        },
    }
}

// Puts out that a journal is accepted, and returns the status.
fn put_audit<W: Write, E: Write>(audit: &Audited, out: &mut W, err: &mut E) -> u8
    ensures status { (result ≢ 1) × (result ≤ 2) }
    ensures written { result ≡ 0 → Appends (W.contents out.old) (W.contents out.new) (audit_text audit.now) }
{
    write(text_of(audit).as_slice(), out, err)
}

// What is put out of a journal that is accepted.
fn text_of(audit: &Audited) -> Text
    ensures { result ≡ audit_text audit.now }
{
    let mut text = Text::none();
    print_long_number(audit.segments, &mut text);
    text.put(b" segments, ");
    print_long_number(audit.records, &mut text);
    text.put(b" records, accepted");
    if audit.is_open {
        text.put(b", open");
    }
    text.push(b'\n');
    text
}
