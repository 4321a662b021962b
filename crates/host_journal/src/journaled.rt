// The sink of a live engine with a journal: what it takes is appended to the segment, and waits in memory until it may go out. It relies on
// `disk` for the segment and for standard output, on `putting` for a whole text, and on `answer` for answers.

ghost use Rattle.std.specs.Prelude.{◌≡◌, ◌≤◌, Bool, [], List, Option, Some, None, true, false, length, take, OnOk, OnErr, IfOk};
ghost use Rattle.trace.specs.Growing.{FailsBySink};
ghost use Rattle.trace.specs.Sinks.{HasFailed, Takes};
ghost use Rattle.host_journal.specs.Disks.{AllDone, Step, kept_so_far};
ghost use Rattle.host_journal.specs.Journals.{HasLost, IsAnswered, Leaves, is_of_write};
ghost use Rattle.host_live.specs.LinesCome.{EndsALine};

use crate::answer::answer_to;
use crate::answered::{Answered, code_of};
use crate::disk::Disk;
use crate::lost::Lost;
use crate::order::Order;
use crate::putting::put_all;
use host_live::{LineFault, Outlet};
use std::marker::{Model, PhantomData};
use trace::WriteFailed;

/// How many bytes may wait to go out.
pub(crate) const ROOM: usize = 65536;

/// How many bytes an answer may have.
const ANSWER: usize = 32;

/// A folder of which a segment is open. Once something was lost nothing goes out any more.
pub(crate) struct Journaled<D: Disk, O: Order> {
    disk: D,
    pending: Vec<u8>,
    lost: Option<Lost>,
    failures: u64,
    answered: Answered,
    is_synced: bool,
    // whether the segment was appended to since it was synced
    is_behind: bool,
    // whether what was appended ends with a line
    is_at_line: bool,
    of: PhantomData<O>,
}

impl<D: Disk, O: Order> Model for Journaled<D, O> {
    ghost use Rattle.host_journal.specs.Journals.{JournaledState};

    ghost Value = { JournaledState };

    ghost use Rattle.std.specs.Prelude.{◌≡◌};
    ghost use Rattle.host_journal.specs.Journals.{HasLost, Stands};

    ghost view = { λ j. record { steps = D.steps j.disk; pending = j.pending.items; lost = j.lost; failures = j.failures; answers = j.answered.given; place = j.answered.place; is_synced = j.is_synced; is_behind = j.is_behind } };

    ghost invariant = { λ j. Stands O.is_synced O.first O.before (D.steps j.disk) j.pending.items j.answered.given j.answered.place j.lost j.is_behind j.is_at_line × (j.is_synced ≡ O.is_synced) × (D.segment j.disk ≡ O.segment) × HasLost O.segment O.before (D.steps j.disk) j.lost };
}

impl<D: Disk, O: Order> Journaled<D, O> {
    /// Nothing was appended yet, and the first line waits.
    pub(crate) fn of(disk: D, pending: Vec<u8>, is_synced: bool) -> Self
        requires before { O.before ≡ D.steps disk }
        requires segment { O.segment ≡ D.segment disk }
        requires first { O.first ≡ pending.items }
        requires line { EndsALine O.first }
        requires synced { O.is_synced ≡ is_synced }
        ensures steps { result.steps ≡ D.steps disk }
        ensures answers { result.answers ≡ [] }
    {
        Journaled {
            disk,
            pending,
            lost: None,
            failures: 0,
            answered: Answered::none(),
            is_synced,
            is_behind: false,
            is_at_line: true,
            of: PhantomData,
        }
    }

    /// The disk, and why nothing goes out any more, if that is so.
    pub(crate) fn into_parts(self) -> (D, Option<Lost>)
        ensures steps { D.steps result.0 ≡ self.steps }
        ensures lost { result.1 ≡ self.lost }
        ensures order { Leaves O.is_synced O.first O.before (D.steps result.0) self }
        ensures cause { HasLost O.segment O.before (D.steps result.0) result.1 }
        ensures done { is_of_write result.1 ≡ false → AllDone O.before (D.steps result.0) }
    {
        let Journaled {
            disk,
            pending: _,
            lost,
            failures: _,
            answered: _,
            is_synced: _,
            is_behind: _,
            is_at_line: _,
            of: _,
        } = self;
        (disk, lost)
    }

    // Notes that a write failed. What was lost by it is noted before.
    fn fail(&mut self) -> WriteFailed
        ensures steps { self.new.steps ≡ self.old.steps }
        ensures lost { self.new.lost ≡ self.old.lost }
        ensures failures { HasFailed self.old.failures self.new.failures }
        ensures answers { self.new.answers ≡ self.old.answers }
    {
        self.failures = self.failures.saturating_add(1);
        WriteFailed
    }

    // Syncs the segment, if that is asked for and it was appended to since.
    fn make_sure(&mut self) -> Result<(), WriteFailed>
        requires { self.old.lost ≡ None }
        ensures kept { kept_so_far self.new.steps ≡ kept_so_far self.old.steps }
        ensures failures { FailsBySink self.old.failures result self.new.failures }
        ensures answers { self.new.answers ≡ self.old.answers }
        ensures sure { OnOk result (O.is_synced ≡ true → self.new.is_behind ≡ false) }
        ensures lost { OnOk result (self.new.lost ≡ self.old.lost) }
    {
        if !self.is_synced || !self.is_behind {
            return Ok(());
        }
        match self.disk.sync() {
            Ok(()) => {
                self.is_behind = false;
                Ok(())
            }
            Err(WriteFailed) => {
                self.lost = Some(Lost::Segment);
                Err(self.fail())
            }
        }
    }

    /// All that waits goes out.
    pub(crate) fn flush(&mut self) -> Result<(), WriteFailed>
        ensures kept { kept_so_far self.new.steps ≡ kept_so_far self.old.steps }
        ensures failures { FailsBySink self.old.failures result self.new.failures }
        ensures answers { self.new.answers ≡ self.old.answers }
        ensures all { OnOk result ((self.new.pending ≡ []) × (self.new.lost ≡ None)) }
        ensures sure { OnOk result (O.is_synced ≡ true → self.new.is_behind ≡ false) }
    {
        if self.lost.is_some() {
            return Err(self.fail());
        }
        self.make_sure()?;
        match put_all(&mut self.disk, self.pending.as_slice()) {
            Ok(()) => {
                self.pending.clear();
                Ok(())
            }
            Err(WriteFailed) => {
                self.lost = Some(Lost::Output);
                Err(self.fail())
            }
        }
    }

    // How many bytes more may wait, enough for an answer: if there is no room for one, all that waits goes out before.
    fn room(&mut self) -> Result<usize, WriteFailed>
        ensures kept { kept_so_far self.new.steps ≡ kept_so_far self.old.steps }
        ensures failures { FailsBySink self.old.failures result self.new.failures }
        ensures answers { self.new.answers ≡ self.old.answers }
        ensures room { IfOk result (λ room. 1 ≤ room) }
        ensures unlost { OnOk result (self.new.lost ≡ None) }
    {
        if self.lost.is_some() {
            return Err(self.fail());
        }
        let waiting = self.pending.len();
        if waiting + ANSWER <= ROOM {
            return Ok(ROOM - waiting);
        }
        match self.flush() {
            Ok(()) => Ok(ROOM),
            Err(failed) => Err(failed),
        }
    }

    // Appends some of the bytes, which then wait.
    fn keep(&mut self, text: &[u8]) -> Result<usize, WriteFailed>
        requires some { 1 ≤ length text.now }
        requires unlost { self.old.lost ≡ None }
        ensures answers { self.new.answers ≡ self.old.answers }
        ensures taken { Takes text.now (kept_so_far self.old.steps) self.old.failures result (kept_so_far self.new.steps) self.new.failures }
    {
        match self.disk.keep(text) {
            Ok(count) => {
                self.answered = self.answered.after(count);
                self.is_behind = true;
                self.is_at_line = text[count - 1] == b'\n';
                match self.pending.extend_from_slice(&text[..count]) {
                    Ok(()) => Ok(count),
                    Err(_) => {
                        self.lost = Some(Lost::OutOfMemory);
                        Ok(count)
                    }
                }
            }
            Err(WriteFailed) => {
                self.lost = Some(Lost::Segment);
                Err(self.fail())
            }
        }
    }

    // The answer to a line waits too.
    fn answer(&mut self, line: usize, fault: Option<LineFault>) -> Result<(), WriteFailed>
        requires { self.old.lost ≡ None }
        ensures kept { kept_so_far self.new.steps ≡ kept_so_far self.old.steps }
        ensures answers { IsAnswered (kept_so_far O.before) (kept_so_far self.new.steps) self.old.answers line fault result self.new.answers }
        ensures failures { FailsBySink self.old.failures result self.new.failures }
    {
        if !self.is_at_line {
            self.lost = Some(Lost::InternalError);
            return Err(self.fail());
        }
        match self
            .pending
            .extend_from_slice(answer_to(line, fault).as_slice())
        {
            Ok(()) => {
                self.answered = self.answered.and_one(line, code_of(fault));
                Ok(())
            }
            Err(_) => {
                self.lost = Some(Lost::OutOfMemory);
                Err(self.fail())
            }
        }
    }
}

impl<D: Disk, O: Order> Outlet for Journaled<D, O> {
    ghost use Rattle.std.specs.Prelude.{Some};
    ghost use Rattle.host_journal.specs.Disks.{kept_so_far};
    ghost use Rattle.host_journal.specs.Journals.{stood_behind};

    ghost bytes = { λ j. kept_so_far j.steps };

    ghost failures = { λ j. j.failures };

    ghost origin = { λ _. 0 };

    ghost answers = { λ j. Some (stood_behind (kept_so_far O.before) j.answers) };

    fn take(&mut self, text: &[u8]) -> Result<usize, WriteFailed> {
        match self.room() {
            Ok(room) => self.keep(&text[..text.len().min(room)]),
            Err(failed) => Err(failed),
        }
    }

    fn answered(&mut self, line: usize, fault: Option<LineFault>) -> Result<(), WriteFailed> {
        match self.room() {
            Ok(_) => self.answer(line, fault),
            Err(failed) => Err(failed),
        }
    }

    fn settle(&mut self) -> Result<(), WriteFailed> {
        self.flush()
    }
}
