// A trace that goes out as its records come, of which none is kept. It relies on `trace` for the lines.

ghost use Rattle.std.specs.Prelude.{◌≡◌, ◌-◌, ◌<◌, ◌^◌, ◌∷◌, [], None, false, true, IfErr, OnOk};
ghost use Rattle.trace.specs.HasText.{HasText};
ghost use Rattle.host_live.specs.Answering.{Answers};
ghost use Rattle.host_live.specs.Growth.{PrintsAll, resumed};

use crate::lending::{hand_on, print_next};
use crate::outlet::Outlet;
use crate::reports::LineFault;
use trace::{Growing, Sink, WriteFailed};
use world_calls::{Record, Version};

/// A trace, as far as it went out. Once a write failed nothing goes out any more.
#[derive(Drop)]
pub(crate) struct Printed {
    pub(crate) lines: Growing,
    // how many records there are
    pub(crate) count: u64,
    pub(crate) has_failed: bool,
}

impl Printed {
    /// A trace of so many records, which went out before. Nothing waits.
    pub(crate) fn resumed(version: Version, count: u64) -> Self
        ensures { result ≡ resumed version count }
    {
        Printed {
            lines: without_header(version),
            count,
            has_failed: false,
        }
    }

    /// Counts a record, and prints its line.
    pub(crate) fn print<S: Outlet>(&mut self, entry: &Record, out: &mut S)
        requires spelled { HasText self.old.lines.version entry.now }
        requires few { self.old.count < 2 ^ 64 - 1 }
        ensures printed { PrintsAll self.old (S.bytes out.old) (S.failures out.old) (entry.now ∷ []) self.new (S.bytes out.new) (S.failures out.new) }
        ensures answers { S.answers out.new ≡ S.answers out.old }
    {
        self.count += 1;
        if self.has_failed {
            return;
        }
        match print_next(&mut self.lines, entry, out) {
            Ok(()) => {}
            Err(WriteFailed) => self.has_failed = true,
        }
    }

    /// Hands on what waits, and says that nothing more comes for now. It reports a write that fails, or failed before.
    pub(crate) fn settle<S: Outlet>(&mut self, out: &mut S) -> Result<(), WriteFailed>
        ensures printed { PrintsAll self.old (S.bytes out.old) (S.failures out.old) [] self.new (S.bytes out.new) (S.failures out.new) }
        ensures all { OnOk result (self.new.lines.waiting ≡ []) }
        ensures whole { OnOk result (self.new.has_failed ≡ false) }
        ensures failed { IfErr result (λ _. self.new.has_failed ≡ true) }
        ensures answers { S.answers out.new ≡ S.answers out.old }
    {
        self.hand_on(out)?;
        self.tell_settled(out)
    }

    /// Hands on what waits, and then answers the line of that number. It reports a write that fails, or failed before.
    pub(crate) fn answer<S: Outlet>(
        &mut self,
        line: usize,
        fault: Option<LineFault>,
        out: &mut S,
    ) -> Result<(), WriteFailed>
        ensures printed { PrintsAll self.old (S.bytes out.old) (S.failures out.old) [] self.new (S.bytes out.new) (S.failures out.new) }
        ensures whole { OnOk result (self.new.has_failed ≡ false) }
        ensures failed { IfErr result (λ _. self.new.has_failed ≡ true) }
        ensures all { OnOk result (self.new.lines.waiting ≡ []) }
        ensures answers { Answers (S.answers out.old) line fault (S.bytes out.new) result (S.answers out.new) }
    {
        match self.hand_on(out) {
            Ok(()) => self.tell_answer(line, fault, out),
            Err(failed) => Err(failed),
        }
    }

    // Hands on what waits. It reports a write that fails, or failed before.
    fn hand_on<S: Outlet>(&mut self, out: &mut S) -> Result<(), WriteFailed>
        ensures printed { PrintsAll self.old (S.bytes out.old) (S.failures out.old) [] self.new (S.bytes out.new) (S.failures out.new) }
        ensures all { OnOk result (self.new.lines.waiting ≡ []) }
        ensures whole { OnOk result (self.new.has_failed ≡ false) }
        ensures failed { IfErr result (λ _. self.new.has_failed ≡ true) }
        ensures answers { S.answers out.new ≡ S.answers out.old }
    {
        if self.has_failed {
            return Err(WriteFailed);
        }
        match hand_on(&mut self.lines, out) {
            Ok(()) => Ok(()),
            Err(failed) => {
                self.has_failed = true;
                Err(failed)
            }
        }
    }

    // Says that nothing more comes for now. It reports a write that fails.
    fn tell_settled<S: Outlet>(&mut self, out: &mut S) -> Result<(), WriteFailed>
        requires all { self.old.lines.waiting ≡ [] }
        requires still { self.old.has_failed ≡ false }
        ensures printed { PrintsAll self.old (S.bytes out.old) (S.failures out.old) [] self.new (S.bytes out.new) (S.failures out.new) }
        ensures all { self.new.lines.waiting ≡ [] }
        ensures whole { OnOk result (self.new.has_failed ≡ false) }
        ensures failed { IfErr result (λ _. self.new.has_failed ≡ true) }
        ensures answers { S.answers out.new ≡ S.answers out.old }
    {
        match out.settle() {
            Ok(()) => Ok(()),
            Err(failed) => {
                self.has_failed = true;
                Err(failed)
            }
        }
    }

    // Answers the line of that number. It reports a write that fails.
    fn tell_answer<S: Outlet>(
        &mut self,
        line: usize,
        fault: Option<LineFault>,
        out: &mut S,
    ) -> Result<(), WriteFailed>
        // Nothing that the line led to still waits: the outlet took it.
        requires all { self.old.lines.waiting ≡ [] }
        requires still { self.old.has_failed ≡ false }
        ensures printed { PrintsAll self.old (S.bytes out.old) (S.failures out.old) [] self.new (S.bytes out.new) (S.failures out.new) }
        ensures whole { OnOk result (self.new.has_failed ≡ false) }
        ensures failed { IfErr result (λ _. self.new.has_failed ≡ true) }
        ensures all { OnOk result (self.new.lines.waiting ≡ []) }
        ensures answers { Answers (S.answers out.old) line fault (S.bytes out.new) result (S.answers out.new) }
    {
        match out.answered(line, fault) {
            Ok(()) => Ok(()),
            Err(failed) => {
                self.has_failed = true;
                Err(failed)
            }
        }
    }

    /// Reports a write that failed.
    pub(crate) fn is_whole(&self) -> Result<(), WriteFailed>
        ensures whole { OnOk result (self.now.has_failed ≡ false) }
        ensures failed { IfErr result (λ _. self.now.has_failed ≡ true) }
    {
        if self.has_failed {
            Err(WriteFailed)
        } else {
            Ok(())
        }
    }
}

// Takes all bytes, and keeps none.
#[derive(Drop)]
struct Nowhere;

impl Sink for Nowhere {
    ghost bytes = { λ _. None };

    ghost failures = { λ _. 0 };

    ghost origin = { λ _. 0 };

    fn write(&mut self, text: &[u8]) -> Result<usize, WriteFailed> {
        Ok(text.len())
    }
}

// The lines of a trace of which the first one went out before.
fn without_header(version: Version) -> Growing
    ensures { result ≡ record { version = version; waiting = [] } }
{
    let mut lines = Growing::of(version);
    let _ = lines.hand_on(&mut Nowhere);
    lines
}
