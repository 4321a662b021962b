// A segment as far as it was read, after its carried lines: each record is replayed as its line comes, and forgotten. Once a line does not
// follow, the others are read alone. It relies on `trace` for lines, and on `replay` for whether a record follows.

ghost use Rattle.std.specs.Prelude.{◌≡◌, ◌+◌, ◌<◌, ◌≤◌, ◌↔◌, ◌^◌, ℕ, List, Option, Some, IfOk, IsTrue, OnOk, length};
ghost use Rattle.world.specs.World.{Setup};
ghost use Rattle.host_recovery.specs.Recovering.{Answers, ReadsBy};
ghost use Rattle.host_recovery.specs.declared.reading.Took.TheVariants.{End, Record as TheRecord};
ghost use Rattle.host_recovery.specs.Reads.{FollowsOn, IsDone, SumsFollow, TookSays};

use crate::fault::{RecoveryError, RecoveryFault};
use crate::recovering::{MOST_WHOLE, Recovered};
use base::OrMemory;
use engine_core::{Config, NumberedEngine};
use replay::{ReplayFault, follows};
use std::alloc::{AllocError, Global};
use std::marker::Model;
use trace::laws::LONGEST_LINE;
use trace::{read_record, read_totals};
use world_calls::{Record, Totals, Version};

/// What a line was.
#[derive(Clone, Copy, Debug, PartialEq, Eq)]
pub(crate) enum Took {
    Record,
    End,
    /// No line of a trace.
    Nothing,
}

/// What was read. Contracts see all but the allocator.
#[derive(Drop)]
pub(crate) struct Reading<'a> {
    alloc: Global,
    pub(crate) engine: NumberedEngine<'a>,
    // of the text
    version: Version,
    // the first line that does not follow
    pub(crate) fault: Option<ReplayFault>,
    // how many carried lines there were
    carried: usize,
    // how many records' lines there were
    pub(crate) count: usize,
    // how many bytes the lines had, the first line too
    pub(crate) whole: usize,
}

impl<'a> Model for Reading<'a> {
    ghost use Rattle.host_recovery.specs.Reads.{ReadingState};

    ghost Value = { ReadingState };

    ghost use Rattle.std.specs.Prelude.{◌≤◌};

    ghost view = { λ r. record { engine = r.engine; version = r.version; fault = r.fault; carried = r.carried; count = r.count; whole = r.whole } };

    ghost use Rattle.std.specs.Prelude.{◌+◌};

    ghost invariant = { λ r. r.carried + r.count ≤ r.whole };
}

impl<'a> Reading<'a> {
    /// A segment of which the first line was read, which says the version, and so many carried lines; these lines have so many bytes. The
    /// engine begins with what they say, unless one of them does not follow.
    pub(crate) fn of(
        alloc: Global,
        engine: NumberedEngine<'a>,
        version: Version,
        fault: Option<ReplayFault>,
        carried: usize,
        whole: usize,
    ) -> Self
        requires { carried ≤ whole }
        ensures parts { (result.version ≡ version) × (result.carried ≡ carried) × (result.count ≡ 0) × (result.whole ≡ whole) }
        ensures engine { (result.engine ≡ engine.entry) × (result.fault ≡ fault) }
    {
        Reading {
            alloc,
            engine,
            version,
            fault,
            carried,
            count: 0,
            whole,
        }
    }

    /// The same, if this is the first line that does not follow. Then no engine is asked any more, and an empty one stands in its place.
    pub(crate) fn at_fault(
        alloc: Global,
        config: &'a Config,
        version: Version,
        fault: ReplayFault,
        carried: usize,
        whole: usize,
    ) -> Result<Self, AllocError>
        requires { carried ≤ whole }
        ensures parts { IfOk result (λ it. (it.version ≡ version) × (it.carried ≡ carried) × (it.count ≡ 0) × (it.whole ≡ whole)) }
        ensures fault { IfOk result (λ it. it.fault ≡ Some fault) }
    {
        let engine = NumberedEngine::open(alloc, config)?;
        Ok(Reading::of(alloc, engine, version, Some(fault), carried, whole))
    }

    /// How many lines there were after the first one.
    pub(crate) fn line_count(&self) -> usize
        requires { self.now.whole ≤ 2 ^ 63 }
        ensures count { result ≡ self.now.carried + self.now.count }
        ensures few { result ≤ self.now.whole }
    {
        self.carried + self.count
    }

    /// Takes a line, which stands without its line feed.
    pub(crate) fn take(&mut self, line: &[u8]) -> Result<Took, AllocError>
        requires few { self.old.whole < MOST_WHOLE }
        requires short { length line.now ≤ LONGEST_LINE }
        ensures { IfOk result (λ took. TookSays self.old line.now took self.new) }
    {
        match str::from_utf8(line) {
            Ok(text) => self.take_text(text),
            Err(_) => Ok(Took::Nothing),
        }
    }

    // Takes a line that is a text.
    fn take_text(&mut self, line: &str) -> Result<Took, AllocError>
        requires few { self.old.whole < MOST_WHOLE }
        requires short { length line.now ≤ LONGEST_LINE }
        ensures { IfOk result (λ took. TookSays self.old line.now took self.new) }
    {
        match read_record(self.alloc, self.version, line)? {
            Some(entry) => self.take_record(line.len(), &entry),
            None => match read_totals(line) {
                Some(totals) => Ok(self.take_totals(line.len(), totals)),
                None => Ok(Took::Nothing),
            },
        }
    }

    // Takes a record, of which the line has so many bytes.
    fn take_record(&mut self, len: usize, entry: &Record) -> Result<Took, AllocError>
        requires few { self.old.whole < MOST_WHOLE }
        requires short { len ≤ LONGEST_LINE }
        ensures took { IfOk result (λ took. took ≡ TheRecord) }
        ensures follows { OnOk result (FollowsOn self.old entry.now self.new) }
        ensures version { (self.new.version ≡ self.old.version) × (self.new.carried ≡ self.old.carried) }
        ensures count { OnOk result (self.new.count ≡ self.old.count + 1) }
        ensures whole { self.new.whole ≡ self.old.whole + (len + 1) }
    {
        self.whole += len + 1;
        self.follow(entry)?;
        self.count += 1;
        Ok(Took::Record)
    }

    // Takes the last line, which has so many bytes.
    fn take_totals(&mut self, len: usize, totals: Totals) -> Took
        requires few { self.old.whole < MOST_WHOLE }
        requires short { len ≤ LONGEST_LINE }
        ensures took { result ≡ End }
        ensures follows { SumsFollow self.old totals self.new }
        ensures version { (self.new.version ≡ self.old.version) × (self.new.carried ≡ self.old.carried) }
        ensures count { self.new.count ≡ self.old.count }
        ensures whole { self.new.whole ≡ self.old.whole + (len + 1) }
    {
        self.whole += len + 1;
        self.check(totals);
        Took::End
    }

    // Asks the engine for the same as the record, if all before it followed.
    fn follow(&mut self, entry: &Record) -> Result<(), AllocError>
        ensures follows { OnOk result (FollowsOn self.old entry.now self.new) }
        ensures same { (self.new.version ≡ self.old.version) × (self.new.carried ≡ self.old.carried) × (self.new.count ≡ self.old.count) × (self.new.whole ≡ self.old.whole) }
    {
        if self.fault.is_some() {
            return Ok(());
        }
        if follows(&mut self.engine, entry)? {
            return Ok(());
        }
        self.fault = Some(ReplayFault::Behind {
            carried: self.carried,
            records: self.count,
        });
        Ok(())
    }

    // Compares the sums with those of the last line, if all before it followed.
    fn check(&mut self, totals: Totals)
        ensures follows { SumsFollow self.old totals self.new }
        ensures same { (self.new.version ≡ self.old.version) × (self.new.carried ≡ self.old.carried) × (self.new.count ≡ self.old.count) × (self.new.whole ≡ self.old.whole) }
    {
        if self.fault.is_some() {
            return;
        }
        if is_same(self.engine.totals(self.count as u64), totals) {
            return;
        }
        self.fault = Some(ReplayFault::Behind {
            carried: self.carried,
            records: self.count,
        });
    }

    /// The engine that all lines lead to, unless one does not follow.
    pub(crate) fn finish(self, is_ended: bool) -> Result<Recovered<'a>, RecoveryError>
        ensures says { (config : Setup) (from : Option (List ℕ)) → IsDone config from is_ended self.entry → Answers config from result }
        ensures reads { (failed fails : ℕ) → fails ≡ failed → ReadsBy failed result fails }
    {
        let Reading {
            alloc: _,
            engine,
            version: _,
            fault,
            carried,
            count,
            whole,
        } = self;
        match fault {
            Some(fault) => Err(OrMemory::Fault(RecoveryFault::Unfollowed(fault))),
            None => Ok(Recovered {
                engine,
                carried: carried as u64,
                records: count as u64,
                whole: whole as u64,
                is_ended,
            }),
        }
    }
}

// Whether both are the same sums.
fn is_same(made: Totals, told: Totals) -> bool
    ensures { IsTrue result ↔ (made ≡ told) }
{
    made == told
}
