// An engine whose records are printed and counted as they come, and forgotten. It relies on `engine_core` for the engine, on `printed` for
// what goes out, and on `host_metrics` for what is counted.

ghost use Rattle.std.specs.Prelude.{◌≡◌, ◌<◌, ◌↔◌, ◌⊎◌, [], ℕ, List, length, slice_index_or, None, Option, Some, true, false, IfErr, IfOk, IfSome, IsNone, IsSome, IsTrue, OnErr, OnOk};
ghost use Rattle.freeze_ledger.specs.Deadlines.{some_timer};
ghost use Rattle.freeze_ledger.specs.Freezes.{entry_of};
ghost use Rattle.engine_core.specs.ByNumber.{guests_of, sums_behind};
ghost use Rattle.engine_core.specs.Looking.{HasRunOut, first_out};
ghost use Rattle.engine_transport.specs.Freezing.{IsNextDue};
ghost use Rattle.trace.specs.Sinks.{HasFailed};
ghost use Rattle.world.specs.World.{version_of};
ghost use Rattle.world_calls.specs.declared.record.Record.{Record as TheRecord};
ghost use Rattle.host_live.specs.Answering.{Answers};
ghost use Rattle.host_live.specs.Growth.{GrowsBy, IsExit, IsMadeBy, StandsBehind, record_of_call, resumed_printed};
ghost use Rattle.host_live.specs.Telling.{EndsTrace};

use crate::lending::end;
use crate::outlet::Outlet;
use crate::printed::Printed;
use crate::reports::LineFault;
use engine_core::{LiveCcb, NumberedEngine};
use host_metrics::{Before, Metrics};
use std::alloc::{AllocError, Global};
use std::marker::Model;
use std::mem::replace;
use trace::WriteFailed;
use world_calls::{Call, CallAnswer, Record, StoppedAt, Totals, Version};

/// What became of a run that was to go on.
#[derive(Clone, Copy)]
pub(crate) enum Advanced {
    /// No run of that number is out.
    NotOut,
    /// It came to a helper call.
    Goes,
    /// It came to its exit.
    Ended,
}

/// An engine, its trace as far as it went out, and what is counted.
#[derive(Drop)]
pub(crate) struct PrintedEngine<'a> {
    engine: NumberedEngine<'a>,
    printed: Printed,
    metrics: Metrics,
}

impl<'a> Model for PrintedEngine<'a> {
    ghost use Rattle.host_live.specs.Growth.{IsUnderway, PrintedState};

    ghost Value = { PrintedState };

    ghost view = { λ e. record { engine = e.engine; printed = e.printed; metrics = e.metrics } };

    ghost invariant = { λ e. IsUnderway e.engine e.printed };
}

// Whether that record is of a run's exit.
fn is_exit(entry: &Record) -> bool
    ensures { result ≡ true → IsExit entry.now }
{
    match entry {
        Record::Advance { stop, .. } => matches!(stop, StoppedAt::Exit),
        Record::Called { .. } => false,
    }
}

impl<'a> PrintedEngine<'a> {
    /// An engine that stands after a history of so many records, of which the trace went out before, and what was counted before. Nothing
    /// waits.
    pub(crate) fn resumed(engine: NumberedEngine<'a>, count: u64, metrics: Metrics) -> Self
        requires behind { StandsBehind count engine }
        ensures { result ≡ resumed_printed count engine.entry metrics }
    {
        // It is called for what it says of the history.
        let _ = engine.transport();
        let printed = Printed::resumed(Version::of(engine.config().helpers()), count);
        PrintedEngine {
            engine,
            printed,
            metrics,
        }
    }

    /// Carries a call out, or refuses it, and counts and prints its record: the answer. `None`, which changes nothing, if the call is no event here.
    /// If memory is refused, or records cannot be counted any more, nothing changes.
    pub(crate) fn call<S: Outlet>(
        &mut self,
        call: Call,
        out: &mut S,
    ) -> Result<Option<CallAnswer>, AllocError>
        ensures grown { GrowsBy (record_of_call call result) self.old (S.bytes out.old) (S.failures out.old) self.new (S.bytes out.new) (S.failures out.new) }
        ensures answers { S.answers out.new ≡ S.answers out.old }
    {
        if self.printed.count >= u64::MAX {
            return Err(AllocError);
        }
        let before = Before::of_call(self.engine.transport(), &call);
        match self.engine.call(&call) {
            Ok(Some(answer)) => {
                let entry = Record::Called { answer, call };
                self.metrics.count(&before, &entry);
                self.printed.print(&entry, out);
                Ok(Some(answer))
            }
            Ok(None) => Ok(None),
            Err(fault) => Err(fault),
        }
    }

    /// Lets a run go on to its next stop, and counts and prints the record of that. If memory is refused, or records cannot be counted any more, nothing
    /// changes.
    pub(crate) fn advance<S: Outlet>(
        &mut self,
        run: u32,
        out: &mut S,
    ) -> Result<Advanced, AllocError>
        ensures made { IfOk result (λ advanced. (more : List TheRecord) × IsMadeBy run advanced more × GrowsBy more self.old (S.bytes out.old) (S.failures out.old) self.new (S.bytes out.new) (S.failures out.new)) }
        ensures refused { OnErr result (GrowsBy [] self.old (S.bytes out.old) (S.failures out.old) self.new (S.bytes out.new) (S.failures out.new)) }
        ensures answers { S.answers out.new ≡ S.answers out.old }
    {
        if self.printed.count >= u64::MAX {
            return Err(AllocError);
        }
        let before = Before::of_run(self.engine.runs(), run);
        match self.engine.advance(run) {
            Ok(Some(entry)) => {
                self.metrics.count(&before, &entry);
                self.printed.print(&entry, out);
                if is_exit(&entry) {
                    Ok(Advanced::Ended)
                } else {
                    Ok(Advanced::Goes)
                }
            }
            Ok(None) => Ok(Advanced::NotOut),
            Err(fault) => Err(fault),
        }
    }

    /// The version that its records have.
    pub(crate) fn version(&self) -> Version
        ensures { result ≡ version_of self.now.engine.setup }
    {
        Version::of(self.engine.config().helpers())
    }

    /// Whether a run of that number is out.
    pub(crate) fn is_out(&self, run: u32) -> bool
        ensures there { result ≡ true → HasRunOut self.now.engine.runs.list run }
        ensures none { result ≡ false → HasRunOut self.now.engine.runs.list run → ⊥ }
    {
        match self.engine.run(run) {
            Some(told) => told.is_out,
            None => false,
        }
    }

    /// Whether a guest holds the freeze of that number.
    pub(crate) fn is_guests(&self, freeze: u32) -> bool
        ensures there { IsTrue result → IsSome (entry_of freeze (guests_of self.now.engine.transport.freezes)) }
        ensures none { result ≡ false → entry_of freeze (guests_of self.now.engine.transport.freezes) ≡ None }
    {
        self.engine.is_guests(freeze)
    }

    /// The first run that is out, in the order of their numbers; `None` exactly if none is.
    pub(crate) fn first_out(&self) -> Option<u32>
        ensures { result ≡ first_out self.now.engine.runs.list }
    {
        self.engine.first_out()
    }

    /// What its clock reads, in milliseconds.
    pub(crate) fn clock(&self) -> u64
        ensures { result ≡ self.now.engine.transport.clock }
    {
        self.engine.clock()
    }

    /// When the next timer is due, in milliseconds of the clock; `None` exactly if no timer holds a freeze.
    pub(crate) fn next_due(&self) -> Option<u64>
        ensures first { IfSome result (IsNextDue self.now.engine.transport.freezes) }
        ensures none { IsNone result ↔ (some_timer self.now.engine.transport.freezes ≡ false) }
    {
        self.engine.next_due()
    }

    /// The live CCB at this place, from 0, in the order of their numbers; `None` exactly if fewer are live.
    pub(crate) fn ccb_at(&self, place: usize) -> Option<LiveCcb>
        ensures there { IsSome result ↔ (place < length self.now.engine.transport.live) }
        ensures value { IfSome result (λ live. live ≡ slice_index_or self.now.engine.transport.live place live) }
    {
        self.engine.ccb_at(place)
    }

    /// The sums so far.
    pub(crate) fn totals(&self) -> Totals
        ensures { result ≡ sums_behind self.now.printed.count self.now.engine }
    {
        self.engine.totals(self.printed.count)
    }

    /// The engine.
    pub(crate) fn engine(&self) -> &NumberedEngine<'a>
        ensures { result.now ≡ self.now.engine }
    {
        &self.engine
    }

    /// What is counted.
    pub(crate) fn metrics(&self) -> &Metrics
        ensures { result.now ≡ self.now.metrics }
    {
        &self.metrics
    }

    /// Hands over what is counted, in the place of what is there. Nothing more is counted here.
    pub(crate) fn hand_over(&mut self, alloc: Global, metrics: &mut Metrics)
        ensures handed { metrics.new ≡ self.old.metrics }
        ensures engine { self.new.engine ≡ self.old.engine }
        ensures printed { self.new.printed ≡ self.old.printed }
    {
        *metrics = replace(&mut self.metrics, Metrics::none(alloc));
    }

    /// Whether a run is live.
    pub(crate) fn has_run(&self) -> bool
        ensures live { result ≡ true → self.now.engine.runs.list ≡ [] → ⊥ }
        ensures none { result ≡ false → self.now.engine.runs.list ≡ [] }
    {
        self.engine.runs().len() > 0
    }

    /// Hands on what waits, and says that nothing more comes for now. It reports a write that fails, or failed before.
    pub(crate) fn settle<S: Outlet>(&mut self, out: &mut S) -> Result<(), WriteFailed>
        ensures printed { GrowsBy [] self.old (S.bytes out.old) (S.failures out.old) self.new (S.bytes out.new) (S.failures out.new) }
        ensures engine { self.new.engine ≡ self.old.engine }
        ensures all { OnOk result (self.new.printed.lines.waiting ≡ []) }
        ensures whole { OnOk result (self.new.printed.has_failed ≡ false) }
        ensures failed { IfErr result (λ _. self.new.printed.has_failed ≡ true) }
        ensures answers { S.answers out.new ≡ S.answers out.old }
    {
        self.printed.settle(out)
    }

    /// Hands on what waits, and then answers the line of that number. It reports a write that fails, or failed before.
    pub(crate) fn answer<S: Outlet>(
        &mut self,
        line: usize,
        fault: Option<LineFault>,
        out: &mut S,
    ) -> Result<(), WriteFailed>
        ensures printed { GrowsBy [] self.old (S.bytes out.old) (S.failures out.old) self.new (S.bytes out.new) (S.failures out.new) }
        ensures engine { self.new.engine ≡ self.old.engine }
        ensures whole { OnOk result (self.new.printed.has_failed ≡ false) }
        ensures failed { IfErr result (λ _. self.new.printed.has_failed ≡ true) }
        ensures all { OnOk result (self.new.printed.lines.waiting ≡ []) }
        ensures answers { Answers (S.answers out.old) line fault (S.bytes out.new) result (S.answers out.new) }
    {
        self.printed.answer(line, fault, out)
    }

    /// Reports a write that failed.
    pub(crate) fn is_whole(&self) -> Result<(), WriteFailed>
        ensures whole { OnOk result (self.now.printed.has_failed ≡ false) }
        ensures failed { IfErr result (λ _. self.now.printed.has_failed ≡ true) }
    {
        self.printed.is_whole()
    }

    /// Prints the last line, hands all on, and says that nothing more comes. It reports a write that fails, or failed before.
    pub(crate) fn end<S: Outlet>(self, out: &mut S) -> Result<(), WriteFailed>
        ensures last { self.entry.printed.has_failed ≡ false → EndsTrace self.entry (S.bytes out.old) result (S.bytes out.new) }
        ensures fails { OnErr result (HasFailed (S.failures out.old) (S.failures out.new) ⊎ (self.entry.printed.has_failed ≡ true)) }
        ensures answers { S.answers out.new ≡ S.answers out.old }
    {
        let totals = self.totals();
        let PrintedEngine {
            engine: _,
            printed,
            metrics: _,
        } = self;
        let Printed {
            lines,
            count: _,
            has_failed,
        } = printed;
        if has_failed {
            return Err(WriteFailed);
        }
        match end(lines, totals, out) {
            Ok(()) => out.settle(),
            Err(failed) => Err(failed),
        }
    }
}
