// The carried lines of a segment as far as they were read: each is taken as it comes, and forgotten. Once the first line of all or a carried
// line does not follow, the other lines are read alone. It relies on `carried_lines` for lines and their order, and on `engine_succession` for
// whether an engine begins with them.

ghost use Rattle.std.specs.Prelude.{◌≡◌, ◌≢◌, ◌+◌, ◌<◌, ◌≤◌, ◌↔◌, [], IfOk, IsTrue, List, None, OnOk, Some, length};
ghost use Rattle.std.specs.Fmt.{option_append};
ghost use Rattle.world.specs.Lawful.{IsLawful};
ghost use Rattle.world_calls.specs.declared.carried_line.CarriedLine.{CarriedLine as TheLine};
ghost use Rattle.carried_lines.specs.CarriedText.{carried_text};
ghost use Rattle.carried_lines.specs.FirstLine.{continued_header};
ghost use Rattle.carried_lines.specs.Following.{HasTaken};
ghost use Rattle.carried_lines.specs.InOrder.{AreInOrder};
ghost use Rattle.host_recovery.specs.Carries.{BeginsReading, CarriedSays, LinesGoOn, LinesLead};

use crate::first_line::first_fault;
use crate::reading::Reading;
use crate::recovering::MOST_WHOLE;
use carried_lines::{Order, continued_header, read_carried};
use engine_core::{Config, NumberedEngine};
use engine_succession::StepwiseBeginning;
use replay::ReplayFault;
use std::alloc::{AllocError, Global};
use std::marker::Model;
use trace::laws::LONGEST_LINE;
use world_calls::{CarriedLine, Version};

/// What a line was.
#[derive(Clone, Copy, Debug, PartialEq, Eq)]
pub(crate) enum TookCarried {
    /// The next carried line.
    Line,
    /// A carried line, but none that may come here.
    OutOfOrder,
    /// No carried line.
    Nothing,
}

/// What was read. Contracts see all but the allocator and the configuration.
#[derive(Drop)]
pub(crate) struct Carrying<'a> {
    alloc: Global,
    config: &'a Config,
    beginning: StepwiseBeginning<'a>,
    order: Order,
    // of the text
    version: Version,
    // the first line that does not follow
    fault: Option<ReplayFault>,
    // how many carried lines there were
    pub(crate) count: usize,
    // how many bytes the lines had, the first line too
    pub(crate) whole: usize,
}

impl<'a> Model for Carrying<'a> {
    ghost use Rattle.host_recovery.specs.Carries.{CarryingState};

    ghost Value = { CarryingState };

    ghost use Rattle.std.specs.Prelude.{◌≤◌};

    ghost view = { λ c. record { beginning = c.beginning; order = c.order; version = c.version; fault = c.fault; count = c.count; whole = c.whole } };

    ghost invariant = { λ c. c.count ≤ c.whole };
}

impl<'a> Carrying<'a> {
    /// The first line was read, which is that of a continued trace of the version.
    pub(crate) fn new(
        alloc: Global,
        config: &'a Config,
        version: Version,
    ) -> Result<Self, AllocError>
        ensures lawful { IsLawful config.now }
        ensures parts { IfOk result (λ it. (it.version ≡ version) × (it.count ≡ 0) × (it.whole ≡ length (continued_header version))) }
        ensures ordered { IfOk result (λ it. HasTaken [] it.order) }
        ensures leads { IfOk result (λ it. LinesLead config.now version [] it.fault it.beginning) }
    {
        // It is called for what it says of the configuration.
        let _ = config.queues();
        Ok(Carrying {
            alloc,
            config,
            beginning: StepwiseBeginning::new(alloc, config)?,
            order: Order::new(),
            version,
            fault: first_fault(version, Version::of(config.helpers())),
            count: 0,
            whole: continued_header(version).len(),
        })
    }

    /// Takes a line, which stands without its line feed.
    pub(crate) fn take(&mut self, line: &[u8]) -> Result<TookCarried, AllocError>
        requires few { self.old.whole < MOST_WHOLE }
        requires short { length line.now ≤ LONGEST_LINE }
        ensures { IfOk result (λ took. CarriedSays self.old line.now took self.new) }
    {
        match str::from_utf8(line) {
            Ok(text) => self.take_text(text),
            Err(_) => Ok(TookCarried::Nothing),
        }
    }

    // Takes a line that is a text.
    fn take_text(&mut self, line: &str) -> Result<TookCarried, AllocError>
        requires few { self.old.whole < MOST_WHOLE }
        requires short { length line.now ≤ LONGEST_LINE }
        ensures { IfOk result (λ took. CarriedSays self.old line.now took self.new) }
    {
        match read_carried(self.version, line) {
            Some(carried) => self.take_carried(line, &carried),
            None => Ok(TookCarried::Nothing),
        }
    }

    // Takes a carried line, which has this text.
    fn take_carried(&mut self, line: &str, carried: &CarriedLine) -> Result<TookCarried, AllocError>
        requires few { self.old.whole < MOST_WHOLE }
        requires short { length line.now ≤ LONGEST_LINE }
        requires text { carried_text self.old.version carried.now ≡ Some line.now }
        ensures { IfOk result (λ took. CarriedSays self.old line.now took self.new) }
    {
        if !self.order.take(carried) {
            return Ok(TookCarried::OutOfOrder);
        }
        self.begin_with(carried)?;
        self.count += 1;
        self.whole += line.len() + 1;
        Ok(TookCarried::Line)
    }

    // Has an engine begin with the line too, if all before it followed.
    fn begin_with(&mut self, line: &CarriedLine) -> Result<(), AllocError>
        ensures goes_on { OnOk result (LinesGoOn self.old line.now self.new) }
        ensures same { (self.new.order ≡ self.old.order) × (self.new.version ≡ self.old.version) × (self.new.count ≡ self.old.count) × (self.new.whole ≡ self.old.whole) }
    {
        if self.fault.is_some() {
            return Ok(());
        }
        if self.beginning.take(line)? {
            return Ok(());
        }
        self.fault = Some(ReplayFault::Carried(self.count));
        Ok(())
    }

    /// Whether the lines that must be there are among those that were taken.
    pub(crate) fn is_complete(&self) -> bool
        ensures { (lines : List TheLine) → HasTaken lines self.now.order → (IsTrue result ↔ AreInOrder lines) }
    {
        self.order.is_complete()
    }

    /// These are all carried lines: the segment, after which no record was read yet.
    pub(crate) fn finish(self) -> Result<Reading<'a>, AllocError>
        ensures parts { IfOk result (λ it. (it.version ≡ self.entry.version) × (it.carried ≡ self.entry.count) × (it.count ≡ 0) × (it.whole ≡ self.entry.whole)) }
        ensures leads { IfOk result (BeginsReading self.entry) }
    {
        let Carrying {
            alloc,
            config,
            beginning,
            order: _,
            version,
            fault,
            count,
            whole,
        } = self;
        match fault {
            Some(fault) => Reading::at_fault(alloc, config, version, fault, count, whole),
            None => match beginning.finish() {
                Some(engine) => Ok(Reading::of(alloc, engine, version, None, count, whole)),
                None => Reading::at_fault(
                    alloc,
                    config,
                    version,
                    ReplayFault::Carried(count),
                    count,
                    whole,
                ),
            },
        }
    }
}
