// Who is told of lines that are not carried out, of sums, of CCBs, of requests, and of what was counted, and who decides whether an engine
// follows another one. It relies on `world_calls` for sums, on `engine_core` for engines and CCBs, and on `host_metrics` for counters.

ghost use Rattle.std.specs.Prelude.{◌≡◌, IfOk, IfSome, None, Ok};
ghost use Rattle.host_live.specs.Successions.{fault_of_unfollowed};

use crate::request::Succession;
use engine_core::{LiveCcb, NumberedEngine};
use host_metrics::Metrics;
use std::alloc::AllocError;
use world_calls::Totals;

/// Why a line is not carried out. It is in no trace, and nothing changed.
#[derive(Clone, Copy, Debug, PartialEq, Eq)]
pub enum LineFault {
    /// N1: the line is not of the form.
    Form,
    /// N2: the line gives back a freeze that no guest holds, or is about a run that is not out.
    NotHeld,
    /// N3: the line asks for another engine while a run is live.
    RunLive,
    /// N4: the other engine would lack a queue or a controller that is in use, or its CCBs the class or the advice that one has.
    DoesNotFit,
    /// The manifest that the line asks for is refused. Whoever decided that has reported why.
    Manifest,
}

/// Why no engine follows this one.
#[derive(Clone, Copy, Debug, PartialEq, Eq)]
pub enum Unfollowed {
    /// No manifest is given that could be read again.
    NoManifest,
    /// The manifest is refused, which is reported.
    Manifest,
    /// Its configuration lacks a queue or a controller that is in use, or its CCBs the class or the advice that one has.
    DoesNotFit,
}

// The fault of the line that asked for it.
pub(crate) fn fault_of(why: Unfollowed) -> LineFault
    ensures { result ≡ fault_of_unfollowed why }
{
    match why {
        Unfollowed::NoManifest => LineFault::Form,
        Unfollowed::Manifest => LineFault::Manifest,
        Unfollowed::DoesNotFit => LineFault::DoesNotFit,
    }
}

/// When it is told what was counted.
#[derive(Clone, Copy, Debug, PartialEq, Eq)]
pub enum Moment {
    /// The engine is about to wait for its input.
    Waits,
    /// The same, after a timer was due.
    Timer,
    /// Nothing more is served here.
    End,
}

/// Is told what is no part of a trace, and decides whether an engine follows another one. What cannot be told is not told. Contracts see what
/// was decided at last: how an engine is to follow, and which one; why none may follow; what may have been counted of an engine; and what it
/// was told at last to have been counted, when, and of which engine.
pub trait Reports {
    ghost use Rattle.engine_core.specs.ByNumber.{NumberedState};
    ghost use Rattle.host_metrics.specs.Counted.{MetricsState};
    ghost use Rattle.host_live.specs.declared.reports.Moment.{Moment};
    ghost use Rattle.host_live.specs.declared.reports.Unfollowed.{Unfollowed};
    ghost use Rattle.host_live.specs.declared.request.Succession.{Succession};

    ghost has_decided: { Self → Succession → NumberedState → Type 0 };

    ghost may_refuse: { Succession → NumberedState → Unfollowed → Type 0 };

    ghost may_count: { MetricsState → NumberedState → Type 0 };

    ghost has_counted: { Self → Moment → MetricsState → NumberedState → Type 0 };

    /// That line is not carried out, the first being 1.
    fn refused(&mut self, fault: LineFault, line: usize);

    /// The engine's sums.
    fn sums(&mut self, totals: Totals);

    /// A live CCB of the engine's.
    fn ccb(&mut self, live: &LiveCcb);

    /// The list of the requests is asked for.
    fn help(&mut self);

    /// What was counted so far, and the engine as it stands.
    fn counted(&mut self, when: Moment, metrics: &Metrics, engine: &NumberedEngine<'_>)
        requires { may_count metrics.now engine.now }
        ensures decided { (how : Succession) (state : NumberedState) → has_decided self.old how state → has_decided self.new how state }
        ensures counted { has_counted self.new when metrics.now engine.now };

    /// A line asks for another engine to follow this one, which has no live run: `None` if one is to, or why not.
    fn follow(
        &mut self,
        how: Succession,
        engine: &NumberedEngine<'_>,
    ) -> Result<Option<Unfollowed>, AllocError>
        ensures decided { result ≡ Ok None → has_decided self.new how engine.now }
        ensures refused { IfOk result (λ it. IfSome it (may_refuse how engine.now)) };
}
