// A stretch of a run that nobody else sees: from a machine to the place where its run comes to the engine. Its
// type keeps that each instruction on the way was a private step. It relies on `bpf_machine` for the steps.

ghost use Rattle.std.specs.Prelude.{◌≡◌};
ghost use Rattle.std.specs.Arc.{arc_value};
ghost use Rattle.interpreter.specs.Segments.{IsSegment, IsWithinBudget};

use bpf_accepted::Accepted;
use bpf_machine::Machine;
use bpf_semantics::Stop;
use std::marker::Model;
use std::sync::Arc;

/// What was executed of an accepted program: the private instructions from one machine to the helper call or
/// outermost exit at which the other stands.
#[derive(Debug, Drop)]
pub struct Segment {
    pub(crate) stretch: Stretch,
}

/// What a segment keeps, which is changed in its place until it is one. After `steps` is the only gap, so that its
/// place need not be cleared before.
#[derive(Debug, Drop)]
pub(crate) struct Stretch {
    pub(crate) program: Arc<Accepted>,
    pub(crate) from: Machine,
    pub(crate) to: Machine,
    pub(crate) stop: Stop,
    pub(crate) steps: u32,
}

impl Model for Segment {
    ghost use Rattle.interpreter.specs.Segments.{SegmentState, IsSegment};
    ghost use Rattle.interpreter.specs.Stretches.{state_of};

    ghost Value = { SegmentState };

    ghost view = { λ s. state_of s.stretch };

    ghost invariant = { λ s. IsSegment (state_of s.stretch) };
}

impl Segment {
    /// The program that was run.
    pub fn program(&self) -> &Arc<Accepted>
        ensures value { arc_value result.now ≡ self.now.program }
        ensures segment { IsSegment self.now }
    {
        &self.stretch.program
    }

    /// The machine before the first instruction.
    pub fn from(&self) -> &Machine
        ensures value { result.now ≡ self.now.from }
        ensures segment { IsSegment self.now }
    {
        &self.stretch.from
    }

    /// The machine that stands at the stop: the helper call or exit there is its next instruction.
    pub fn to(&self) -> &Machine
        ensures value { result.now ≡ self.now.to }
        ensures segment { IsSegment self.now }
    {
        &self.stretch.to
    }

    /// How many instructions the segment has, from 1: the private ones, and the helper call or exit at its end.
    pub fn steps(&self) -> u32
        ensures value { result ≡ self.now.steps }
        ensures segment { IsSegment self.now }
        ensures budget { IsWithinBudget self.now }
    {
        self.stretch.steps
    }

    /// Where the run comes to the engine.
    pub fn stop(&self) -> &Stop
        ensures value { result.now ≡ self.now.stop }
        ensures segment { IsSegment self.now }
    {
        &self.stretch.stop
    }
}
