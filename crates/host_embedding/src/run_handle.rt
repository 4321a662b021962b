// A run as a host holds it: out, at its next stop, or spent. It relies on `engine_core` for runs.

ghost use Rattle.std.specs.Prelude.{◌≡◌, IfSome, IsTrue};
ghost use Rattle.host_embedding.specs.Recovering.{IsOf};
ghost use Rattle.host_embedding.specs.Held.{is_same_run, out_of, IsStretched};

use crate::call_result::CallResult;
use engine_core::{Run, Stopped};
use std::mem;

/// Where a run is.
pub enum HeldRun {
    /// It is out, and goes on.
    Out(Run),
    /// It came to its next stop: it is the engine's turn.
    Stopped(Stopped),
    /// It has ended, or is parked.
    Spent,
}

impl HeldRun {
    // Spends the run and changes no engine.
    fn forfeit(self) {
        match self {
            HeldRun::Out(run) => run.forfeit(),
            HeldRun::Stopped(stopped) => stopped.forfeit(),
            HeldRun::Spent => {}
        }
    }

    /// The run is here from now on. What was here is forfeited.
    pub(crate) fn put(&mut self, held: HeldRun)
        ensures { self.new ≡ held }
    {
        mem::replace(self, held).forfeit();
    }

    /// Takes the run out, which is spent here then.
    pub(crate) fn take(&mut self) -> HeldRun
        ensures taken { result ≡ self.old }
        ensures spent { self.new ≡ HeldRun.Spent }
    {
        mem::replace(self, HeldRun::Spent)
    }

    /// The run that is out: of one at its stop, where its stretch began. What it did since then is forgotten.
    pub(crate) fn out(self) -> Option<Run>
        ensures { result ≡ out_of self }
    {
        match self {
            HeldRun::Out(run) => Some(run),
            HeldRun::Stopped(stopped) => Some(stopped.back()),
            HeldRun::Spent => None,
        }
    }
}

/// A run with its number and that of the freeze that it was started with. Where it is dropped the run is forfeited: its engine
/// keeps it among the live ones.
pub struct RunHandle {
    pub number: u32,
    pub freeze: u32,
    pub held: HeldRun,
}

impl Drop for RunHandle {
    fn drop(self) {
        let RunHandle {
            number: _,
            freeze: _,
            held,
        } = self;
        held.forfeit();
    }
}

impl RunHandle {
    /// Whether the run that is out has this number.
    pub(crate) fn is_of(&self, run: u32) -> bool
        ensures { IsTrue result → IsOf run self.now.held }
    {
        match &self.held {
            HeldRun::Out(its) => its.number() == run,
            HeldRun::Stopped(stopped) => stopped.number() == run,
            HeldRun::Spent => false,
        }
    }

    /// The number of the run that is out, or 0 if none is.
    pub(crate) fn out_number(&self) -> u32
        ensures { IfSome (out_of self.now.held) (λ run. run.number ≡ result) }
    {
        match &self.held {
            HeldRun::Out(run) => run.number(),
            HeldRun::Stopped(stopped) => stopped.number(),
            HeldRun::Spent => 0,
        }
    }

    /// No run yet.
    pub fn none() -> Self
        ensures { result ≡ record { number = 0; freeze = 0; held = HeldRun.Spent } }
    {
        RunHandle {
            number: 0,
            freeze: 0,
            held: HeldRun::Spent,
        }
    }

    /// Takes the run to its next stop, where it is not there: it executes its private instructions, of which the engine need not
    /// know, and takes no memory.
    pub fn stretch(&mut self) -> CallResult
        ensures same { is_same_run self.old self.new }
        ensures stretched { IsStretched result self.old.held self.new.held }
    {
        match self.held.take() {
            HeldRun::Out(run) => {
                self.held.put(HeldRun::Stopped(run.to_stop()));
                CallResult::Done
            }
            HeldRun::Stopped(stopped) => {
                self.held.put(HeldRun::Stopped(stopped));
                CallResult::Done
            }
            HeldRun::Spent => CallResult::Spent,
        }
    }
}
