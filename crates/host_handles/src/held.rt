// A run that is held. It relies on `engine_core` for what it is, and on `cam_numbered_slots` for what a number finds.

ghost use Rattle.std.specs.Prelude.{◌≡◌};

use cam_numbered_slots::Numbered;
use engine_core::Run;
use std::marker::Model;

/// A run that is out. Where it is dropped it is forfeited.
pub(crate) struct HeldRun(Run);

impl Model for HeldRun {
    ghost use Rattle.engine_core.specs.RunState.{RunState};

    ghost Value = { RunState };

    ghost view = { λ held. held.0 };
}

impl Drop for HeldRun {
    fn drop(self) {
        self.into_run().forfeit();
    }
}

impl Numbered for HeldRun {
    ghost number_of = { λ held. held.number };

    fn number(&self) -> u32 {
        self.0.number()
    }
}

impl HeldRun {
    pub(crate) fn new(run: Run) -> Self
        ensures { result ≡ run }
    {
        HeldRun(run)
    }

    pub(crate) fn into_run(self) -> Run
        ensures { result ≡ self }
    {
        let HeldRun(run) = self;
        run
    }
}
