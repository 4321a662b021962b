// A worker: its seat, and what it has in its hands. It relies on `seat`.
ghost use Rattle.std.specs.Prelude.{◌≡◌};
ghost use Rattle.workers.specs.declared.worker.Kept.TheVariants.{Nothing};
ghost use Rattle.workers.specs.Serving.{at_rest};

use crate::seat::Seat;
use ccb::Completion;
use engine_core::Run;
use engine_lock::{Caller, Object};
use inbox::TakePass;
use std::marker::Model;
use std::mem;

/// What a worker keeps where it could not go on.
pub(crate) enum Kept {
    Nothing,
    /// It was taken, and not answered.
    Completion(Completion),
    /// It was started, and did not end.
    Run(Run),
}

/// A seat that serves. Contracts see its caller, its pass, what it keeps, whether it keeps that for want of memory, and how many
/// runs it started and drove to their ends.
pub(crate) struct Worker<B: Object> {
    pub(crate) caller: Caller<B>,
    pub(crate) pass: TakePass,
    pub(crate) kept: Kept,
    pub(crate) out_of_memory: bool,
    pub(crate) started: u32,
    pub(crate) ended: u32,
}

impl<B: Object> Model for Worker<B> {
    ghost use Rattle.workers.specs.Serving.{WorkerState};

    ghost Value = { WorkerState };

    ghost view = { λ w. record { caller = w.caller; pass = w.pass; kept = w.kept; out_of_memory = w.out_of_memory; started = w.started; ended = w.ended } };
}

impl<B: Object> Worker<B> {
    /// A seat that has nothing in its hands.
    pub(crate) fn new(seat: Seat<B>) -> Self
        ensures { result ≡ at_rest seat }
    {
        let Seat { caller, pass } = seat;
        Worker {
            caller,
            pass,
            kept: Kept::Nothing,
            out_of_memory: false,
            started: 0,
            ended: 0,
        }
    }

    /// Keeps this, where it keeps nothing, for want of memory or for another reason.
    pub(crate) fn keep(&mut self, kept: Kept, out_of_memory: bool)
        requires { self.old.kept ≡ Nothing }
        ensures { self.new ≡ record self.old { kept = kept; out_of_memory = out_of_memory } }
    {
        self.out_of_memory = out_of_memory;
        match mem::replace(&mut self.kept, kept) {
            Kept::Nothing | Kept::Completion(_) => {}
            Kept::Run(run) => {
                run.forfeit();
                unreachable!()
            }
        }
    }
}
