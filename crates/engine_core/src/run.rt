// A run that is out: the right to take it further. It relies on `bpf_accepted` for its program, on `bpf_machine` for its
// machine, and on `interpreter` for what it executes by itself.

ghost use Rattle.std.specs.Prelude.{◌≡◌, ◌↔◌, IsTrue};
ghost use Rattle.std.specs.Arc.{arc_value};
ghost use Rattle.bpf_accepted.specs.Verdict.{IsAccepted};
ghost use Rattle.interpreter.specs.Segments.{IsWithinBudget};
ghost use Rattle.engine_core.specs.RunState.{IsReached, IsStopped, before_stop};

use crate::stopped::Stopped;
use bpf_accepted::Accepted;
use bpf_machine::Machine;
use ccb::QueueId;
use interpreter::{Segment, go_to_stop};
use std::marker::Model;
use std::sync::Arc;

/// Stands for one run of a recovery program that was started and has not ended. It is neither copied nor dropped:
/// each advance takes it and gives it back, its exit spends it, or it is forfeited. The freezes that the run holds
/// are kept by its engine. Its type keeps that the machine is one that the program reaches.
pub struct Run {
    number: u32,
    // for which queue it was started: a hint, of which contracts know nothing
    queue: QueueId,
    program: Arc<Accepted>,
    // apart, so that a run is moved as a few words
    machine: Box<Machine>,
    // the place of the machine at the next stop; what stands in it means nothing
    next: Box<Machine>,
}

impl Model for Run {
    ghost use Rattle.std.specs.Arc.{arc_value};
    ghost use Rattle.engine_core.specs.RunState.{RunState, IsReached};

    ghost Value = { RunState };

    ghost view = { λ r. record { number = r.number; program = arc_value r.program; machine = r.machine.value } };

    ghost invariant = { λ r. IsReached (record { number = r.number; program = arc_value r.program; machine = r.machine.value }) };
}

impl Run {
    /// Only an engine makes one, for a run that it has just started, or that goes on.
    pub(crate) fn new(
        number: u32,
        queue: QueueId,
        program: Arc<Accepted>,
        machine: Box<Machine>,
        next: Box<Machine>,
    ) -> Self
        requires { IsReached (record { number = number; program = arc_value program; machine = machine.value }) }
        ensures { result ≡ record { number = number; program = arc_value program; machine = machine.value } }
    {
        Run {
            number,
            queue,
            program,
            machine,
            next,
        }
    }

    /// The number of the run, from 1.
    pub fn number(&self) -> u32
        ensures { result ≡ self.now.number }
    {
        self.number
    }

    /// The queue for which it was started. No contract says so: it is a hint where its program may be found.
    pub fn queue(&self) -> QueueId {
        self.queue
    }

    /// The machine in which the run goes on.
    pub fn machine(&self) -> &Machine
        ensures value { result.now ≡ self.now.machine }
        ensures reached { IsReached self.now }
    {
        &self.machine
    }

    /// The program that it runs.
    pub fn program(&self) -> &Arc<Accepted>
        ensures { arc_value result.now ≡ self.now.program }
    {
        &self.program
    }

    /// Whether its program has these instructions.
    pub(crate) fn is_of(&self, program: &Accepted) -> bool
        ensures same { IsTrue result ↔ (self.now.program.program ≡ program.now.program) }
        ensures accepted { IsAccepted self.now.program }
    {
        let own: &Accepted = &self.program;
        *own.program() == *program.program()
    }

    /// Executes its private instructions, up to the next helper call or its outermost exit. It takes no memory, and no more
    /// instructions than are left of the program's budget: a machine that is reached in n of them leaves all but n.
    pub fn to_stop(self) -> Stopped
        ensures run { before_stop result ≡ self }
        ensures stopped { IsStopped result }
        ensures budget { IsWithinBudget result.segment }
    {
        let Run {
            number,
            queue,
            program,
            machine,
            mut next,
        } = self;
        next.copy_from(&machine);
        let steps = go_to_stop(&program, &mut next);
        Stopped::new(number, queue, program, machine, next, steps)
    }

    /// The same run at the stop of a segment of its program that begins in its machine.
    pub(crate) fn at_stop_of(self, segment: &Segment) -> Stopped
        requires accepted { IsAccepted self.program }
        requires program { self.program.program ≡ segment.now.program.program }
        requires start { self.machine ≡ segment.now.from }
        ensures { result ≡ record { number = self.number; segment = record segment.now { program = self.program } } }
    {
        let Run {
            number,
            queue,
            program,
            machine,
            mut next,
        } = self;
        next.copy_from(segment.to());
        Stopped::new(number, queue, program, machine, next, segment.steps())
    }

    /// The same run with this machine.
    pub(crate) fn with_machine(self, machine: &Machine) -> Self
        requires { IsReached (record self { machine = machine.now }) }
        ensures { result ≡ record self { machine = machine.now } }
    {
        let Run {
            number,
            queue,
            program,
            machine: mut held,
            next,
        } = self;
        held.copy_from(machine);
        Run::new(number, queue, program, held, next)
    }

    /// Spends the run and changes no engine: it is for a run whose engine was shut.
    pub fn forfeit(self) {
        let _ = self.spent();
    }

    /// Spends the run: the places of its machines, for runs to come.
    pub(crate) fn spent(self) -> (Box<Machine>, Box<Machine>) {
        let Run {
            number: _,
            queue: _,
            program: _,
            machine,
            next,
        } = self;
        (machine, next)
    }
}
