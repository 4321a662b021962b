// A run at its next stop: what it executed by itself, and the right to take it further. It relies on `run` for runs that
// are out, and on `interpreter` for the stop.

ghost use Rattle.std.specs.Prelude.{◌≡◌, ◌↔◌, List, IsTrue};
ghost use Rattle.std.specs.Arc.{arc_value};
ghost use Rattle.interpreter.specs.Segments.{stretch};
ghost use Rattle.engine_runs.specs.Admits.{IsOutWith};
ghost use Rattle.world_calls.specs.declared.record.Record.{Record as TheRecord};
ghost use Rattle.world.specs.World.{Setup};
ghost use Rattle.engine_core.specs.Answers.{r0_of, stopped_at};
ghost use Rattle.engine_core.specs.Invariant.{HoldEntries, KeepsEngine};
ghost use Rattle.engine_core.specs.Performing.{IsPlaced};
ghost use Rattle.engine_core.specs.RunState.{IsStopped, before_stop};
ghost use Rattle.engine_core.specs.TakingOver.{Becomes, LeadsBy};

use crate::answers::AdvanceAnswer;
use crate::commit_segment::{Onward, take_over};
use crate::run::Run;
use bpf_accepted::Accepted;
use bpf_machine::Machine;
use bpf_semantics::Stop;
use ccb::QueueId;
use engine_runs::Runs;
use engine_transport::Transport;
use interpreter::stop_of;
use std::marker::Model;
use std::sync::Arc;

/// Stands for one run that came to a helper call or to its outermost exit: it is the engine's turn. Like a run it is
/// neither copied nor dropped. Its type keeps that what it executed are private instructions of its program, from a
/// machine that the program reaches.
pub struct Stopped {
    number: u32,
    // for which queue the run was started: a hint, of which contracts know nothing
    queue: QueueId,
    program: Arc<Accepted>,
    // the machine before the first instruction, and the one at the stop
    from: Box<Machine>,
    to: Box<Machine>,
    steps: u32,
}

impl Model for Stopped {
    ghost use Rattle.std.specs.Arc.{arc_value};
    ghost use Rattle.interpreter.specs.Segments.{stretch};
    ghost use Rattle.engine_core.specs.RunState.{StoppedState, IsStopped};

    ghost Value = { StoppedState };

    ghost view = { λ s. record { number = s.number; segment = stretch (arc_value s.program) s.from.value s.to.value s.steps } };

    ghost invariant = { λ s. IsStopped (record { number = s.number; segment = stretch (arc_value s.program) s.from.value s.to.value s.steps }) };
}

impl Stopped {
    /// A run that executed so many instructions, with that of its stop.
    pub(crate) fn new(
        number: u32,
        queue: QueueId,
        program: Arc<Accepted>,
        from: Box<Machine>,
        to: Box<Machine>,
        steps: u32,
    ) -> Self
        requires { IsStopped (record { number = number; segment = stretch (arc_value program) from.value to.value steps }) }
        ensures { result ≡ record { number = number; segment = stretch (arc_value program) from.value to.value steps } }
    {
        Stopped {
            number,
            queue,
            program,
            from,
            to,
            steps,
        }
    }

    /// The number of the run, from 1.
    pub fn number(&self) -> u32
        ensures { result ≡ self.now.number }
    {
        self.number
    }

    /// The queue for which the run was started. No contract says so: it is a hint where its program may be found.
    pub fn queue(&self) -> QueueId {
        self.queue
    }

    /// The program that it runs.
    pub fn program(&self) -> &Arc<Accepted>
        ensures { arc_value result.now ≡ self.now.segment.program }
    {
        &self.program
    }

    /// Whether its program has these instructions.
    pub fn is_of(&self, program: &Accepted) -> bool
        ensures { IsTrue result ↔ (self.now.segment.program.program ≡ program.now.program) }
    {
        let own: &Accepted = &self.program;
        *own.program() == *program.program()
    }

    /// The machine before the first instruction.
    pub fn from(&self) -> &Machine
        ensures { result.now ≡ self.now.segment.from }
    {
        &self.from
    }

    /// The machine that stands at the stop: the helper call or exit there is its next instruction.
    pub fn to(&self) -> &Machine
        ensures { result.now ≡ self.now.segment.to }
    {
        &self.to
    }

    /// How many instructions it executed, from 1: the private ones, and the helper call or exit at their end.
    pub fn steps(&self) -> u32
        ensures steps { result ≡ self.now.segment.steps }
        ensures stopped { IsStopped self.now }
    {
        self.steps
    }

    /// Where it came to the engine.
    pub fn stop(&self) -> Stop
        ensures stop { result ≡ self.now.segment.stop }
        ensures stopped { IsStopped self.now }
    {
        stop_of(&self.program, &self.to)
    }

    /// The run where it was: what it executed is forgotten, and can be executed again.
    pub fn back(self) -> Run
        ensures { result ≡ before_stop self }
    {
        let Stopped {
            number,
            queue,
            program,
            from,
            to,
            steps: _,
        } = self;
        Run::new(number, queue, program, from, to)
    }

    /// Spends the run and changes no engine: it is for a run whose engine was shut.
    pub fn forfeit(self) {
        self.back().forfeit();
    }

    /// Spends the run: the places of its machines, for runs to come.
    pub(crate) fn spent(self) -> (Box<Machine>, Box<Machine>) {
        self.back().spent()
    }

    /// Takes over what the run executed, which stands at this place among the live runs: it goes on in its next machine, or exited
    /// and is gone.
    #[inline(always)]
    pub(crate) fn take_over(
        self,
        transport: &mut Transport,
        runs: &mut Runs,
        place: usize,
        stop: &Stop,
    ) -> AdvanceAnswer
        requires of { (setup : Setup) × (history : List TheRecord) × KeepsEngine setup history transport.old runs.old }
        requires out { IsOutWith runs.old.runs.list self.number self.segment.program.program self.segment.from }
        requires place { IsPlaced runs.old.runs.list self.number place }
        requires stop { self.segment.stop ≡ stop.now }
        ensures leads { LeadsBy (stopped_at self.segment.stop) (r0_of result) place self.segment transport.old runs.old transport.new runs.new }
        ensures becomes { Becomes self result runs.old.runs.list runs.new.runs.list place }
        ensures tokens { HoldEntries transport.new.freezes runs.new }
    {
        let Stopped {
            number,
            queue,
            program,
            mut from,
            to,
            steps: _,
        } = self;
        match take_over(transport, runs, place, to, stop) {
            Onward::Goes(r0, spare) => {
                from.copy_from(runs.machine(place));
                AdvanceAnswer::Goes(Run::new(number, queue, program, from, spare), r0)
            }
            Onward::Ended(r0, spare) => {
                runs.keep_place(from);
                runs.keep_place(spare);
                AdvanceAnswer::Ended(r0)
            }
        }
    }
}
