// A program, and what is proved of it. It relies on `bpf_insn` and `helpers`.

ghost use Rattle.std.specs.Prelude.{◌≡◌};
ghost use Rattle.bpf_accepted.specs.Verdict.{Verdict, IsAccepted};

use bpf_insn::Program;
use helpers::HelperLimits;
use std::marker::Model;

/// A program of which no run is ever stuck, and none executes more instructions than its budget. Whoever
/// runs it needs no test of what its registers hold.
#[derive(Debug, Drop)]
pub struct Accepted {
    program: Program,
    limits: HelperLimits,
    budget: u32,
    frames: u8,
    visits: u32,
}

impl Model for Accepted {
    ghost use Rattle.bpf_accepted.specs.Verdict.{Verdict, IsAccepted};

    ghost Value = { Verdict };

    ghost view = { λ a. record {
      program = a.program;
      limits = a.limits;
      budget = a.budget;
      frames = a.frames;
      visits = a.visits;
    } };

    ghost invariant = { λ a. IsAccepted (record {
      program = a.program;
      limits = a.limits;
      budget = a.budget;
      frames = a.frames;
      visits = a.visits;
    }) };
}

impl Accepted {
    /// Makes one of a program of which that is proved.
    pub fn new(program: Program, limits: HelperLimits, budget: u32, frames: u8, visits: u32) -> Self
        requires { IsAccepted (record { program = program; limits = limits; budget = budget; frames = frames; visits = visits }) }
        ensures { result ≡ record { program = program; limits = limits; budget = budget; frames = frames; visits = visits } }
    {
        Accepted {
            program,
            limits,
            budget,
            frames,
            visits,
        }
    }

    /// The greatest number of instructions that a run executes, helper calls and the exit included: 65,536 at most.
    pub fn budget(&self) -> u32
        ensures value { result ≡ self.now.budget }
        ensures accepted { IsAccepted self.now }
    {
        self.budget
    }

    /// The greatest number of stack frames that a run has at a time, 1 to 8.
    pub fn frames(&self) -> u8
        ensures value { result ≡ self.now.frames }
        ensures accepted { IsAccepted self.now }
    {
        self.frames
    }

    /// How many checks were made of it, each of one instruction under one chain of local calls that were open there.
    pub fn visits(&self) -> u32
        ensures value { result ≡ self.now.visits }
        ensures accepted { IsAccepted self.now }
    {
        self.visits
    }

    /// The program.
    pub fn program(&self) -> &Program
        ensures value { result.now ≡ self.now.program }
        ensures accepted { IsAccepted self.now }
    {
        &self.program
    }

    /// The limits under which it was verified.
    pub fn limits(&self) -> &HelperLimits
        ensures value { result.now ≡ self.now.limits }
        ensures accepted { IsAccepted self.now }
    {
        &self.limits
    }
}
