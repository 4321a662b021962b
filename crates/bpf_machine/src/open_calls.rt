// The local calls that have not returned, in a place of fixed size. It relies on `base` for how they are kept, and
// on `bpf_stack_frame` for how many there may be.

ghost use Rattle.std.specs.Prelude.{◌≡◌, ◌<◌, ◌+◌, ◌↔◌, [], ◌∷◌, IsTrue, None, length, replicate};

use base::{Blank, PaddedList};
use bpf_stack_frame::MAX_FRAMES;
use std::marker::Model;

/// The most calls that are open at a time: the outermost function is not called.
pub const MAX_CALLS: usize = MAX_FRAMES - 1;

/// A local call that has not returned. Contracts see the definition's.
#[derive(Clone, Copy, Debug, PartialEq, Eq)]
pub struct OpenCall {
    return_pc: usize,
    // the caller's R6 to R9
    saved: [Option<u64>; 4],
}

impl Model for OpenCall {
    ghost use Rattle.bpf_semantics.specs.MachineState.{OpenCall};

    ghost Value = { OpenCall };

    ghost view = { λ c. record { return_pc = c.return_pc; saved = c.saved } };

    ghost inverse = { λ c. record { return_pc = c.return_pc; saved = c.saved } };
}

impl OpenCall {
    /// A call that goes on at a place, with these in R6 to R9.
    pub fn new(return_pc: usize, saved: [Option<u64>; 4]) -> Self
        ensures { result ≡ record { return_pc = return_pc; saved = saved } }
    {
        OpenCall { return_pc, saved }
    }

    /// Where it goes on.
    pub fn return_pc(&self) -> usize
        ensures { result ≡ self.now.return_pc }
    {
        self.return_pc
    }

    /// The caller's R6 to R9.
    pub fn saved(&self) -> &[Option<u64>; 4]
        ensures { result.now ≡ self.now.saved }
    {
        &self.saved
    }
}

impl Blank for OpenCall {
    ghost blank = { record { return_pc = 0; saved = replicate 4 None } };

    fn blank() -> Self {
        OpenCall {
            return_pc: 0,
            saved: [None; 4],
        }
    }

    fn is_same(&self, other: &Self) -> bool {
        self.return_pc == other.return_pc && self.saved == other.saved
    }
}

/// The open calls, from 0 to `MAX_CALLS` of them. Contracts see the list, the innermost first.
#[derive(Clone, Copy, Debug, PartialEq, Eq)]
pub struct OpenCalls {
    // the outermost first
    calls: PaddedList<OpenCall, MAX_CALLS>,
}

impl Model for OpenCalls {
    ghost use Rattle.std.specs.Prelude.{List, reverse};
    ghost use Rattle.std.proofs.lemmas.List.{reverse-reverse};
    ghost use Rattle.bpf_semantics.specs.MachineState.{OpenCall};

    ghost Value = { List OpenCall };

    ghost view = { λ c. reverse c.calls };

    ghost inverse = { λ calls. record { calls = reverse calls } };

    ghost inverse_ok = { λ c is i. record { calls = reverse-reverse c.calls i } };
}

impl OpenCalls {
    /// No call.
    pub fn none() -> Self
        ensures { result ≡ [] }
    {
        OpenCalls {
            calls: PaddedList::none(),
        }
    }

    /// How many calls are open.
    pub fn len(&self) -> usize
        ensures { result ≡ length self.now }
    {
        self.calls.len()
    }

    /// Whether both are the same calls. Only those that are open are looked at.
    pub fn is_same(&self, other: &Self) -> bool
        ensures { IsTrue result ↔ (self.now ≡ other.now) }
    {
        self.calls.is_same(&other.calls)
    }

    /// Makes these calls the others. Only those that are open here or there are looked at.
    pub fn copy_from(&mut self, other: &Self)
        ensures { self.new ≡ other.now }
    {
        self.calls.copy_from(&other.calls);
    }

    /// One call more, the innermost.
    pub fn push(&mut self, call: &OpenCall)
        requires { length self.old < MAX_CALLS }
        ensures { self.new ≡ call.now ∷ self.old }
    {
        self.calls.push(*call);
    }

    /// Takes the innermost call, which returns.
    pub fn pop(&mut self) -> OpenCall
        requires { 0 < length self.old }
        ensures { self.old ≡ result ∷ self.new }
    {
        self.calls.pop()
    }

    /// No call is open any more.
    pub fn clear(&mut self)
        ensures { self.new ≡ [] }
    {
        self.calls.clear();
    }
}
