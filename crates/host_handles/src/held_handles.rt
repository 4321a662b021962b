// The runs and the tokens of a host. It relies on `making` for how a call is made.

ghost use Rattle.std.specs.Prelude.{◌≡◌, [], Err, MatchResult, Ok};
ghost use Rattle.world_calls.specs.declared.call_answer.CallAnswer.{CallAnswer};
ghost use Rattle.host_handles.specs.Handles.{HasNoRun, IsAdvanceOf, IsOfCall, IsSettled, IsUnheld, handles};

use crate::held::HeldRun;
use crate::making::{advance, make};
use crate::responder::Responder;
use crate::unanswered::Unanswered;
use engine_core::{Call, CallAnswer, GuestToken};
use std::alloc::Global;
use std::marker::Model;

/// The runs that are out, and the tokens of guests' freezes, found by their numbers. Where they are dropped they are forfeited, which
/// changes no engine.
#[derive(Drop)]
pub struct HeldHandles {
    // both in the order of the numbers
    runs: Vec<HeldRun>,
    tokens: Vec<GuestToken>,
}

impl Model for HeldHandles {
    ghost use Rattle.host_handles.specs.Handles.{AreSorted, HandlesState, handles};

    ghost Value = { HandlesState };

    ghost view = { λ h. handles h.runs.items h.tokens.items };

    ghost invariant = { λ h. AreSorted h.runs.items h.tokens.items };
}

impl HeldHandles {
    /// Nothing. It takes no memory.
    pub fn empty(alloc: Global) -> Self
        ensures { result ≡ handles [] [] }
    {
        HeldHandles {
            runs: Vec::new(alloc),
            tokens: Vec::new(alloc),
        }
    }

    /// Asks what a call leads to, with the run or the token that it names, and keeps what is given or comes back: what it is answered.
    /// Room for that is made first: where memory for it is refused, nobody is asked.
    pub fn call<A: Responder>(
        &mut self,
        asked: &mut A,
        call: &Call,
    ) -> Result<CallAnswer, Unanswered>
        ensures { IsSettled (λ event reply. A.answers asked.old event reply asked.new) (IsOfCall call.now) (IsUnheld call.now self.old) (asked.new ≡ asked.old) self.old self.new result }
    {
        if self.runs.reserve(1).is_err() || self.tokens.reserve(1).is_err() {
            return Err(Unanswered::OutOfMemory);
        }
        make(&mut self.runs, &mut self.tokens, asked, call)
    }

    /// Lets the run of that number go on to its next stop, asks what that leads to, and keeps the run that is given or comes back.
    pub fn advance<A: Responder>(&mut self, asked: &mut A, run: u32) -> Result<(), Unanswered>
        ensures { MatchResult result
            (λ _. (answer : CallAnswer) × IsSettled (λ event reply. A.answers asked.old event reply asked.new) (IsAdvanceOf run) (HasNoRun run self.old) (asked.new ≡ asked.old) self.old self.new (Ok answer))
            (λ fault. IsSettled (λ event reply. A.answers asked.old event reply asked.new) (IsAdvanceOf run) (HasNoRun run self.old) (asked.new ≡ asked.old) self.old self.new (Err fault)) }
    {
        if self.runs.reserve(1).is_err() || self.tokens.reserve(1).is_err() {
            return Err(Unanswered::OutOfMemory);
        }
        advance(&mut self.runs, &mut self.tokens, asked, run)
    }
}
