// The end of an inbox: all its passes come back, and what is left is given back in order.
// It relies on the passes being linear, so that as many as were made are all that were made.
ghost use Rattle.std.specs.Prelude.{◌≡◌, ◌<◌, ◌≤◌, ◌+◌, ◌∷◌, ◌++◌, [], All, map, length, vec_len, vec_capacity};
ghost use Rattle.crossbeam_queue.specs.Passes.{IsPassOf};
ghost use Rattle.inbox.specs.InboxLists.{Settles};
ghost use Rattle.inbox.specs.Seats.{known, HoldsAll};
ghost use Rattle.inbox.specs.Views.{IsOf, AreAll};

use crate::inbox::Inbox;
use crate::put_pass::PutPass;
use crate::rule::{Emptying, Queue, Returns, Seat};
use crate::take_pass::TakePass;
use ccb::Completion;
use std::error::Error;
use std::fmt;
use std::sync::Wait;

/// Why an inbox was not closed.
#[derive(Clone, Copy, Debug, PartialEq, Eq)]
pub enum CloseFault {
    /// A pass that the inbox made was not handed in. Users see the code L2.
    PassMissing,
    /// Memory for what is left was refused.
    OutOfMemory,
}

impl fmt::Display for CloseFault {
    fn fmt<W: fmt::Write>(&self, f: &mut fmt::Formatter<W>) -> fmt::Result {
        match self {
            CloseFault::PassMissing => write!(f, "L2: a pass of the inbox is missing"),
            CloseFault::OutOfMemory => write!(f, "out of memory"),
        }
    }
}

impl Error for CloseFault {}

/// An inbox that was not closed, with why, and with all that was handed in.
pub struct Unclosed {
    pub fault: CloseFault,
    pub inbox: Inbox,
    pub puts: Vec<PutPass>,
    pub takes: Vec<TakePass>,
}

impl Unclosed {
    /// Spends all that came back: the completions that wait are let go.
    pub fn forfeit(self) {
        let Unclosed {
            fault: _,
            inbox,
            mut puts,
            mut takes,
        } = self;
        inbox.forfeit();
        while let Some(pass) = puts.pop() {
            pass.forfeit();
        }
        puts.destroy_empty();
        while let Some(pass) = takes.pop() {
            pass.forfeit();
        }
        takes.destroy_empty();
    }
}

impl Inbox {
    ghost use Rattle.std.specs.Prelude.{◌≡◌, ◌++◌, ◌↔◌, All, map, IfOk, IfErr, IsErrAnd};
    ghost use Rattle.inbox.specs.declared.closing.CloseFault.TheVariants.{PassMissing};
    ghost use Rattle.inbox.specs.InboxLists.{Settles};
    ghost use Rattle.inbox.specs.Views.{IsOf, AreAll};

    /// Ends the inbox with all its passes, in any order, and gives what is left, the oldest first.
    ///
    /// Refused with `PassMissing` (L2) exactly where a pass that the inbox made is not among those handed in, and with `OutOfMemory` where memory for what is left is refused. Then all comes back as it was.
    ///
    /// It may wait for other threads; with all passes handed in there are none inside `put` or `take`.
    pub fn close<R: Wait>(
        self,
        rt: &R,
        puts: Vec<PutPass>,
        takes: Vec<TakePass>,
    ) -> Result<Vec<Completion>, Unclosed>
        requires puts { All (IsOf self) puts.items }
        requires takes { All (IsOf self) takes.items }
        ensures closed { IfOk result (λ left. Settles self.shape (map (λ p. p.account) (puts.items ++ takes.items)) left.items) }
        ensures missing { IsErrAnd result (λ u. u.fault ≡ PassMissing) ↔ (¬ AreAll self.shape puts.items takes.items) }
        ensures unclosed { IfErr result (λ u. (u.inbox ≡ self) × (u.puts.items ≡ puts.items) × (u.takes.items ≡ takes.items)) }
    {
        if puts.len() != self.puts || takes.len() != self.takes {
            return Err(Unclosed {
                fault: CloseFault::PassMissing,
                inbox: self,
                puts,
                takes,
            });
        }
        let Ok(left) = Vec::with_capacity(*puts.allocator(), self.queue.capacity()) else {
            return Err(Unclosed {
                fault: CloseFault::OutOfMemory,
                inbox: self,
                puts,
                takes,
            });
        };
        Ok(settle(rt, self, puts, takes, left))
    }
}

// Ends the inbox with all its passes, and with room for what is left.
fn settle<R: Wait>(
    rt: &R,
    inbox: Inbox,
    puts: Vec<PutPass>,
    takes: Vec<TakePass>,
    left: Vec<Completion>,
) -> Vec<Completion>
    requires all { AreAll inbox.shape puts.items takes.items }
    requires puts { All (IsOf inbox) puts.items }
    requires takes { All (IsOf inbox) takes.items }
    requires room { (left.items ≡ []) × (inbox.shape.capacity ≤ vec_capacity left) }
    ensures { Settles inbox.shape (map (λ p. p.account) (puts.items ++ takes.items)) result.items }
{
    let Inbox {
        queue,
        puts: _,
        takes: _,
    } = inbox;
    let last = gather(&queue, puts, takes);
    empty(rt, &queue, last, left)
}

// The first pass takes all others in.
fn gather(queue: &Queue, mut puts: Vec<PutPass>, mut takes: Vec<TakePass>) -> Seat
    requires some { 0 < vec_len puts }
    requires puts { All (λ p. p.queue ≡ queue.now.table.shared.table_id) puts.items }
    requires takes { All (λ p. p.queue ≡ queue.now.table.shared.table_id) takes.items }
    ensures seat { IsPassOf queue.now result }
    ensures holds { HoldsAll (known result) (map (λ p. p.account) (puts.items ++ takes.items)) [] }
{
    let PutPass { seat: mut last } = puts.remove(0);
    while let Some(take_pass) = takes.pop() {
        let TakePass { seat } = take_pass;
        queue.absorb::<Returns>(&mut last, seat);
    }
    takes.destroy_empty();
    while let Some(put_pass) = puts.pop() {
        let PutPass { seat } = put_pass;
        queue.absorb::<Returns>(&mut last, seat);
    }
    puts.destroy_empty();
    last
}

// The last pass takes out what is left.
fn empty<R: Wait>(
    rt: &R,
    queue: &Queue,
    mut last: Seat,
    mut left: Vec<Completion>,
) -> Vec<Completion>
    requires seat { IsPassOf queue.now last }
    requires holds { HoldsAll (known last) ((known last).account ∷ (known last).back) [] }
    requires all { length (known last).back + 1 ≡ (known last).account.shape.puts + (known last).account.shape.takes }
    requires room { (left.items ≡ []) × ((known last).account.shape.capacity ≤ vec_capacity left) }
    ensures { Settles (known last).account.shape ((known last).account ∷ (known last).back) result.items }
{
    while let Some(completion) = queue.pop_as::<Emptying, R>(rt, &mut last) {
        left.push_reserved(completion);
    }
    left
}
