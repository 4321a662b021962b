// The inbox itself: how it is made with its passes, and what they do.
// It relies on the rule of its queue, which each put and take keeps.
ghost use Rattle.std.specs.Prelude.{◌≡◌, ◌≤◌, ◌<◌, ◌+◌, [], ◌∷◌, ◌++◌, All, OnOk, IfOk, IfErr, OnErr, IfNone, MatchOption, vec_len, vec_capacity};
ghost use Rattle.crossbeam_queue.specs.Passes.{IsPassOf, ruled_capacity};
ghost use Rattle.inbox.specs.InboxLists.{IsPut, Takes, Held};
ghost use Rattle.inbox.specs.Refusals.{TookAllKnown, UsedAllKnown};
ghost use Rattle.inbox.specs.Seats.{known, opening};
ghost use Rattle.inbox.specs.Views.{InboxView, IsOf, new_passes};

use crate::put_pass::PutPass;
use crate::rule::{Makes, Opens, Putting, Queue, Seat, Shaped, Taking};
use crate::take_pass::TakePass;
use ccb::Completion;
use std::alloc::{AllocError, Global};
use std::marker::{Brand, Model};
use std::sync::Wait;

/// How many completions an inbox can be made to hold at most.
pub const MAX_CAPACITY: usize = 256;

/// How many passes of one kind it can have at most.
pub const MAX_PASSES: usize = 64;

/// Completions that wait, at most as many as its capacity, in the order in which they were put. It is shared by reference, and spent by `close`.
///
/// To contracts it is the queue that it has, and its shape: its capacity, and how many passes there are of each kind.
pub struct Inbox {
    pub(crate) queue: Queue,
    pub(crate) puts: usize,
    pub(crate) takes: usize,
}

impl Model for Inbox {
    ghost use Rattle.std.specs.Prelude.{◌<◌};
    ghost use Rattle.crossbeam_queue.specs.Passes.{ruled_capacity};
    ghost use Rattle.inbox.specs.Views.{InboxView};

    ghost Value = { InboxView };

    ghost view = { λ x. record { queue = x.queue.table.shared.table_id; shape = record { capacity = ruled_capacity x.queue; puts = x.puts; takes = x.takes } } };

    ghost invariant = { λ x. 0 < x.puts };
}

impl Inbox {
    /// An empty inbox that holds at most `capacity` completions, 1 to 256, and its passes: `puts` to put and `takes` to take, 1 to 64 of each kind. Put passes are numbered from 0, take passes from `puts` on.
    ///
    /// Where memory is refused, nothing is left of it.
    pub fn new(
        alloc: Global,
        capacity: usize,
        puts: usize,
        takes: usize,
    ) -> Result<(Inbox, Vec<PutPass>, Vec<TakePass>), AllocError>
        requires capacity { (1 ≤ capacity) × (capacity ≤ MAX_CAPACITY) }
        requires puts { (1 ≤ puts) × (puts ≤ MAX_PASSES) }
        requires takes { (1 ≤ takes) × (takes ≤ MAX_PASSES) }
        ensures inbox { IfOk result (λ made. made.0.shape ≡ record { capacity = capacity; puts = puts; takes = takes }) }
        ensures puts { IfOk result (λ made. made.1.items ≡ new_passes made.0 0 puts) }
        ensures takes { IfOk result (λ made. made.2.items ≡ new_passes made.0 puts takes) }
        ensures many { IfOk result (λ made. (vec_len made.1 ≡ puts) × (vec_len made.2 ≡ takes)) }
        ensures ours { IfOk result (λ made. All (IsOf made.0) made.1.items × All (IsOf made.0) made.2.items) }
    {
        let (queue, seat) = Queue::ruled(alloc, capacity)?;
        let put_passes = Vec::with_capacity(alloc, puts)?;
        let take_passes = match Vec::with_capacity(alloc, takes) {
            Ok(take_passes) => take_passes,
            Err(refused) => {
                put_passes.destroy_empty();
                return Err(refused);
            }
        };
        Ok(deal::<Brand>(queue, seat, put_passes, puts, take_passes, takes))
    }

    /// Puts a completion after all that were put before. It comes back, and the pass stays as it was, only where the inbox was full at some moment: as many had been put then as there is room for, and one more for each take that the pass knows of. A pass knows what it saw when it last put, and what it was told (`PutPass::learn`); a new one knows of no take.
    ///
    /// So the only put pass is refused only once it has put that many itself. Of several each is bound by what it knows, but the others may have put the rest (`laws::refusals`).
    ///
    /// Takes no memory. It may wait for other threads that are inside `put` or `take`.
    pub fn put<R: Wait>(
        &self,
        rt: &R,
        pass: &mut PutPass,
        completion: Completion,
    ) -> Result<(), Completion>
        requires { IsOf self.now pass.old }
        ensures same { IsOf self.now pass.new }
        ensures put { OnOk result (IsPut pass.old.account pass.new.account completion) }
        ensures refused { IfErr result (λ back. (back ≡ completion) × (pass.new ≡ pass.old) × Held pass.old.account self.now.shape.capacity) }
        ensures lone { self.now.shape.puts ≡ 1 → OnErr result (UsedAllKnown pass.old.account) }
    {
        self.queue
            .push_as::<Putting, R>(rt, &mut pass.seat, completion)
    }

    /// Takes the oldest completion. There is none, and the pass stays as it was, only where the inbox was empty at some moment: all puts had been taken then that the pass knows of. A pass knows what it saw when it last took, and what it was told (`TakePass::learn`); a new one knows of no put.
    ///
    /// So the only take pass that gets none has taken all that it knows of itself. Of several each is bound by what it knows, but the others may have taken it (`laws::refusals`).
    ///
    /// Takes no memory. It may wait for other threads that are inside `put` or `take`.
    pub fn take<R: Wait>(&self, rt: &R, pass: &mut TakePass) -> Option<Completion>
        requires { IsOf self.now pass.old }
        ensures same { IsOf self.now pass.new }
        ensures taken { MatchOption result ((pass.new ≡ pass.old) × Held pass.old.account 0) (λ completion. Takes pass.old.account pass.new.account completion) }
        ensures lone { self.now.shape.takes ≡ 1 → IfNone result (TookAllKnown pass.old.account) }
    {
        self.queue.pop_as::<Taking, R>(rt, &mut pass.seat)
    }
}

impl Inbox {
    /// Lets the inbox go, with the completions that wait. Its passes are good for nothing then.
    pub fn forfeit(self) {
        let Inbox {
            queue: _,
            puts: _,
            takes: _,
        } = self;
    }
}

// Makes the passes, for which there is room.
fn deal<S: Shaped>(
    queue: Queue,
    mut maker: Seat,
    mut put_passes: Vec<PutPass>,
    puts: usize,
    mut take_passes: Vec<TakePass>,
    takes: usize,
) -> (Inbox, Vec<PutPass>, Vec<TakePass>)
    requires seat { IsPassOf queue maker × (known maker ≡ opening) }
    requires shape { (S.shape ≡ record { capacity = ruled_capacity queue; puts = puts; takes = takes }) × (0 < puts) }
    requires put_room { (put_passes.items ≡ []) × (puts ≤ vec_capacity put_passes) }
    requires take_room { (take_passes.items ≡ []) × (takes ≤ vec_capacity take_passes) }
    ensures inbox { result.0.shape ≡ S.shape }
    ensures many { (vec_len result.1 ≡ puts) × (vec_len result.2 ≡ takes) }
    ensures puts { result.1.items ≡ new_passes result.0 0 puts }
    ensures takes { result.2.items ≡ new_passes result.0 puts takes }
{
    queue.another::<Opens<S>>(&mut maker);
    for _ in 0..puts {
        let seat = queue.another::<Makes>(&mut maker);
        put_passes.push_reserved(PutPass { seat });
    }
    for _ in 0..takes {
        let seat = queue.another::<Makes>(&mut maker);
        take_passes.push_reserved(TakePass { seat });
    }
    let inbox = Inbox { queue, puts, takes };
    (inbox, put_passes, take_passes)
}
