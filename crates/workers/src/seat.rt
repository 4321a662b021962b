// What a worker serves with. It relies on `engine_lock` and `inbox` for its two parts.

ghost use Rattle.std.specs.Prelude.{◌≡◌, ◌<◌, ◌≤◌, ◌++◌, [], All, IfErr, IfOk, length, map, vec_capacity};
ghost use Rattle.engine_lock.specs.Sharing.{IsNewCaller};
ghost use Rattle.engine_lock.specs.declared.fault.LockFault.TheVariants.{TooManyCallers};
ghost use Rattle.inbox.specs.Views.{IsOf};

use engine_lock::{Caller, LockFault, Object, Shared};
use inbox::{Inbox, TakePass};
use std::marker::Model;
use std::sync::Wait;

/// The rights of one worker: to call the engine, and to take from the inbox.
pub struct Seat<B: Object> {
    pub caller: Caller<B>,
    pub pass: TakePass,
}

impl<B: Object> Model for Seat<B> {
    ghost use Rattle.workers.specs.Serving.{SeatState};

    ghost Value = { SeatState };

    ghost view = { λ s. record { caller = s.caller; pass = s.pass } };
}

impl<B: Object> Seat<B> {
    fn forfeit(self) {
        let Seat { caller, pass } = self;
        caller.forfeit();
        pass.forfeit();
    }
}

/// Passes for which there was no caller, with why, and with the seats that were made before.
pub struct Unseated<B: Object> {
    pub fault: LockFault,
    /// In the order of their passes.
    pub seats: Vec<Seat<B>>,
    /// The passes that are left.
    pub passes: Vec<TakePass>,
}

impl<B: Object> Unseated<B> {
    /// Spends all that came back.
    pub fn forfeit(self) {
        let Unseated {
            fault: _,
            mut seats,
            mut passes,
        } = self;
        while let Some(seat) = seats.pop() {
            seat.forfeit();
        }
        seats.destroy_empty();
        while let Some(pass) = passes.pop() {
            pass.forfeit();
        }
        passes.destroy_empty();
    }
}

/// A seat for each of these passes, in their order, each with a new caller, in the list, which is empty and has room for them. L1 if
/// 64 callers were given out: then the passes that have no seat come back. It takes no memory, and may wait for other callers.
pub fn seated<B: Object, R: Wait>(
    rt: &R,
    shared: &Shared<B>,
    inbox: &Inbox,
    mut takes: Vec<TakePass>,
    mut seats: Vec<Seat<B>>,
) -> Result<Vec<Seat<B>>, Unseated<B>>
    requires passes { All (IsOf inbox.now) takes.items }
    requires room { (seats.items ≡ []) × (length takes.items ≤ vec_capacity seats) }
    ensures seated { IfOk result (λ made. map (λ seat. seat.pass) made.items ≡ takes.items) }
    ensures callers { IfOk result (λ made. All (λ seat. IsNewCaller B.setup B.begun seat.caller) made.items) }
    ensures passes { IfOk result (λ made. All (λ seat. IsOf inbox.now seat.pass) made.items) }
    ensures all { IfOk result (λ made. length made.items ≡ length takes.items) }
    ensures fault { IfErr result (λ back. back.fault ≡ TooManyCallers) }
    ensures unseated { IfErr result (λ back. (map (λ seat. seat.pass) back.seats.items ++ back.passes.items ≡ takes.items) × (0 < length back.passes.items)) }
    ensures some { IfErr result (λ back. All (λ seat. IsNewCaller B.setup B.begun seat.caller) back.seats.items) }
{
    while !takes.is_empty() {
        match shared.caller(rt) {
            Ok(caller) => {
                let pass = takes.remove(0);
                seats.push_reserved(Seat { caller, pass });
            }
            Err(fault) => {
                return Err(Unseated {
                    fault,
                    seats,
                    passes: takes,
                });
            }
        }
    }
    takes.destroy_empty();
    Ok(seats)
}
