// How seats serve: as `workers` does, or by a wrong body that no contract refuses.

ghost use Rattle.std.specs.Prelude.{◌≡◌, ◌+◌, ◌<◌, ◌≤◌, All, length, vec_capacity, vec_len};
ghost use Rattle.inbox.specs.Views.{IsOf};
ghost use Rattle.workers.specs.declared.serving.TheConstants.{MAX_WORKERS};

use engine_lock::{Object, Shared};
use inbox::Inbox;
use std::alloc::AllocError;
use std::sync::Wait;
use std::thread::Threads;
use workers::{Gate, Seat, Served, Unserved, serve};

/// Who serves.
#[derive(Clone, Copy)]
pub enum Service {
    /// Each seat in a thread of its own.
    Workers,
    /// The last seat alone, in one thread.
    OneThread,
    Nobody,
}

/// Serves so.
pub fn serve_by<B: Object + Send + Sync, G: Gate + Sync, R: Threads + Wait + Sync>(
    rt: &R,
    service: Service,
    seats: Vec<Seat<B>>,
    shared: &Shared<B>,
    inbox: &Inbox,
    gate: &G,
) -> Served<B>
    requires few { length seats.items ≤ MAX_WORKERS }
    requires passes { All (λ seat. IsOf inbox.now seat.pass) seats.items }
    ensures all { length result.seats ≡ length seats.items }
    ensures passes { All (λ seat. IsOf inbox.now seat.pass) result.seats }
{
    match service {
        Service::Workers => serve_or_not(rt, seats, shared, inbox, gate),
        Service::OneThread => serve_alone(rt, seats, shared, inbox, gate),
        Service::Nobody => unserved(seats),
    }
}

// Each seat serves in a thread of its own. Nobody does if memory is refused.
fn serve_or_not<B: Object + Send + Sync, G: Gate + Sync, R: Threads + Wait + Sync>(
    rt: &R,
    seats: Vec<Seat<B>>,
    shared: &Shared<B>,
    inbox: &Inbox,
    gate: &G,
) -> Served<B>
    requires few { length seats.items ≤ MAX_WORKERS }
    requires passes { All (λ seat. IsOf inbox.now seat.pass) seats.items }
    ensures all { length result.seats ≡ length seats.items }
    ensures passes { All (λ seat. IsOf inbox.now seat.pass) result.seats }
{
    match serve(rt, seats, shared, inbox, gate) {
        Ok(served) => served,
        Err(Unserved { seats }) => unserved(seats),
    }
}

// The last seat serves. Nobody does if memory is refused.
fn serve_alone<B: Object + Send + Sync, G: Gate + Sync, R: Threads + Wait + Sync>(
    rt: &R,
    mut seats: Vec<Seat<B>>,
    shared: &Shared<B>,
    inbox: &Inbox,
    gate: &G,
) -> Served<B>
    requires { All (λ seat. IsOf inbox.now seat.pass) seats.items }
    ensures all { length result.seats ≡ length seats.items }
    ensures passes { All (λ seat. IsOf inbox.now seat.pass) result.seats }
{
    let mut one = match Vec::with_capacity(*seats.allocator(), 1) {
        Ok(one) => one,
        Err(AllocError) => return unserved(seats),
    };
    match seats.pop() {
        Some(seat) => one.push_reserved(seat),
        None => {
            one.destroy_empty();
            return unserved(seats);
        }
    }
    let Served {
        seats: one,
        started,
        ended,
        completions,
        runs,
        out_of_memory,
    } = serve_or_not(rt, one, shared, inbox, gate);
    Served {
        seats: with_last(inbox, seats, one),
        started,
        ended,
        completions,
        runs,
        out_of_memory,
    }
}

// The seats with the one that was taken off.
fn with_last<B: Object>(
    inbox: &Inbox,
    mut seats: Vec<Seat<B>>,
    mut one: Vec<Seat<B>>,
) -> Vec<Seat<B>>
    requires one { (vec_len one ≡ 1) × All (λ seat. IsOf inbox.now seat.pass) one.items }
    requires seats { All (λ seat. IsOf inbox.now seat.pass) seats.items }
    requires room { vec_len seats < vec_capacity seats }
    ensures all { length result.items ≡ length seats.items + 1 }
    ensures passes { All (λ seat. IsOf inbox.now seat.pass) result.items }
{
    match one.pop() {
        Some(seat) => {
            one.destroy_empty();
            seats.push_reserved(seat);
            seats
        }
        None => unreachable!(),
    }
}

fn unserved<B: Object>(seats: Vec<Seat<B>>) -> Served<B>
    ensures { result.seats ≡ seats.items }
{
    let alloc = *seats.allocator();
    Served {
        seats,
        started: 0,
        ended: 0,
        completions: Vec::new(alloc),
        runs: Vec::new(alloc),
        out_of_memory: false,
    }
}
