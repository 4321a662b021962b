// Four threads put and four take, ten thousand completions in all: each comes out once, and those of one thread in its order.
ghost use Rattle.std.specs.Prelude.{◌<◌, ◌^◌, All};
ghost use Rattle.inbox.specs.Views.{IsOf};

use super::*;
use std::thread;
use std::thread::Threads;

const WORKERS: usize = 8;

const PRODUCERS: u32 = 4;

// How many completions one thread puts, and one takes.
const EACH: u32 = 2500;

// What one thread has. The first four use the one pass, the others the other.
struct Worker {
    put: PutPass,
    take: TakePass,
    numbers: Vec<u32>,
}

// Puts the numbers from `first` on.
fn produce<R: Wait>(rt: &R, inbox: &Inbox, pass: &mut PutPass, first: u32)
    requires { (first < 2 ^ 16) × IsOf inbox.now pass.old }
    ensures { IsOf inbox.now pass.new }
{
    let mut number = first;
    for _ in rt.forever() {
        if number >= first + EACH {
            break;
        }
        let Some(completion) = completion(number) else {
            break;
        };
        match inbox.put(rt, pass, completion) {
            Ok(()) => number += 1,
            Err(_) => thread::yield_now(),
        }
    }
}

// Takes as many as one thread puts. If there is no memory for a number it is left out.
fn consume<R: Wait>(rt: &R, inbox: &Inbox, pass: &mut TakePass, numbers: &mut Vec<u32>)
    requires { IsOf inbox.now pass.old }
    ensures { IsOf inbox.now pass.new }
{
    let mut taken = 0;
    for _ in rt.forever() {
        if taken >= EACH {
            break;
        }
        match inbox.take(rt, pass) {
            Some(completion) => {
                let _ = numbers.push(completion.ccb().0);
                taken += 1;
            }
            None => thread::yield_now(),
        }
    }
}

fn work<R: Wait>(rt: &R, inbox: &Inbox, place: usize, worker: &mut Worker)
    requires { IsOf inbox.now worker.old.put × IsOf inbox.now worker.old.take }
    ensures { IsOf inbox.now worker.new.put × IsOf inbox.now worker.new.take }
{
    if place < PRODUCERS as usize {
        produce(rt, inbox, &mut worker.put, place as u32 * EACH);
    } else {
        consume(rt, inbox, &mut worker.take, &mut worker.numbers);
    }
}

fn work_all<R: Threads + Wait + Sync>(rt: &R, inbox: &Inbox, workers: &mut [Worker])
    requires { All (λ w. IsOf inbox.now w.put × IsOf inbox.now w.take) workers.old }
    ensures { All (λ w. IsOf inbox.now w.put × IsOf inbox.now w.take) workers.new }
{
    thread::for_each_mut(
        rt,
        workers,
        WORKERS,
        &|place, worker| work(rt, inbox, place, worker),
    );
}

// A worker more, if there is room.
fn hire(inbox: &Inbox, workers: &mut Vec<Worker>, worker: Worker)
    requires worker { IsOf inbox.now worker.put × IsOf inbox.now worker.take }
    requires workers { All (λ w. IsOf inbox.now w.put × IsOf inbox.now w.take) workers.old.items }
    ensures { All (λ w. IsOf inbox.now w.put × IsOf inbox.now w.take) workers.new.items }
{
    match workers.push(worker) {
        Ok(()) => {}
        Err(failed) => {
            let Worker {
                put,
                take,
                numbers: _,
            } = failed.value;
            put.forfeit();
            take.forfeit();
        }
    }
}

// All workers, who have all passes.
fn staff(
    alloc: Global,
    inbox: &Inbox,
    puts: &mut Vec<PutPass>,
    takes: &mut Vec<TakePass>,
) -> Vec<Worker>
    requires { All (IsOf inbox.now) puts.old.items × All (IsOf inbox.now) takes.old.items }
    ensures passes { All (IsOf inbox.now) puts.new.items × All (IsOf inbox.now) takes.new.items }
    ensures workers { All (λ w. IsOf inbox.now w.put × IsOf inbox.now w.take) result.items }
{
    let mut workers = Vec::new(alloc);
    for _ in 0..WORKERS {
        let Some(put) = puts.pop() else {
            break;
        };
        match takes.pop() {
            Some(take) => {
                let numbers = Vec::new(alloc);
                hire(inbox, &mut workers, Worker { put, take, numbers });
            }
            None => put.forfeit(),
        }
    }
    workers
}

// Puts both passes back, as far as there is room.
fn put_both_back(
    inbox: &Inbox,
    puts: &mut Vec<PutPass>,
    takes: &mut Vec<TakePass>,
    put: PutPass,
    take: TakePass,
)
    requires others { All (IsOf inbox.now) puts.old.items × All (IsOf inbox.now) takes.old.items }
    requires passes { IsOf inbox.now put × IsOf inbox.now take }
    ensures { All (IsOf inbox.now) puts.new.items × All (IsOf inbox.now) takes.new.items }
{
    put_back(inbox, puts, put);
    match takes.push(take) {
        Ok(()) => {}
        Err(failed) => failed.value.forfeit(),
    }
}

// Puts the passes back, and gives what each worker took.
fn dismiss(
    alloc: Global,
    inbox: &Inbox,
    mut workers: Vec<Worker>,
    puts: &mut Vec<PutPass>,
    takes: &mut Vec<TakePass>,
) -> Vec<Vec<u32>>
    requires passes { All (IsOf inbox.now) puts.old.items × All (IsOf inbox.now) takes.old.items }
    requires workers { All (λ w. IsOf inbox.now w.put × IsOf inbox.now w.take) workers.items }
    ensures { All (IsOf inbox.now) puts.new.items × All (IsOf inbox.now) takes.new.items }
{
    let mut taken = Vec::new(alloc);
    while let Some(worker) = workers.pop() {
        let Worker { put, take, numbers } = worker;
        put_both_back(inbox, puts, takes, put, take);
        let _ = taken.push(numbers);
    }
    workers.destroy_empty();
    taken
}

// Whether the numbers of each producer stand in their order in a list, none of which was seen before.
fn are_in_order(numbers: &[u32], seen: &mut [bool]) -> bool {
    let mut next = [0u32; PRODUCERS as usize];
    for number in numbers {
        let producer = (*number / EACH) as usize;
        let place = *number as usize;
        if producer >= next.len() || place >= seen.len() {
            return false;
        }
        if *number < next[producer] || seen[place] {
            return false;
        }
        next[producer] = *number;
        seen[place] = true;
    }
    true
}

// Whether each number was taken once, and in each list those of one producer stand in its order.
fn are_taken(alloc: Global, taken: &[Vec<u32>]) -> Option<bool> {
    let mut seen = match Vec::from_elem(alloc, false, (PRODUCERS * EACH) as usize) {
        Ok(seen) => seen,
        Err(AllocError) => return None,
    };
    for numbers in taken {
        if !are_in_order(numbers, &mut seen) {
            return Some(false);
        }
    }
    Some(seen.iter().all(|once| *once))
}

// What each worker took, if all were hired.
fn taken_by_all<R: Threads + Wait + Sync>(
    rt: &R,
    alloc: Global,
    inbox: &Inbox,
    puts: &mut Vec<PutPass>,
    takes: &mut Vec<TakePass>,
) -> Vec<Vec<u32>>
    requires { All (IsOf inbox.now) puts.old.items × All (IsOf inbox.now) takes.old.items }
    ensures { All (IsOf inbox.now) puts.new.items × All (IsOf inbox.now) takes.new.items }
{
    let mut workers = staff(alloc, inbox, puts, takes);
    // with fewer the producers would wait forever
    if workers.len() == WORKERS {
        work_all(rt, inbox, workers.as_mut_slice());
    }
    dismiss(alloc, inbox, workers, puts, takes)
}

/// Four threads put and four take: each completion comes out once.
pub fn each_is_taken_once<R: Threads + Wait + Sync>(rt: &R, alloc: Global) -> Option<bool> {
    let (inbox, mut puts, mut takes) = open(alloc, 16, WORKERS, WORKERS)?;
    let taken = taken_by_all(rt, alloc, &inbox, &mut puts, &mut takes);
    let left = close(rt, inbox, puts, takes)?;
    Some(are_taken(alloc, taken.as_slice())? && left.is_empty())
}
