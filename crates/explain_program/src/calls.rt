// How deep the local calls of a program are nested, and how often each function is called with all of them written out. It relies on
// `functions` for which function a slot is in, and on `program` for where calls lead.

use crate::functions::is_local_call;
use crate::program::target_of;
use bpf_insn::{MAX_SLOTS, Program};
use cli_text_page::Page;

/// How many functions may be open at a time.
const MOST_OPEN: u64 = 8;

// A number for each slot; for the one at which a function begins it is that of the function.
type Numbers = [u64; MAX_SLOTS];

/// Puts by which calls nine functions are open.
pub fn put_depth(page: &mut Page, program: &Program) {
    let starts = starts_of(program);
    let heights = heights_of(program, &starts);
    let mut function = 0u64;
    page.text("  = here: nine functions are open by the calls at slots ");
    for step in 0..MOST_OPEN {
        let needed = MOST_OPEN.saturating_sub(step);
        if let Some(place) = call_of(program, &starts, &heights, function, needed) {
            page.text(match step {
                0 => "",
                7 => " and ",
                _ => ", ",
            });
            page.number(place as u64);
            function = callee(program, place);
        }
    }
    page.fill(": the ninth begins at slot {}\n", &[function]);
}

// The first call in a function which leads to one below which at least so many functions are open, with itself.
fn call_of(
    program: &Program,
    starts: &Numbers,
    heights: &Numbers,
    function: u64,
    needed: u64,
) -> Option<usize> {
    for place in 0..program.len() {
        if at(starts, place as u64) == function && is_local_call(program, place) {
            if at(heights, callee(program, place)) >= needed {
                return Some(place);
            }
        }
    }
    None
}

/// Puts how many instructions there are with all calls written out, and which function is called most often.
pub fn put_length(page: &mut Page, program: &Program) {
    let starts = starts_of(program);
    let lengths = lengths_of(program, &starts);
    let times = times_of(program, &starts);
    let mut most = 0u64;
    let mut function = 0u64;
    for slot in 1..program.len() {
        let count = at(&times, slot as u64);
        if count > most {
            most = count;
            function = slot as u64;
        }
    }
    page.fill(
        "  = here: {} instructions with all calls written out; the function at slot {} is called most often, {} times\n",
        &[at(&lengths, 0), function, most],
    );
}

// The function of each slot, by the slot at which it begins.
fn starts_of(program: &Program) -> Numbers {
    let mut called = [0u64; MAX_SLOTS];
    for place in 0..program.len() {
        if is_local_call(program, place) {
            set(&mut called, callee(program, place), 1);
        }
    }
    let mut starts = [0u64; MAX_SLOTS];
    let mut start = 0u64;
    for slot in 0..program.len() {
        if at(&called, slot as u64) > 0 {
            start = slot as u64;
        }
        set(&mut starts, slot as u64, start);
    }
    starts
}

// How many functions are open at a time below each function, with itself.
fn heights_of(program: &Program, starts: &Numbers) -> Numbers {
    let mut heights = [1u64; MAX_SLOTS];
    for _round in 0..MOST_OPEN {
        for place in 0..program.len() {
            if is_local_call(program, place) {
                let function = at(starts, place as u64);
                let height = at(&heights, callee(program, place)).saturating_add(1);
                let before = at(&heights, function);
                set(&mut heights, function, before.max(height));
            }
        }
    }
    heights
}

// How many instructions each function has with its calls written out. Calls are nested eight deep at most.
fn lengths_of(program: &Program, starts: &Numbers) -> Numbers {
    let mut lengths = [0u64; MAX_SLOTS];
    for _round in 0..MOST_OPEN {
        lengths = lengths_by(program, starts, &lengths);
    }
    lengths
}

// The same by how many those have that are called.
fn lengths_by(program: &Program, starts: &Numbers, before: &Numbers) -> Numbers {
    let mut lengths = [0u64; MAX_SLOTS];
    for place in 0..program.len() {
        if program.fetch(place).is_some() {
            let called = if is_local_call(program, place) {
                at(before, callee(program, place))
            } else {
                0
            };
            add(
                &mut lengths,
                at(starts, place as u64),
                called.saturating_add(1),
            );
        }
    }
    lengths
}

// How often each function is called with all calls written out; that of slot 0 once.
fn times_of(program: &Program, starts: &Numbers) -> Numbers {
    let mut times = [0u64; MAX_SLOTS];
    for _round in 0..MOST_OPEN {
        times = times_by(program, starts, &times);
    }
    times
}

// The same by how often those are that call.
fn times_by(program: &Program, starts: &Numbers, before: &Numbers) -> Numbers {
    let mut times = [0u64; MAX_SLOTS];
    set(&mut times, 0, 1);
    for place in 0..program.len() {
        if is_local_call(program, place) {
            let count = at(before, at(starts, place as u64));
            add(&mut times, callee(program, place), count);
        }
    }
    times
}

// Where the call at a place leads.
fn callee(program: &Program, place: usize) -> u64 {
    target_of(program, place).unwrap_or(0) as u64
}

fn at(numbers: &Numbers, place: u64) -> u64 {
    match usize::try_from(place) {
        Ok(place) => numbers.get(place).copied().unwrap_or(0),
        Err(_) => 0,
    }
}

fn set(numbers: &mut Numbers, place: u64, value: u64) {
    if let Ok(place) = usize::try_from(place) {
        if let Some(number) = numbers.get_mut(place) {
            *number = value;
        }
    }
}

fn add(numbers: &mut Numbers, place: u64, value: u64) {
    let before = at(numbers, place);
    set(numbers, place, before.saturating_add(value));
}
