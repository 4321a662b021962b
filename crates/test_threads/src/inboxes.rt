// One thread and many: what is put comes out once, in order, and the inbox refuses and is closed as it says. That bodies which never
// give, or never take in, are found out stands here too: with several passes of a kind no contract refuses them.

ghost use Rattle.std.specs.Prelude.{◌≡◌, ◌≤◌, ◌<◌, All, IfSome, vec_len};
ghost use Rattle.inbox.specs.Views.{IsOf};

use ccb::{CamStatus, CcbId, Completion};
use inbox::{CloseFault, Inbox, PutPass, TakePass, Unclosed};
use std::alloc::{AllocError, Global};
use std::sync::Wait;

pub mod many;

// A completion of the CCB of this number.
fn completion(number: u32) -> Option<Completion> {
    Completion::new(CcbId(number), CamStatus::RequestCompleted, 0, &[])
}

// An inbox with its passes. If memory is refused, the same call succeeds the second time.
fn open(
    alloc: Global,
    capacity: usize,
    puts: usize,
    takes: usize,
) -> Option<(Inbox, Vec<PutPass>, Vec<TakePass>)>
    requires capacity { (1 ≤ capacity) × (capacity ≤ 256) }
    requires puts { (1 ≤ puts) × (puts ≤ 64) }
    requires takes { (1 ≤ takes) × (takes ≤ 64) }
    ensures puts { IfSome result (λ made. (vec_len made.1 ≡ puts) × All (IsOf made.0) made.1.items) }
    ensures takes { IfSome result (λ made. (vec_len made.2 ≡ takes) × All (IsOf made.0) made.2.items) }
{
    match Inbox::new(alloc, capacity, puts, takes) {
        Ok(made) => Some(made),
        Err(AllocError) => match Inbox::new(alloc, capacity, puts, takes) {
            Ok(made) => Some(made),
            Err(AllocError) => None,
        },
    }
}

// Closes it, with what came back for want of memory. All comes back then.
fn close_again<R: Wait>(rt: &R, unclosed: Unclosed) -> Option<Vec<Completion>>
    requires puts { All (IsOf unclosed.inbox) unclosed.puts.items }
    requires takes { All (IsOf unclosed.inbox) unclosed.takes.items }
{
    let Unclosed {
        fault,
        inbox,
        puts,
        takes,
    } = unclosed;
    match inbox.close(rt, puts, takes) {
        Ok(left) if fault == CloseFault::OutOfMemory => Some(left),
        Ok(_) => None,
        Err(unclosed) => {
            unclosed.forfeit();
            None
        }
    }
}

// What is left. If memory is refused, all comes back, and the same call succeeds the second time.
fn close<R: Wait>(
    rt: &R,
    inbox: Inbox,
    puts: Vec<PutPass>,
    takes: Vec<TakePass>,
) -> Option<Vec<Completion>>
    requires puts { All (IsOf inbox) puts.items }
    requires takes { All (IsOf inbox) takes.items }
{
    match inbox.close(rt, puts, takes) {
        Ok(left) => Some(left),
        Err(unclosed) => close_again(rt, unclosed),
    }
}

// Puts with the first pass. Whether it is taken in; else it comes back as it was.
fn put<R: Wait>(rt: &R, inbox: &Inbox, puts: &mut Vec<PutPass>, number: u32) -> Option<bool>
    requires { (0 < vec_len puts.old) × All (IsOf inbox.now) puts.old.items }
    ensures { (vec_len puts.new ≡ vec_len puts.old) × All (IsOf inbox.now) puts.new.items }
{
    let completion = completion(number)?;
    match inbox.put(rt, &mut puts[0], completion) {
        Ok(()) => Some(true),
        Err(back) if back == completion => Some(false),
        Err(_) => None,
    }
}

// Takes with the first pass.
fn take<R: Wait>(rt: &R, inbox: &Inbox, takes: &mut Vec<TakePass>) -> Option<Completion>
    requires { (0 < vec_len takes.old) × All (IsOf inbox.now) takes.old.items }
    ensures { (vec_len takes.new ≡ vec_len takes.old) × All (IsOf inbox.now) takes.new.items }
{
    inbox.take(rt, &mut takes[0])
}

// Puts the numbers below this one. Whether all are taken in.
fn puts_below<R: Wait>(rt: &R, inbox: &Inbox, puts: &mut Vec<PutPass>, end: u32) -> bool
    requires { (0 < vec_len puts.old) × All (IsOf inbox.now) puts.old.items }
    ensures { (vec_len puts.new ≡ vec_len puts.old) × All (IsOf inbox.now) puts.new.items }
{
    let mut all = true;
    for number in 0..end {
        all = put(rt, inbox, puts, number) == Some(true) && all;
    }
    all
}

// Takes as many as are below this number. Whether these are they, in their order.
fn takes_below<R: Wait>(rt: &R, inbox: &Inbox, takes: &mut Vec<TakePass>, end: u32) -> bool
    requires { (0 < vec_len takes.old) × All (IsOf inbox.now) takes.old.items }
    ensures { (vec_len takes.new ≡ vec_len takes.old) × All (IsOf inbox.now) takes.new.items }
{
    let mut all = true;
    for number in 0..end {
        all = is_completion(take(rt, inbox, takes), number) && all;
    }
    all
}

// Whether that is the completion of that number.
fn is_completion(taken: Option<Completion>, number: u32) -> bool {
    match taken {
        Some(taken) => completion(number) == Some(taken),
        None => false,
    }
}

// Whether these are the completions of that number and of the next.
fn are_two(left: &[Completion], number: u32) -> bool {
    match left {
        [first, second] => {
            is_completion(Some(*first), number)
                && is_completion(Some(*second), number.wrapping_add(1))
        }
        _ => false,
    }
}

// The first take pass learns what the first put pass knows.
fn tell_of_puts(inbox: &Inbox, puts: &mut Vec<PutPass>, takes: &mut Vec<TakePass>)
    requires puts { (0 < vec_len puts.old) × All (IsOf inbox.now) puts.old.items }
    requires takes { (0 < vec_len takes.old) × All (IsOf inbox.now) takes.old.items }
    ensures puts { (vec_len puts.new ≡ vec_len puts.old) × All (IsOf inbox.now) puts.new.items }
    ensures takes { (vec_len takes.new ≡ vec_len takes.old) × All (IsOf inbox.now) takes.new.items }
{
    let receipt = puts[0].receipt(inbox);
    takes[0].learn(inbox, receipt);
}

// The first put pass learns what the first take pass knows.
fn tell_of_takes(inbox: &Inbox, puts: &mut Vec<PutPass>, takes: &mut Vec<TakePass>)
    requires puts { (0 < vec_len puts.old) × All (IsOf inbox.now) puts.old.items }
    requires takes { (0 < vec_len takes.old) × All (IsOf inbox.now) takes.old.items }
    ensures puts { (vec_len puts.new ≡ vec_len puts.old) × All (IsOf inbox.now) puts.new.items }
    ensures takes { (vec_len takes.new ≡ vec_len takes.old) × All (IsOf inbox.now) takes.new.items }
{
    let receipt = takes[0].receipt(inbox);
    puts[0].learn(inbox, receipt);
}

// How a pass puts and takes: as the inbox does, or by a wrong body.
trait Body {
    fn put<R: Wait>(
        rt: &R,
        inbox: &Inbox,
        pass: &mut PutPass,
        completion: Completion,
    ) -> Result<(), Completion>
        requires { IsOf inbox.now pass.old }
        ensures { IsOf inbox.now pass.new };

    fn take<R: Wait>(rt: &R, inbox: &Inbox, pass: &mut TakePass) -> Option<Completion>
        requires { IsOf inbox.now pass.old }
        ensures { IsOf inbox.now pass.new };
}

struct Inboxes;

impl Body for Inboxes {
    fn put<R: Wait>(
        rt: &R,
        inbox: &Inbox,
        pass: &mut PutPass,
        completion: Completion,
    ) -> Result<(), Completion> {
        inbox.put(rt, pass, completion)
    }

    fn take<R: Wait>(rt: &R, inbox: &Inbox, pass: &mut TakePass) -> Option<Completion> {
        inbox.take(rt, pass)
    }
}

struct NeverGives;

impl Body for NeverGives {
    fn put<R: Wait>(
        rt: &R,
        inbox: &Inbox,
        pass: &mut PutPass,
        completion: Completion,
    ) -> Result<(), Completion> {
        inbox.put(rt, pass, completion)
    }

    fn take<R: Wait>(_rt: &R, _inbox: &Inbox, _pass: &mut TakePass) -> Option<Completion> {
        None
    }
}

struct AlwaysRefuses;

impl Body for AlwaysRefuses {
    fn put<R: Wait>(
        _rt: &R,
        _inbox: &Inbox,
        _pass: &mut PutPass,
        completion: Completion,
    ) -> Result<(), Completion> {
        Err(completion)
    }

    fn take<R: Wait>(rt: &R, inbox: &Inbox, pass: &mut TakePass) -> Option<Completion> {
        inbox.take(rt, pass)
    }
}

// Whether a completion goes in and comes out, if each pass is told what the other did.
fn goes_through<B: Body, R: Wait>(
    rt: &R,
    inbox: &Inbox,
    puts: &mut Vec<PutPass>,
    takes: &mut Vec<TakePass>,
    number: u32,
) -> bool
    requires puts { (0 < vec_len puts.old) × All (IsOf inbox.now) puts.old.items }
    requires takes { (0 < vec_len takes.old) × All (IsOf inbox.now) takes.old.items }
    ensures puts { (vec_len puts.new ≡ vec_len puts.old) × All (IsOf inbox.now) puts.new.items }
    ensures takes { (vec_len takes.new ≡ vec_len takes.old) × All (IsOf inbox.now) takes.new.items }
{
    let Some(completion) = completion(number) else {
        return false;
    };
    let put = B::put(rt, inbox, &mut puts[0], completion);
    tell_of_puts(inbox, puts, takes);
    let taken = B::take(rt, inbox, &mut takes[0]);
    tell_of_takes(inbox, puts, takes);
    put.is_ok() && is_completion(taken, number)
}

// Whether two completions go through an inbox that has room for one, with so many passes of each kind.
fn serves<B: Body, R: Wait>(rt: &R, alloc: Global, passes: usize) -> Option<bool>
    requires { (1 ≤ passes) × (passes ≤ 64) }
{
    let (inbox, mut puts, mut takes) = open(alloc, 1, passes, passes)?;
    let first = goes_through::<B, R>(rt, &inbox, &mut puts, &mut takes, 0);
    let second = goes_through::<B, R>(rt, &inbox, &mut puts, &mut takes, 1);
    close(rt, inbox, puts, takes)?;
    Some(first && second)
}

// The same of bodies that never give, or never take in, with so many passes of each kind.
fn finds_out_with<R: Wait>(rt: &R, alloc: Global, passes: usize) -> Option<bool>
    requires { (1 ≤ passes) × (passes ≤ 64) }
{
    Some(
        serves::<Inboxes, R>(rt, alloc, passes)?
            && !serves::<NeverGives, R>(rt, alloc, passes)?
            && !serves::<AlwaysRefuses, R>(rt, alloc, passes)?,
    )
}

/// Bodies that never give, or never take in, are found out, with one pass of each kind and with four.
pub fn finds_out_wrong_bodies<R: Wait>(rt: &R, alloc: Global) -> Option<bool> {
    Some(finds_out_with(rt, alloc, 1)? && finds_out_with(rt, alloc, 4)?)
}

// An inbox of this capacity holds as many, in order, and no more.
fn holds<R: Wait>(rt: &R, alloc: Global, capacity: u32) -> Option<bool>
    requires { (1 ≤ capacity) × (capacity ≤ 256) }
{
    let (inbox, mut puts, mut takes) = open(alloc, capacity as usize, 1, 1)?;
    let full = puts_below(rt, &inbox, &mut puts, capacity)
        && put(rt, &inbox, &mut puts, capacity) == Some(false);
    let taken = takes_below(rt, &inbox, &mut takes, capacity);
    let empty = take(rt, &inbox, &mut takes).is_none();
    let left = close(rt, inbox, puts, takes)?;
    Some(full && taken && empty && left.is_empty())
}

/// The least inbox holds as many as its capacity, in order, and so does the largest.
pub fn holds_its_capacity<R: Wait>(rt: &R, alloc: Global) -> Option<bool> {
    Some(holds(rt, alloc, 1)? && holds(rt, alloc, 256)?)
}

/// It gives back what is left, in order.
pub fn gives_back_what_is_left<R: Wait>(rt: &R, alloc: Global) -> Option<bool> {
    let (inbox, mut puts, mut takes) = open(alloc, 4, 2, 3)?;
    let put = puts_below(rt, &inbox, &mut puts, 4);
    let taken = takes_below(rt, &inbox, &mut takes, 2);
    let left = close(rt, inbox, puts, takes)?;
    Some(put && taken && are_two(&left, 2))
}

// The last pass.
fn last_of(inbox: &Inbox, puts: &mut Vec<PutPass>) -> PutPass
    requires { (0 < vec_len puts.old) × All (IsOf inbox.now) puts.old.items }
    ensures pass { IsOf inbox.now result }
    ensures others { All (IsOf inbox.now) puts.new.items }
{
    match puts.pop() {
        Some(pass) => pass,
        None => unreachable!(),
    }
}

// Puts a pass after the others. It is forfeited if memory is refused, and the inbox is not closed then.
fn put_back(inbox: &Inbox, puts: &mut Vec<PutPass>, pass: PutPass)
    requires pass { IsOf inbox.now pass }
    requires puts { All (IsOf inbox.now) puts.old.items }
    ensures { All (IsOf inbox.now) puts.new.items }
{
    match puts.push(pass) {
        Ok(()) => {}
        Err(failed) => failed.value.forfeit(),
    }
}

// What comes back, as the inbox is not closed.
fn unclosed<R: Wait>(
    rt: &R,
    inbox: Inbox,
    puts: Vec<PutPass>,
    takes: Vec<TakePass>,
) -> Option<Unclosed>
    requires puts { All (IsOf inbox) puts.items }
    requires takes { All (IsOf inbox) takes.items }
    ensures inbox { IfSome result (λ back. back.inbox ≡ inbox) }
    ensures puts { IfSome result (λ back. back.puts.items ≡ puts.items) }
    ensures takes { IfSome result (λ back. back.takes.items ≡ takes.items) }
{
    match inbox.close(rt, puts, takes) {
        Ok(_) => None,
        Err(unclosed) => Some(unclosed),
    }
}

// Whether what came back are all passes but this one, and the inbox is closed with it.
fn closes_with<R: Wait>(rt: &R, unclosed: Unclosed, kept: PutPass) -> Option<bool>
    requires pass { IsOf unclosed.inbox kept }
    requires puts { All (IsOf unclosed.inbox) unclosed.puts.items }
    requires takes { All (IsOf unclosed.inbox) unclosed.takes.items }
{
    let Unclosed {
        fault,
        inbox,
        mut puts,
        takes,
    } = unclosed;
    let refused = fault == CloseFault::PassMissing && puts.len() == 1 && takes.len() == 1;
    put_back(&inbox, &mut puts, kept);
    let left = close(rt, inbox, puts, takes)?;
    Some(refused && are_two(&left, 0))
}

// The inbox is not closed without this pass, and is with it.
fn closes_at_last<R: Wait>(
    rt: &R,
    inbox: Inbox,
    puts: Vec<PutPass>,
    takes: Vec<TakePass>,
    kept: PutPass,
) -> Option<bool>
    requires pass { IsOf inbox kept }
    requires puts { All (IsOf inbox) puts.items }
    requires takes { All (IsOf inbox) takes.items }
{
    match unclosed(rt, inbox, puts, takes) {
        Some(unclosed) => closes_with(rt, unclosed, kept),
        None => {
            kept.forfeit();
            None
        }
    }
}

/// It is not closed without a pass: L2.
pub fn refuses_to_close_without_a_pass<R: Wait>(rt: &R, alloc: Global) -> Option<bool> {
    let (inbox, mut puts, takes) = open(alloc, 4, 2, 1)?;
    let put = puts_below(rt, &inbox, &mut puts, 2);
    let kept = last_of(&inbox, &mut puts);
    Some(closes_at_last(rt, inbox, puts, takes, kept)? && put)
}

// What is said of that fault. If memory is refused, the same call succeeds the second time.
fn says(alloc: Global, fault: CloseFault, text: &str) -> Result<bool, AllocError> {
    let said = match format!(in alloc; "{fault}") {
        Ok(said) => said,
        Err(AllocError) => format!(in alloc; "{fault}")?,
    };
    Ok(said.as_str() == text)
}

/// Why it was not closed.
pub fn says_why(alloc: Global) -> Option<bool> {
    let missing = says(
        alloc,
        CloseFault::PassMissing,
        "L2: a pass of the inbox is missing",
    );
    let memory = says(alloc, CloseFault::OutOfMemory, "out of memory");
    Some(missing.ok()? && memory.ok()?)
}
