// Calls as lines: the word of each, and what its fields hold, there and back. It relies on `world_calls`.

ghost use Rattle.std.specs.Prelude.{◌≡◌, ◌≢◌, ◌≤◌, IfOk, List, length, ℕ};
ghost use Rattle.ccb.specs.Completion.{Outcome};
ghost use Rattle.trace_lines.specs.Calls.{call_of, completed, number_of, one, outcome_of, submitted, two, values_of, word_of};
ghost use Rattle.trace_lines.specs.Lines.{line_text};

use crate::kind::Slots;
use crate::value::{Value, byte_in, bytes_in, long_number_at, number_at, number_in, status_in};
use crate::word::Word;
use base::ShortBytes;
use ccb::{CamStatus, CcbId, Completion, Place, QueueId};
use std::alloc::{AllocError, Global};
use world_calls::{Call, CompletionRecord};

/// The word of a call.
pub fn word_of(call: &Call) -> Word
    ensures { result ≡ word_of call.now }
{
    match call {
        Call::Submit { .. } => Word::Submit,
        Call::Dispatch { .. } => Word::Dispatch,
        Call::Complete { .. } => Word::Complete,
        Call::Withdraw { .. } => Word::Withdraw,
        Call::GuestFreeze { place, .. } => match place {
            Place::Device(_) => Word::FreezeQueue,
            Place::Controller(_) => Word::FreezeController,
        },
        Call::GuestRelease { .. } => Word::ReleaseFreeze,
        Call::Clock { .. } => Word::Clock,
        Call::Park { .. } => Word::Park,
        Call::Resume { .. } => Word::Resume,
    }
}

/// What the fields of a call hold.
pub fn values_of(call: &Call) -> Slots<Value>
    ensures { result ≡ values_of call.now }
{
    match call {
        Call::Submit {
            queue,
            priority,
            retries,
            class,
        } => submitted(*queue, *priority, *retries, *class),
        Call::Dispatch { queue } => one(Value::Number(queue.0)),
        Call::Complete { completion } => completed(completion),
        Call::Withdraw { ccb } => one(Value::Number(ccb.0)),
        Call::GuestFreeze { place, guest } => match place {
            Place::Device(queue) => two(Value::Number(queue.0), Value::Number(*guest)),
            Place::Controller(controller) => {
                two(Value::Number(*controller), Value::Number(*guest))
            }
        },
        Call::GuestRelease { freeze } => one(Value::Number(*freeze)),
        Call::Clock { reading } => one(Value::LongNumber(*reading)),
        Call::Park { run } | Call::Resume { run } => one(Value::Number(*run)),
    }
}

fn submitted(queue: QueueId, priority: u32, retries: u32, class: Option<u32>) -> Slots<Value>
    ensures { result ≡ submitted queue priority retries class }
{
    Slots {
        first: Some(Value::Number(queue.0)),
        second: Some(Value::Number(priority)),
        third: Some(Value::Number(retries)),
        fourth: number_of(class),
    }
}

fn number_of(number: Option<u32>) -> Option<Value>
    ensures { result ≡ number_of number }
{
    match number {
        Some(number) => Some(Value::Number(number)),
        None => None,
    }
}

fn completed(completion: &CompletionRecord) -> Slots<Value>
    ensures { result ≡ completed completion.now }
{
    Slots {
        first: Some(Value::Number(completion.ccb().0)),
        second: Some(Value::Status(completion.status())),
        third: Some(Value::Byte(completion.scsi())),
        fourth: Some(Value::Bytes(completion.sense())),
    }
}

fn one(first: Value) -> Slots<Value>
    ensures { result ≡ one first }
{
    Slots {
        first: Some(first),
        second: None,
        third: None,
        fourth: None,
    }
}

fn two(first: Value, second: Value) -> Slots<Value>
    ensures { result ≡ two first second }
{
    Slots {
        first: Some(first),
        second: Some(second),
        third: None,
        fourth: None,
    }
}

/// The call of that word and of what the fields of its line hold. None of a run that went on, which is no call. It takes memory for
/// sense bytes alone.
pub fn call_of(alloc: Global, word: Word, held: &Slots<Value>) -> Result<Option<Call>, AllocError>
    ensures { (text : List ℕ) → line_text word held.now ≡ Some text → IfOk result (λ call. call ≡ call_of word held.now) }
{
    match word {
        Word::Complete => complete_of(alloc, held),
        _ => Ok(plain_call_of(word, held)),
    }
}

// The call that brings no completion.
fn plain_call_of(word: Word, held: &Slots<Value>) -> Option<Call>
    requires { word ≢ Word.Complete }
    ensures { result ≡ call_of word held.now }
{
    match word {
        Word::Submit => Some(Call::Submit {
            queue: QueueId(number_at(held.first)),
            priority: number_at(held.second),
            retries: number_at(held.third),
            class: number_in(held.fourth),
        }),
        Word::Dispatch => Some(Call::Dispatch {
            queue: QueueId(number_at(held.first)),
        }),
        Word::Withdraw => Some(Call::Withdraw {
            ccb: CcbId(number_at(held.first)),
        }),
        Word::FreezeQueue => Some(Call::GuestFreeze {
            place: Place::Device(QueueId(number_at(held.first))),
            guest: number_at(held.second),
        }),
        Word::FreezeController => Some(Call::GuestFreeze {
            place: Place::Controller(number_at(held.first)),
            guest: number_at(held.second),
        }),
        Word::ReleaseFreeze => Some(Call::GuestRelease {
            freeze: number_at(held.first),
        }),
        Word::Clock => Some(Call::Clock {
            reading: long_number_at(held.first),
        }),
        Word::Park => Some(Call::Park {
            run: number_at(held.first),
        }),
        Word::Resume => Some(Call::Resume {
            run: number_at(held.first),
        }),
        Word::Advance => None,
        Word::Complete => unreachable!(),
    }
}

// The call that brings a completion.
fn complete_of(alloc: Global, held: &Slots<Value>) -> Result<Option<Call>, AllocError>
    ensures { (outcome_of held.now).status ≢ CamStatus.RequestInProgress → IfOk result (λ call. call ≡ Some (Call.Complete (outcome_of held.now))) }
{
    let sense = bytes_in(held.fourth).unwrap_or(ShortBytes::none());
    reported(
        alloc,
        CcbId(number_at(held.first)),
        status_in(held.second).unwrap_or(CamStatus::RequestInProgress),
        byte_in(held.third).unwrap_or(0),
        sense.as_slice(),
    )
}

// The call by which this is reported: never that the CCB is still in progress.
fn reported(
    alloc: Global,
    ccb: CcbId,
    status: CamStatus,
    scsi: u8,
    sense: &[u8],
) -> Result<Option<Call>, AllocError>
    requires { length sense.now ≤ 64 }
    ensures { let outcome : Outcome = record { ccb = ccb; status = status; scsi = scsi; sense = sense.now }
        in status ≢ CamStatus.RequestInProgress → IfOk result (λ call. call ≡ Some (Call.Complete outcome)) }
{
    let Some(completion) = Completion::new(ccb, status, scsi, sense) else {
        return Ok(None);
    };
    let completion = CompletionRecord::new(alloc, &completion)?;
    Ok(Some(Call::Complete { completion }))
}
