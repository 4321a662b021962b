// What a call answers a host, as one of few values, each with a number and a text that stay. It relies on `ccb` for the
// refusals, and on `engine_core` for why a call is not carried out.

ghost use Rattle.std.specs.Prelude.{◌≡◌, ◌==◌, ◌<◌, ◌≤◌, MatchOption};
ghost use Rattle.host_embedding.specs.Results.{number_of, number_of_refusal, refusal_numbered, result_of, released_result, advanced_result, text_of};

use ccb::{CallRefusal, REFUSALS};
use engine_core::{AdvanceFault, CallFault, ReleaseFault};

/// How many results there are.
pub const RESULTS: u32 = 25;

/// What a call answers.
#[derive(Clone, Copy, Debug, PartialEq, Eq)]
pub enum CallResult {
    /// The call was carried out.
    Done,
    /// Memory was refused. Nothing changed, but what a drive did before.
    OutOfMemory,
    /// The call was refused, and that is recorded.
    Refused(CallRefusal),
    /// C4: the run is not out in this engine. Nothing changed.
    NotOut,
    /// C6: no guest's freeze is the token's. No handle tells it: where there is no such freeze it keeps no token.
    NotHeld,
    /// No token of that number is held here. Nothing changed.
    NoToken,
    /// No device reports such a completion. Nothing changed.
    NoCompletion,
    /// The run has ended or is parked. Nothing changed.
    Spent,
    /// The run was not taken to its next stop. Nothing changed.
    NotStretched,
    /// The manifest, or the text of a trace, is not UTF-8.
    NotUtf8,
    /// The manifest, or the text of a trace, is faulty: the fault's text says how.
    Faulty,
    /// Not one line more finds room.
    NoRoom,
    /// A record has no text: none of an engine's history is such.
    NoText,
    /// A pointer is null, which whoever calls from C tells itself.
    Null,
    /// A length is greater than any object's, which whoever calls from C tells itself.
    TooLong,
    /// The record was handed on, and is kept no more. Nothing changed.
    Taken,
    /// A run is live, so that no engine can follow. Nothing changed.
    RunsLive,
    /// A live CCB or a freeze is of a queue or a controller that the new manifest does not have. Nothing changed.
    DoesNotFit,
}

// Whether the refusal's row has that number.
fn has_number(refusal: CallRefusal, number: u32) -> bool
    ensures { result ≡ (number_of_refusal refusal == number) }
{
    u32::from(refusal.row().number) == number
}

// The refusal whose row has that number.
#[tactic(auto, unfolding(crate::specs::Results::refusal_numbered))]
fn refusal_numbered(number: u32) -> Option<CallRefusal>
    ensures { result ≡ refusal_numbered number }
{
    REFUSALS
        .iter()
        .find(|row| has_number(row.refusal, number))
        .map(|row| row.refusal)
}

impl CallResult {
    /// Its number, from 0.
    pub fn number(self) -> u32
        ensures number { result ≡ number_of self }
        ensures few { result < RESULTS }
    {
        match self {
            CallResult::Done => 0,
            CallResult::OutOfMemory => 1,
            CallResult::Refused(refusal) => u32::from(refusal.row().number),
            CallResult::NotOut => 10,
            CallResult::NotHeld => 11,
            CallResult::NoToken => 12,
            CallResult::NoCompletion => 13,
            CallResult::Spent => 14,
            CallResult::NotStretched => 15,
            CallResult::NotUtf8 => 16,
            CallResult::Faulty => 17,
            CallResult::NoRoom => 18,
            CallResult::NoText => 19,
            CallResult::Null => 20,
            CallResult::TooLong => 21,
            CallResult::Taken => 22,
            CallResult::RunsLive => 23,
            CallResult::DoesNotFit => 24,
        }
    }

    /// The result of that number.
    pub fn numbered(number: u32) -> Option<Self>
        ensures { MatchOption result (RESULTS ≤ number) (λ its. number_of its ≡ number) }
    {
        Some(match number {
            0 => CallResult::Done,
            1 => CallResult::OutOfMemory,
            10 => CallResult::NotOut,
            11 => CallResult::NotHeld,
            12 => CallResult::NoToken,
            13 => CallResult::NoCompletion,
            14 => CallResult::Spent,
            15 => CallResult::NotStretched,
            16 => CallResult::NotUtf8,
            17 => CallResult::Faulty,
            18 => CallResult::NoRoom,
            19 => CallResult::NoText,
            20 => CallResult::Null,
            21 => CallResult::TooLong,
            22 => CallResult::Taken,
            23 => CallResult::RunsLive,
            24 => CallResult::DoesNotFit,
            _ => match refusal_numbered(number) {
                Some(refusal) => CallResult::Refused(refusal),
                None => return None,
            },
        })
    }

    /// Its text, one line without a line feed. A refusal's begins with its code.
    pub fn text(self) -> &'static str
        ensures { result.now ≡ text_of self }
    {
        match self {
            CallResult::Done => "done",
            CallResult::OutOfMemory => "memory was refused",
            CallResult::Refused(refusal) => refusal.text(),
            CallResult::NotOut => "C4: the run is not out in this engine",
            CallResult::NotHeld => "C6: no guest's freeze is the token's",
            CallResult::NoToken => "no token of that number is held here",
            CallResult::NoCompletion => "no device reports such a completion",
            CallResult::Spent => "the run has ended or is parked",
            CallResult::NotStretched => "the run was not taken to its next stop",
            CallResult::NotUtf8 => "the manifest is not UTF-8",
            CallResult::Faulty => "the manifest is faulty",
            CallResult::NoRoom => "not one line more finds room",
            CallResult::NoText => "a record has no text",
            CallResult::Null => "a pointer is null",
            CallResult::TooLong => "a length is greater than any object's",
            CallResult::Taken => "the record was taken before",
            CallResult::RunsLive => "a run is live",
            CallResult::DoesNotFit => "the manifest does not fit what is held",
        }
    }

    /// Why a call was not carried out.
    pub(crate) fn of(fault: CallFault) -> Self
        ensures { result ≡ result_of fault }
    {
        match fault {
            CallFault::OutOfMemory => CallResult::OutOfMemory,
            CallFault::Refused(refusal) => CallResult::Refused(refusal),
        }
    }

    /// Why a freeze was not given back.
    pub(crate) fn released(fault: ReleaseFault) -> Self
        ensures { result ≡ released_result fault }
    {
        match fault {
            ReleaseFault::OutOfMemory => CallResult::OutOfMemory,
            ReleaseFault::NotHeld => CallResult::NotHeld,
        }
    }

    /// Why an advance was not carried out.
    pub(crate) fn advanced(fault: AdvanceFault) -> Self
        ensures { result ≡ advanced_result fault }
    {
        match fault {
            AdvanceFault::OutOfMemory => CallResult::OutOfMemory,
            AdvanceFault::NotOut => CallResult::NotOut,
        }
    }
}
