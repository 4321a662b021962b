// Why a call is refused: the refusals, a row each. Whoever prints, reads, counts or explains refusals goes by its columns. It relies
// on no other crate.

ghost use Rattle.std.specs.Prelude.{◌≡◌, bytes_eq};
ghost use Rattle.ccb.specs.CallRefusalText.{call_refusal_text, refusal_coded, refusal_text, row_of};

use std::fmt;

/// Why a call was refused. A refusal changes nothing but the history. The text is the refusal's code.
#[derive(Clone, Copy, Debug, PartialEq, Eq)]
pub enum CallRefusal {
    /// There is no such queue or controller, no such CCB, or no such run that is parked.
    Unknown,
    /// A limit is reached.
    Limit,
    /// The CCB is not active.
    NotActive,
    /// The clock would go back.
    GoesBack,
    /// The queue is frozen.
    Frozen,
    /// As many CCBs of the queue are active as it has openings.
    NoOpening,
    /// No CCB of the queue waits.
    NothingWaits,
    /// The controller is frozen that the queue is under.
    ControllerFrozen,
}

/// Which calls may be refused so.
#[derive(Clone, Copy)]
pub struct RefusedCalls {
    pub submit: bool,
    pub dispatch: bool,
    pub complete: bool,
    pub withdraw: bool,
    /// A guest's freeze of a queue or of a controller.
    pub freeze: bool,
    pub clock: bool,
    pub resume: bool,
}

/// All that there is to know of a refusal, but for its texts.
#[derive(Clone, Copy)]
pub struct RefusalRow {
    pub refusal: CallRefusal,
    /// Its code is this letter and this digit.
    pub letter: u8,
    pub digit: u8,
    /// Its number as a result of a call from C.
    pub number: u8,
    /// The first version of histories that has it.
    pub since: u8,
    pub calls: RefusedCalls,
}

/// The refusals, in the order of their names.
pub const REFUSALS: [RefusalRow; 8] = [
    RefusalRow {
        refusal: CallRefusal::Unknown,
        letter: b'C',
        digit: b'1',
        number: 2,
        since: 1,
        calls: RefusedCalls {
            submit: true,
            dispatch: true,
            complete: true,
            withdraw: true,
            freeze: true,
            clock: false,
            resume: true,
        },
    },
    RefusalRow {
        refusal: CallRefusal::Limit,
        letter: b'C',
        digit: b'2',
        number: 3,
        since: 1,
        calls: RefusedCalls {
            submit: true,
            dispatch: false,
            complete: true,
            withdraw: false,
            freeze: true,
            clock: true,
            resume: false,
        },
    },
    RefusalRow {
        refusal: CallRefusal::NotActive,
        letter: b'C',
        digit: b'3',
        number: 4,
        since: 1,
        calls: RefusedCalls {
            submit: false,
            dispatch: false,
            complete: true,
            withdraw: true,
            freeze: false,
            clock: false,
            resume: false,
        },
    },
    RefusalRow {
        refusal: CallRefusal::GoesBack,
        letter: b'C',
        digit: b'5',
        number: 5,
        since: 1,
        calls: RefusedCalls {
            submit: false,
            dispatch: false,
            complete: false,
            withdraw: false,
            freeze: false,
            clock: true,
            resume: false,
        },
    },
    RefusalRow {
        refusal: CallRefusal::Frozen,
        letter: b'Q',
        digit: b'2',
        number: 6,
        since: 1,
        calls: RefusedCalls {
            submit: false,
            dispatch: true,
            complete: false,
            withdraw: false,
            freeze: false,
            clock: false,
            resume: false,
        },
    },
    RefusalRow {
        refusal: CallRefusal::NoOpening,
        letter: b'Q',
        digit: b'3',
        number: 7,
        since: 1,
        calls: RefusedCalls {
            submit: false,
            dispatch: true,
            complete: false,
            withdraw: false,
            freeze: false,
            clock: false,
            resume: false,
        },
    },
    RefusalRow {
        refusal: CallRefusal::NothingWaits,
        letter: b'Q',
        digit: b'4',
        number: 8,
        since: 1,
        calls: RefusedCalls {
            submit: false,
            dispatch: true,
            complete: false,
            withdraw: false,
            freeze: false,
            clock: false,
            resume: false,
        },
    },
    RefusalRow {
        refusal: CallRefusal::ControllerFrozen,
        letter: b'Q',
        digit: b'5',
        number: 9,
        since: 2,
        calls: RefusedCalls {
            submit: false,
            dispatch: true,
            complete: false,
            withdraw: false,
            freeze: false,
            clock: false,
            resume: false,
        },
    },
];

/// What stands in the way of a call, in a few words of what the call is about, in the order of the refusals.
const CAUSES: [&str; 8] = [
    "there is none of that number",
    "a limit is reached",
    "it is not active",
    "the clock would go back",
    "the queue is frozen",
    "no opening is free",
    "none waits",
    "the controller is frozen",
];

impl CallRefusal {
    /// Its row.
    #[tactic(auto, unfolding(crate::specs::CallRefusalText::row_of))]
    pub fn row(self) -> RefusalRow
        ensures { result ≡ row_of self }
    {
        REFUSALS[self as usize]
    }

    /// Its text for a host: its code, and what stands in the way.
    pub fn text(self) -> &'static str
        ensures { result.now ≡ refusal_text self }
    {
        match self {
            CallRefusal::Unknown => "C1: no such queue, controller, CCB or parked run",
            CallRefusal::Limit => "C2: a limit is reached",
            CallRefusal::NotActive => "C3: the CCB is not active",
            CallRefusal::GoesBack => "C5: the clock would go back",
            CallRefusal::Frozen => "Q2: the queue is frozen",
            CallRefusal::NoOpening => "Q3: the queue has no opening",
            CallRefusal::NothingWaits => "Q4: no CCB of the queue waits",
            CallRefusal::ControllerFrozen => "Q5: the queue's controller is frozen",
        }
    }

    /// What stands in the way, in a few words, of what the call is about.
    pub fn cause(self) -> &'static str {
        CAUSES[self as usize]
    }

    fn is_coded(self, text: &str) -> bool
        ensures { result ≡ bytes_eq (call_refusal_text self) text.now }
    {
        let row = self.row();
        [row.letter, row.digit].as_slice() == text.as_bytes()
    }

    /// The refusal of that code.
    #[tactic(auto, unfolding(crate::specs::CallRefusalText::refusal_coded))]
    pub fn coded(text: &str) -> Option<Self>
        ensures { result ≡ refusal_coded text.now }
    {
        REFUSALS
            .iter()
            .find(|row| row.refusal.is_coded(text))
            .map(|row| row.refusal)
    }
}

impl fmt::Display for CallRefusal {
    ghost use Rattle.std.specs.Prelude.{Some};
    ghost use Rattle.ccb.specs.CallRefusalText.{call_refusal_text};

    ghost output = { λ refusal. Some (call_refusal_text refusal) };

    fn fmt<W: fmt::Write>(&self, f: &mut fmt::Formatter<W>) -> fmt::Result {
        let row = self.row();
        f.write_char(char::from(row.letter))?;
        f.write_char(char::from(row.digit))
    }
}
