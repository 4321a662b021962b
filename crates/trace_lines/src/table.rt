// The table of the lines, a row each. Whoever prints or reads lines goes by its columns. It relies on `kind` for how fields are
// spelled, and on `world_calls` for refusals.

ghost use Rattle.std.specs.Prelude.{◌≡◌};
ghost use Rattle.trace_lines.specs.Rows.{is_named, may_be, row_of, word_named};

use crate::kind::{Kind, Slots};
use crate::word::Word;
use world_calls::CallRefusal;

/// How a line is answered where it is not refused.
#[derive(Clone, Copy)]
pub enum Form {
    /// `ccb C`: the number of a CCB.
    Ccb,
    /// `ccb C`, or `ccb C advice W`: the number of a CCB, and what is advised at its start.
    Start,
    /// `done`, or `run R freeze F`.
    Completed,
    /// `freeze F`: the number of a freeze.
    Freeze,
    /// How many freezes are left.
    Left,
    /// How many freezes went.
    Went,
    /// `ok`.
    Ok,
    /// What R0 is, which no call answers.
    R0,
}

/// All that there is to know of a line's spelling.
#[derive(Clone, Copy)]
pub struct Row {
    pub word: Word,
    pub fields: Slots<Kind>,
    pub form: Form,
}

/// The lines, in the order of their words. The comment of a row names its fields and answers for people.
pub const LINES: [Row; 11] = [
    // submit Q PRIORITY RETRIES [CLASS] = ccb C
    Row {
        word: Word::Submit,
        fields: Slots {
            first: Some(Kind::Number),
            second: Some(Kind::Number),
            third: Some(Kind::Number),
            fourth: Some(Kind::Class),
        },
        form: Form::Ccb,
    },
    // dispatch Q = ccb C, or ccb C advice W
    Row {
        word: Word::Dispatch,
        fields: Slots {
            first: Some(Kind::Number),
            second: None,
            third: None,
            fourth: None,
        },
        form: Form::Start,
    },
    // complete C STATUS SCSI SENSE = done, or run R freeze F
    Row {
        word: Word::Complete,
        fields: Slots {
            first: Some(Kind::Number),
            second: Some(Kind::Status),
            third: Some(Kind::Byte),
            fourth: Some(Kind::Sense),
        },
        form: Form::Completed,
    },
    // withdraw C = ok
    Row {
        word: Word::Withdraw,
        fields: Slots {
            first: Some(Kind::Number),
            second: None,
            third: None,
            fourth: None,
        },
        form: Form::Ok,
    },
    // advance R N STOP = R0
    Row {
        word: Word::Advance,
        fields: Slots {
            first: Some(Kind::Number),
            second: Some(Kind::Instructions),
            third: Some(Kind::Stop),
            fourth: None,
        },
        form: Form::R0,
    },
    // gfreeze Q G = freeze F
    Row {
        word: Word::FreezeQueue,
        fields: Slots {
            first: Some(Kind::Number),
            second: Some(Kind::Number),
            third: None,
            fourth: None,
        },
        form: Form::Freeze,
    },
    // cfreeze C G = freeze F
    Row {
        word: Word::FreezeController,
        fields: Slots {
            first: Some(Kind::Number),
            second: Some(Kind::Number),
            third: None,
            fourth: None,
        },
        form: Form::Freeze,
    },
    // grelease F = LEFT
    Row {
        word: Word::ReleaseFreeze,
        fields: Slots {
            first: Some(Kind::Number),
            second: None,
            third: None,
            fourth: None,
        },
        form: Form::Left,
    },
    // clock T = WENT
    Row {
        word: Word::Clock,
        fields: Slots {
            first: Some(Kind::LongNumber),
            second: None,
            third: None,
            fourth: None,
        },
        form: Form::Went,
    },
    // park R = ok
    Row {
        word: Word::Park,
        fields: Slots {
            first: Some(Kind::Number),
            second: None,
            third: None,
            fourth: None,
        },
        form: Form::Ok,
    },
    // resume R = ok
    Row {
        word: Word::Resume,
        fields: Slots {
            first: Some(Kind::Number),
            second: None,
            third: None,
            fourth: None,
        },
        form: Form::Ok,
    },
];

impl Word {
    /// The word's row.
    #[tactic(auto, unfolding(crate::specs::Rows::row_of))]
    pub fn row(self) -> Row
        ensures { result ≡ row_of self }
    {
        LINES[self as usize]
    }

    /// The word that is spelled so.
    #[tactic(auto, unfolding(crate::specs::Rows::word_named))]
    pub fn named(name: &str) -> Option<Self>
        ensures { result ≡ word_named name.now }
    {
        LINES
            .iter()
            .find(|row| row.is_named(name))
            .map(|row| row.word)
    }
}

impl Row {
    fn is_named(&self, name: &str) -> bool
        ensures { result ≡ is_named name.now self.now }
    {
        self.word.text() == name
    }

    /// Whether the line may be refused so.
    pub fn may_be(&self, refusal: CallRefusal) -> bool
        ensures { result ≡ may_be self.now refusal }
    {
        let calls = refusal.row().calls;
        match self.word {
            Word::Submit => calls.submit,
            Word::Dispatch => calls.dispatch,
            Word::Complete => calls.complete,
            Word::Withdraw => calls.withdraw,
            Word::FreezeQueue | Word::FreezeController => calls.freeze,
            Word::Clock => calls.clock,
            Word::Resume => calls.resume,
            Word::Advance | Word::ReleaseFreeze | Word::Park => false,
        }
    }
}
