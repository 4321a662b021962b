// What may be against a part of a line. It relies on `trace_lines` for the kinds of fields.

use trace_lines::Kind;

/// What is against a part of a line.
#[derive(Clone, Copy)]
pub enum Slip {
    /// A byte order mark stands before the line.
    Mark,
    /// The line ends with a carriage return, and without it is of the form.
    Return,
    /// It begins with blanks; what follows them is a comment, or nothing.
    Indented,
    IndentedComment,
    OnlyBlanks,
    /// It is empty or a comment, which a trace does not have.
    Skipped,
    /// Two blanks or more, a blank at the end, a tab, another blank, or a character that is not shown.
    Doubled,
    Trailing,
    Tab,
    OtherBlank,
    Hidden,
    /// A comment after something else, or one that begins with another sign.
    Comment,
    OtherComment,
    /// The first word begins no line; it is the one that is advised in other letters, or near it.
    NoWord,
    Capitals,
    Near,
    /// The line is a trace's first one or its last one, which a scenario does not have.
    Header,
    LastLine,
    /// It is one that a scenario does not have, or a trace.
    OfRuns,
    OfLive,
    Drains,
    /// A field is missing, or words follow the last one.
    Missing,
    TooMany,
    /// An answer stands in a scenario.
    Answered,
    /// Of a number: digits of base 16, a sign, a zero in front, a character that is no digit, or out of its range.
    Base16,
    Signed,
    LeadingZero,
    NoDigit,
    OutOfRange,
    /// Of bytes: capitals, `0x`, one digit of a pair, a character that is no digit, or another count of digits.
    CapitalDigits,
    Prefix,
    HalfByte,
    NoByteDigit,
    NotTwoDigits,
    OddDigits,
    TooManyBytes,
    PartedBytes,
    /// Of a status: that of a CCB in progress, one that has flags, or none.
    InProgress,
    Flags,
    NoStatus,
    /// Of where a run stopped: no stop, no helper, nothing of what is told of its call, or a code that is too great.
    NoStop,
    NoHelper,
    Untold,
    NoCode,
    /// Of an answer: no ` = ` before it, none at all, a refusal of other lines, or none of the form.
    NoEquals,
    NoAnswer,
    OtherRefusal,
    OtherAnswer,
    /// The line is one of version 2, in a trace of version 1; one of version 3, in a trace of a lower version; or one of the lower versions, in
    /// a trace of version 3.
    SecondVersion,
    ThirdVersion,
    LowerVersion,
    /// A class stands in a scenario over a manifest whose CCBs have none.
    Classed,
    /// Of a trace's end: the line feed is missing, a part of the line is, the last line is, or something follows it.
    NoFeed,
    CutOff,
    NoEnd,
    AfterEnd,
    /// Of what was carried over: the line is no carried line, or may not stand there.
    Carried,
    /// Of a trace's first line: it is another one, or of no version.
    NoHeader,
    NoVersion,
    /// Nothing that is known here.
    Other,
}

/// How a slip is mended, if more is known of that than the slip says.
#[derive(Clone, Copy)]
pub enum Advice {
    Usual,
    /// By this word, by this byte, or by this number.
    Word(&'static str),
    Byte(u8),
    Number(u64),
    /// By leaving out all of the marked part but what begins at that byte of it.
    From(usize),
}

/// A field of a line, by its place from 0.
#[derive(Clone, Copy)]
pub struct Field {
    pub place: usize,
    pub kind: Kind,
}

/// What is against a part of a line, from one byte to another, and the field that it is about.
#[derive(Clone, Copy)]
pub struct Found {
    pub slip: Slip,
    pub start: usize,
    pub end: usize,
    pub field: Option<Field>,
    pub advice: Advice,
}

impl Found {
    /// That slip, of no field.
    pub fn of(slip: Slip, start: usize, end: usize) -> Self {
        Found {
            slip,
            start,
            end,
            field: None,
            advice: Advice::Usual,
        }
    }

    /// The same with an advice.
    pub fn advised(slip: Slip, start: usize, end: usize, advice: Advice) -> Self {
        Found {
            slip,
            start,
            end,
            field: None,
            advice,
        }
    }

    /// The same so many bytes later.
    pub fn shifted(self, by: usize) -> Self {
        Found {
            slip: self.slip,
            start: self.start.saturating_add(by),
            end: self.end.saturating_add(by),
            field: self.field,
            advice: self.advice,
        }
    }

    /// The same, of that field.
    pub fn about(self, field: Field) -> Self {
        Found {
            slip: self.slip,
            start: self.start,
            end: self.end,
            field: Some(field),
            advice: self.advice,
        }
    }
}
