// The kinds of fields that a line may have, and up to four things in a row. It relies on nothing.

ghost use Rattle.std.specs.Prelude.{◌≡◌};
ghost use Rattle.trace_lines.specs.Lines.{may_lack};

/// How a field is spelled.
#[derive(Clone, Copy)]
pub enum Kind {
    /// A number below 2^32: of a queue, a CCB, a run, a freeze or a guest, a priority, or how many retries.
    Number,
    /// A number below 2^64.
    LongNumber,
    /// How many instructions: 1 to 65,536.
    Instructions,
    /// What a device reports, as its code in two digits: never that a CCB is still in progress.
    Status,
    /// Any byte, as two digits.
    Byte,
    /// From 1 to 64 bytes, each two digits, or `-` for none.
    Sense,
    /// Where a run stopped: `exit`, or `helper` with its number and what is told of that call.
    Stop,
    /// A number below 2^32 that may be left out: the class of a command. It is the last of its line's fields.
    Class,
}

impl Kind {
    /// Whether a line may end before a field of this kind.
    pub(crate) fn may_lack(self) -> bool
        ensures { result ≡ may_lack self }
    {
        match self {
            Kind::Class => true,
            Kind::Number
            | Kind::LongNumber
            | Kind::Instructions
            | Kind::Status
            | Kind::Byte
            | Kind::Sense
            | Kind::Stop => false,
        }
    }
}

/// Up to four things, one after the other: a line's fields, or what they hold.
#[derive(Clone, Copy)]
pub struct Slots<T> {
    pub first: Option<T>,
    pub second: Option<T>,
    pub third: Option<T>,
    pub fourth: Option<T>,
}
