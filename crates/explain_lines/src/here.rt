// What is said of each slip: what stands there, how that is mended, and which forms are shown. It relies on `slips`.

use crate::slips::Slip;

/// Which forms of lines are shown with a slip.
#[derive(Clone, Copy)]
pub enum Shows {
    Nothing,
    /// The form of the line, if its first word is one of a line.
    Form,
    /// The same, or the words of lines if it is none.
    FormOrWords,
    /// The words with which lines begin.
    Words,
}

/// What is said of a slip.
#[derive(Clone, Copy)]
pub struct Said {
    pub slip: Slip,
    /// What is against the part of a line, as a clause.
    pub here: &'static str,
    /// How it is mended if no more is known of it: a clause, or nothing.
    pub mending: &'static str,
    pub shows: Shows,
}

/// The slips, each at its place.
const SLIPS: [Said; 60] = [
    Said {
        slip: Slip::Mark,
        here: "a byte order mark stands before the line",
        mending: "save the file without a byte order mark",
        shows: Shows::Form,
    },
    Said {
        slip: Slip::Return,
        here: "a carriage return stands at the end of the line",
        mending: "end lines with a line feed alone; `tr -d '\\r'` takes carriage returns away",
        shows: Shows::Form,
    },
    Said {
        slip: Slip::Indented,
        here: "a blank stands before the line's first word",
        mending: "leave the blank out",
        shows: Shows::Form,
    },
    Said {
        slip: Slip::IndentedComment,
        here: "a blank stands before a comment's #",
        mending: "leave the blank out",
        shows: Shows::Form,
    },
    Said {
        slip: Slip::OnlyBlanks,
        here: "the line has blanks alone",
        mending: "leave the line empty",
        shows: Shows::Form,
    },
    Said {
        slip: Slip::Skipped,
        here: "a trace has no empty lines and no comments",
        mending: "leave the line out",
        shows: Shows::Form,
    },
    Said {
        slip: Slip::Doubled,
        here: "more than one space stands between two words",
        mending: "write one space",
        shows: Shows::Form,
    },
    Said {
        slip: Slip::Trailing,
        here: "a blank stands at the end",
        mending: "leave it out",
        shows: Shows::Form,
    },
    Said {
        slip: Slip::Tab,
        here: "a tab is no space",
        mending: "write one space between words",
        shows: Shows::Form,
    },
    Said {
        slip: Slip::OtherBlank,
        here: "this blank is another character than the space",
        mending: "write a space, or leave it out",
        shows: Shows::Form,
    },
    Said {
        slip: Slip::Hidden,
        here: "this character is not shown, and stands in no line",
        mending: "leave it out",
        shows: Shows::Form,
    },
    Said {
        slip: Slip::Comment,
        here: "a comment begins after something else",
        mending: "put the comment on a line of its own",
        shows: Shows::Form,
    },
    Said {
        slip: Slip::OtherComment,
        here: "a comment begins with #",
        mending: "begin the comment with #",
        shows: Shows::Form,
    },
    Said {
        slip: Slip::NoWord,
        here: "no line begins with this word",
        mending: "",
        shows: Shows::Words,
    },
    Said {
        slip: Slip::Capitals,
        here: "the words of lines are in lower case",
        mending: "",
        shows: Shows::Form,
    },
    Said {
        slip: Slip::Near,
        here: "no line begins with this word, and one near it is meant perhaps",
        mending: "",
        shows: Shows::Form,
    },
    Said {
        slip: Slip::Header,
        here: "this is the first line of a trace",
        mending: "give the trace to `camr replay`, or leave all but the calls out",
        shows: Shows::Nothing,
    },
    Said {
        slip: Slip::LastLine,
        here: "this is the last line of a trace",
        mending: "give the trace to `camr replay`, or leave all but the calls out",
        shows: Shows::Nothing,
    },
    Said {
        slip: Slip::OfRuns,
        here: "a scenario has no lines of runs",
        mending: "leave it out: the workers drive runs to their ends",
        shows: Shows::Words,
    },
    Said {
        slip: Slip::OfLive,
        here: "only the input of `camr live` has such a line",
        mending: "leave it out, or give the line to `camr live`",
        shows: Shows::Words,
    },
    Said {
        slip: Slip::Drains,
        here: "a `drain` is no record, and has no line in a trace",
        mending: "leave it out",
        shows: Shows::Words,
    },
    Said {
        slip: Slip::Missing,
        here: "a field is missing",
        mending: "",
        shows: Shows::Form,
    },
    Said {
        slip: Slip::TooMany,
        here: "nothing may follow here",
        mending: "",
        shows: Shows::Form,
    },
    Said {
        slip: Slip::Answered,
        here: "a scenario has no answers",
        mending: "give the trace to `camr replay`, or leave all but the calls out",
        shows: Shows::Form,
    },
    Said {
        slip: Slip::Base16,
        here: "these are digits of base 16",
        mending: "",
        shows: Shows::Form,
    },
    Said {
        slip: Slip::Signed,
        here: "a number has no sign",
        mending: "",
        shows: Shows::Form,
    },
    Said {
        slip: Slip::LeadingZero,
        here: "a number has no zeros in front",
        mending: "",
        shows: Shows::Form,
    },
    Said {
        slip: Slip::NoDigit,
        here: "this is no decimal digit",
        mending: "",
        shows: Shows::Form,
    },
    Said {
        slip: Slip::OutOfRange,
        here: "the number is out of its range",
        mending: "",
        shows: Shows::Form,
    },
    Said {
        slip: Slip::CapitalDigits,
        here: "digits of base 16 are in lower case",
        mending: "write the digits a to f in lower case",
        shows: Shows::Form,
    },
    Said {
        slip: Slip::Prefix,
        here: "digits of bytes have no 0x before them",
        mending: "leave 0x out",
        shows: Shows::Form,
    },
    Said {
        slip: Slip::HalfByte,
        here: "a byte has two digits",
        mending: "",
        shows: Shows::Form,
    },
    Said {
        slip: Slip::NoByteDigit,
        here: "this is no digit of base 16",
        mending: "",
        shows: Shows::Form,
    },
    Said {
        slip: Slip::NotTwoDigits,
        here: "a byte has two digits",
        mending: "",
        shows: Shows::Form,
    },
    Said {
        slip: Slip::OddDigits,
        here: "the digits are an odd number, and each byte has two",
        mending: "",
        shows: Shows::Form,
    },
    Said {
        slip: Slip::TooManyBytes,
        here: "there are more than 64 bytes",
        mending: "",
        shows: Shows::Form,
    },
    Said {
        slip: Slip::PartedBytes,
        here: "a space stands between bytes",
        mending: "write the bytes one after another, with nothing between them",
        shows: Shows::Form,
    },
    Said {
        slip: Slip::InProgress,
        here: "00 says that the CCB is in progress, which no device reports",
        mending: "",
        shows: Shows::Form,
    },
    Said {
        slip: Slip::Flags,
        here: "the code has flags, which do not belong into a line",
        mending: "",
        shows: Shows::Form,
    },
    Said {
        slip: Slip::NoStatus,
        here: "no CAM status that a device reports has this code",
        mending: "",
        shows: Shows::Form,
    },
    Said {
        slip: Slip::NoStop,
        here: "a run stops at `exit` or at `helper H`",
        mending: "",
        shows: Shows::Form,
    },
    Said {
        slip: Slip::NoHelper,
        here: "there is no helper of this number",
        mending: "",
        shows: Shows::Form,
    },
    Said {
        slip: Slip::Untold,
        here: "the code or the bytes of this call are missing",
        mending: "",
        shows: Shows::Form,
    },
    Said {
        slip: Slip::NoCode,
        here: "a final code is 00 to 3f",
        mending: "",
        shows: Shows::Form,
    },
    Said {
        slip: Slip::NoEquals,
        here: "= stands between two words, with one space on each side",
        mending: "write ` = ` before the answer",
        shows: Shows::Form,
    },
    Said {
        slip: Slip::NoAnswer,
        here: "the answer is missing",
        mending: "",
        shows: Shows::Form,
    },
    Said {
        slip: Slip::OtherRefusal,
        here: "such a line is not refused so",
        mending: "",
        shows: Shows::Form,
    },
    Said {
        slip: Slip::OtherAnswer,
        here: "such a line is not answered so",
        mending: "",
        shows: Shows::Form,
    },
    Said {
        slip: Slip::SecondVersion,
        here: "the line is one of version 2, and the trace begins as one of version 1",
        mending: "take the trace as it was printed: its first line says its version",
        shows: Shows::Form,
    },
    Said {
        slip: Slip::ThirdVersion,
        here: "the line is one of version 3, and the trace begins as one of a lower version",
        mending: "take the trace as it was printed: its first line says its version",
        shows: Shows::Form,
    },
    Said {
        slip: Slip::LowerVersion,
        here: "the line is one of version 1 or 2, and the trace begins as one of version 3",
        mending: "take the trace as it was printed: its first line says its version",
        shows: Shows::Form,
    },
    Said {
        slip: Slip::Classed,
        here: "a class belongs to version 3, and the manifest is of a lower one",
        mending: "leave the class out, or give a manifest of version 3",
        shows: Shows::Form,
    },
    Said {
        slip: Slip::NoFeed,
        here: "the line feed at the end of the line is missing",
        mending: "end the line with a line feed",
        shows: Shows::Nothing,
    },
    Said {
        slip: Slip::CutOff,
        here: "the text ends within this line",
        mending: "take the whole trace; `camr show` shows an open trace as far as it goes, and `camr audit DIR` replays a journal",
        shows: Shows::Nothing,
    },
    Said {
        slip: Slip::NoEnd,
        here: "the last line is missing, which has the sums",
        mending: "take the whole trace; `camr show` shows an open trace as far as it goes, and `camr audit DIR` replays a journal",
        shows: Shows::Nothing,
    },
    Said {
        slip: Slip::AfterEnd,
        here: "something follows the last line",
        mending: "leave it out, or take each trace into a file of its own",
        shows: Shows::Nothing,
    },
    Said {
        slip: Slip::Carried,
        here: "this is no line of what was carried over, or may not stand here",
        mending: "",
        shows: Shows::Nothing,
    },
    Said {
        slip: Slip::NoHeader,
        here: "a trace begins with another line",
        mending: "",
        shows: Shows::Nothing,
    },
    Said {
        slip: Slip::NoVersion,
        here: "there is no such version of traces",
        mending: "",
        shows: Shows::Nothing,
    },
    Said {
        slip: Slip::Other,
        here: "the line is not of the form",
        mending: "",
        shows: Shows::FormOrWords,
    },
];

impl Slip {
    /// What is said of it.
    pub fn said(self) -> Said {
        SLIPS[self as usize]
    }

    /// Whether it is the same as another.
    pub fn is(self, other: Slip) -> bool {
        self as usize == other as usize
    }
}
