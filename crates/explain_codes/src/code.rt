// The codes by which refusals are told, and how each is spelled. How many there are of each letter is how many rows stand in
// `programs`, `policies`, `files` and `calls`.

ghost use Rattle.std.specs.Prelude.{◌≡◌, bytes_eq, find};
ghost use Rattle.explain_codes.specs.Names.{code_named, codes_of, name_of, series_of};

use crate::calls::{CALLS, QUEUES, SHARED};
use crate::files::{DEVICES, JOURNALS, MANIFESTS, SCENARIOS, TRACES};
use crate::policies::POLICIES;
use crate::programs::{BYTES, SHAPES, TEXTS};
use std::fmt;

/// The code of a refusal: a letter for what is refused, and a number from 1. Its text is the code itself.
#[derive(Clone, Copy, Debug, PartialEq, Eq)]
pub struct Code {
    pub(crate) letter: u8,
    pub(crate) number: u8,
}

/// The codes of a letter, which are numbered from 1.
#[derive(Clone, Copy)]
pub struct Series {
    pub letter: u8,
    /// The number after the last one.
    pub end: u8,
}

/// All codes, a row for each letter.
pub const SERIES: [Series; 12] = [
    Series {
        letter: b'A',
        end: TEXTS.len() as u8 + 1,
    },
    Series {
        letter: b'E',
        end: BYTES.len() as u8 + 1,
    },
    Series {
        letter: b'S',
        end: SHAPES.len() as u8 + 1,
    },
    Series {
        letter: b'V',
        end: POLICIES.len() as u8 + 1,
    },
    Series {
        letter: b'M',
        end: MANIFESTS.len() as u8 + 1,
    },
    Series {
        letter: b'N',
        end: SCENARIOS.len() as u8 + 1,
    },
    Series {
        letter: b'J',
        end: JOURNALS.len() as u8 + 1,
    },
    Series {
        letter: b'C',
        end: CALLS.len() as u8 + 1,
    },
    Series {
        letter: b'Q',
        end: QUEUES.len() as u8 + 1,
    },
    Series {
        letter: b'X',
        end: TRACES.len() as u8 + 1,
    },
    Series {
        letter: b'L',
        end: SHARED.len() as u8 + 1,
    },
    Series {
        letter: b'D',
        end: DEVICES.len() as u8 + 1,
    },
];

// The codes of that letter, if there are any.
#[tactic(auto, unfolding(crate::specs::Names::series_of))]
fn series_of(letter: u8) -> Option<Series>
    ensures { result ≡ series_of letter }
{
    SERIES
        .iter()
        .copied()
        .find(|series| series.letter == letter)
}

impl Series {
    // The code of the letter that the word is.
    fn named(self, word: &str) -> Option<Code>
        ensures { result ≡ find (λ code. bytes_eq (name_of code) word.now) (codes_of self) }
    {
        (1..self.end)
            .map(|number| Code {
                letter: self.letter,
                number,
            })
            .find(|code| code.is_named(word))
    }
}

impl Code {
    fn is_named(self, word: &str) -> bool
        ensures { result ≡ bytes_eq (name_of self) word.now }
    {
        if self.number < 10 {
            [self.letter, b'0' + self.number].as_slice() == word.as_bytes()
        } else {
            [
                self.letter,
                b'0' + self.number / 10,
                b'0' + self.number % 10,
            ]
            .as_slice()
                == word.as_bytes()
        }
    }

    /// The code that the word is, to the letter; none where it is no code.
    pub fn of(word: &str) -> Option<Self>
        ensures { result ≡ code_named word.now }
    {
        let Some(letter) = word.as_bytes().first() else {
            return None;
        };
        match series_of(*letter) {
            Some(series) => series.named(word),
            None => None,
        }
    }
}

impl fmt::Display for Code {
    fn fmt<W: fmt::Write>(&self, f: &mut fmt::Formatter<W>) -> fmt::Result {
        f.write_char(char::from(self.letter))?;
        write!(f, "{}", self.number)
    }
}
