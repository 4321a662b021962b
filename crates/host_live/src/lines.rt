// The lines of an input, one by one. It relies on `draft` for the line that comes, on `input` for bytes, and on `manner` for whether the input's
// clock is read.

ghost use Rattle.std.specs.Prelude.{◌≡◌, ◌≢◌, ◌<◌, ◌^◌, ◌-◌, ◌+◌, ◌≤◌, ◌∷◌, ℕ, List, [], None, Option, false, true, length, take, drop, IfSome, IsTrue, MatchOption};
ghost use Rattle.host_live.specs.Drafts.{IsDraftOf};
ghost use Rattle.host_live.specs.Inputs.{CameState, known_of};
ghost use Rattle.host_live.specs.LinesCome.{IsOver, IsTaken, IsText, IsOneLine, Stands, Takes, Waits};
ghost use Rattle.host_live.specs.Served.{MayCome};
ghost use Rattle.host_live.specs.Turns.{IsOfClock};
ghost use Rattle.host_live.specs.declared.lines.Next.TheVariants.{End, Failed};
ghost use Rattle.host_live.specs.declared.manner.Manner.{Manner as TheManner};

use crate::draft::Draft;
use crate::input::{Came, Input};
use crate::manner::Manner;

/// What comes next.
#[derive(Clone, Copy, Debug, PartialEq, Eq)]
pub(crate) enum Next {
    /// A line, with its line feed.
    Line,
    /// At the end of the input a line without a line feed, which is cut off.
    Cut,
    /// No whole line as yet.
    Nothing,
    /// Nothing, until the clock read that, in milliseconds.
    Due(u64),
    End,
    Failed,
}

/// The lines of an input, as far as they came. One engine's lines go on where those of the engine before ended.
#[derive(Drop)]
pub struct Lines {
    // how many bytes of the piece that came last were taken
    pub(crate) taken: usize,
    pub(crate) draft: Draft,
    // of the line that was told last
    pub(crate) number: usize,
    // the draft is of the line that was told last, of which nothing more comes
    pub(crate) is_told: bool,
    // no bytes come any more
    pub(crate) is_ended: bool,
    // what the engine's clock read where that of the input began, in milliseconds
    pub(crate) begun: u64,
}

impl Lines {
    /// The lines of an input of which what came before is let go, for an engine whose clock reads that.
    pub fn of<I: Input>(input: &I, begun: u64) -> Self
        ensures ended { result.is_ended ≡ false }
        ensures number { result.number ≡ 0 }
        ensures begun { result.begun ≡ begun }
        ensures stands { Stands (known_of (I.came input.now)) (I.came input.now) result [] }
    {
        Lines {
            taken: input.bytes().len(),
            draft: Draft::none(),
            number: 0,
            is_told: false,
            is_ended: false,
            begun,
        }
    }

    /// The engine's clock reads that where the input's began, in milliseconds.
    pub fn begin_at(&mut self, begun: u64)
        ensures same { self.new ≡ record self.old { begun = begun } }
    {
        self.begun = begun;
    }

    /// Takes the next line, if it is there. Whether it is.
    pub(crate) fn take_next<I: Input>(&mut self, input: &I) -> bool
        requires room { self.old.number < 2 ^ 64 - 1 }
        ensures begun { self.new.begun ≡ self.old.begun }
        ensures ended { self.new.is_ended ≡ self.old.is_ended }
        ensures untold { result ≡ false → self.new.is_ended ≡ false → self.new.is_told ≡ false }
        ensures number { result ≡ false → self.new.number ≡ self.old.number }
        ensures takes { (base told : List ℕ) → Stands base (I.came input.now) self.old told → Takes base (I.came input.now) self.old told result self.new }
    {
        if self.is_ended {
            return false;
        }
        if self.is_told {
            self.draft.clear();
            self.is_told = false;
            return self.take(input);
        }
        self.take(input)
    }

    /// The line that came, if it is of the form of a line: of 1,024 bytes at most, in UTF-8, without NUL, and with its line feed.
    pub(crate) fn line(&self) -> Option<&str>
        ensures cut { self.now.is_ended ≡ true → result ≡ None }
        ensures line { self.now.is_ended ≡ false → (line : List ℕ) → IsDraftOf line self.now.draft → MatchOption result (IsText line → ⊥) (λ text. (text.now ≡ line) × IsText line) }
    {
        if self.is_ended {
            None
        } else {
            self.draft.text()
        }
    }

    /// The number of the line that came last, the first being 1; 0 if none came.
    pub fn number(&self) -> usize
        ensures { result ≡ self.now.number }
    {
        self.number
    }

    /// What the engine's clock is to read now, in milliseconds; `None` if it does not go by the input's, or the input has none.
    pub(crate) fn now<I: Input>(&self, manner: Manner, input: &I) -> Option<u64>
        ensures { IsOfClock manner result }
    {
        if !manner.is_clocked {
            return None;
        }
        match input.now() {
            Some(now) => Some(now.saturating_add(self.begun)),
            None => None,
        }
    }

    // What the input's clock reads when the engine's reads that; `None` if the engine's does not go by it.
    fn of_input(&self, manner: Manner, until: Option<u64>) -> Option<u64> {
        match until {
            Some(until) if manner.is_clocked => Some(until.saturating_sub(self.begun)),
            _ => None,
        }
    }

    /// Waits for what comes next, where no line is there yet, and not longer than until the engine's clock is to read `until`, if there is one.
    pub(crate) fn wait_next<I: Input>(
        &mut self,
        manner: Manner,
        input: &mut I,
        until: Option<u64>,
    ) -> Next
        requires room { self.old.number < 2 ^ 64 - 1 }
        requires untold { self.old.is_ended ≡ false → self.old.is_told ≡ false }
        requires ended { IsTrue self.old.is_ended → IsTrue (I.has_ended input.old) }
        ensures begun { self.new.begun ≡ self.old.begun }
        ensures failed { result ≡ Failed → IsTrue (I.has_failed input.new) }
        ensures still { result ≢ Failed → I.has_failed input.new ≡ I.has_failed input.old }
        ensures ended { IsTrue self.new.is_ended → IsTrue (I.has_ended input.new) }
        ensures end { result ≡ End → IsTrue (I.has_ended input.new) }
        ensures waits { (base told : List ℕ) → Stands base (I.came input.old) self.old told → IsTaken (I.came input.old) self.old → Waits base self.old told result (I.came input.new) self.new }
        ensures due { MayCome manner result }
    {
        if self.is_ended {
            return Next::End;
        }
        match input.wait(self.of_input(manner, until)) {
            Came::Bytes => {
                self.taken = 0;
                if self.take(input) {
                    Next::Line
                } else {
                    Next::Nothing
                }
            }
            Came::Due(reading) => {
                if manner.is_clocked {
                    Next::Due(reading.saturating_add(self.begun))
                } else {
                    Next::Nothing
                }
            }
            Came::Failed => Next::Failed,
            Came::End => self.end(),
        }
    }

    // The input is at its end. Whether a line is cut off there.
    fn end(&mut self) -> Next
        requires room { self.old.number < 2 ^ 64 - 1 }
        requires untold { self.old.is_told ≡ false }
        requires going { self.old.is_ended ≡ false }
        ensures begun { self.new.begun ≡ self.old.begun }
        ensures ended { self.new.is_ended ≡ true }
        ensures read { result ≢ Failed }
        ensures due { (manner : TheManner) → MayCome manner result }
        ensures waits { (base told : List ℕ) (came : Option CameState) → Stands base came self.old told → IsTaken came self.old → IsOver came → Waits base self.old told result came self.new }
    {
        self.is_ended = true;
        if self.draft.is_empty() {
            return Next::End;
        }
        self.is_told = true;
        self.number += 1;
        Next::Cut
    }

    // Takes what came up to a line feed, and whether there was one.
    fn take<I: Input>(&mut self, input: &I) -> bool
        requires room { self.old.number < 2 ^ 64 - 1 }
        requires untold { self.old.is_told ≡ false }
        requires going { self.old.is_ended ≡ false }
        ensures begun { self.new.begun ≡ self.old.begun }
        ensures ended { self.new.is_ended ≡ false }
        ensures untold { result ≡ false → self.new.is_ended ≡ false → self.new.is_told ≡ false }
        ensures number { result ≡ false → self.new.number ≡ self.old.number }
        ensures takes { (base told : List ℕ) → Stands base (I.came input.now) self.old told → Takes base (I.came input.now) self.old told result self.new }
    {
        let taken = self.taken;
        let bytes = input.bytes();
        if taken > bytes.len() {
            return false;
        }
        let rest = rest_of(bytes, taken);
        match first_feed(rest) {
            Some(place) => {
                self.draft.add(&rest[..place]);
                self.taken = taken + place + 1;
                self.is_told = true;
                self.number += 1;
                true
            }
            None => {
                self.draft.add(rest);
                self.taken = taken + rest.len();
                false
            }
        }
    }
}

// What follows so many bytes.
fn rest_of(bytes: &[u8], taken: usize) -> &[u8]
    requires { taken ≤ length bytes.now }
    ensures { result.now ≡ drop taken bytes.now }
{
    &bytes[taken..]
}

// Where the first line feed stands.
fn first_feed(bytes: &[u8]) -> Option<usize>
    ensures { MatchOption result (IsOneLine bytes.now) (λ place. (place < length bytes.now) × IsOneLine (take place bytes.now) × (drop place bytes.now ≡ 10 ∷ drop (place + 1) bytes.now)) }
{
    let mut place = 0;
    while place < bytes.len() {
        if bytes[place] == b'\n' {
            return Some(place);
        }
        place += 1;
    }
    None
}
