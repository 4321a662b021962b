// The lines of a source, one by one, of which no more is kept than a line may have. It relies on `source` for bytes, on `trace` for how
// long a line is, and on `trace_lines` for the place where one is kept.

ghost use Rattle.std.specs.Prelude.{◌≡◌, ◌<◌, ◌≤◌, ◌∷◌, [], length, MatchOption};
ghost use Rattle.host_recovery.specs.LinesRead.{FillSays, NextSays};

use crate::source::{ReadFailed, Source};
use std::marker::Model;
use trace::laws::LONGEST_LINE;
use trace_lines::Text;

/// How many bytes are read at a time.
const PIECE: usize = 4096;

/// What comes next.
#[derive(Clone, Copy, Debug, PartialEq, Eq)]
pub(crate) enum Next {
    /// A line, which had its line feed.
    Line,
    /// The end, and before it bytes without a line feed, or none.
    Torn,
    /// More bytes without a line feed than a line has.
    Long,
    /// The source cannot be read.
    Failed,
}

/// Whether there are bytes ahead.
#[derive(Clone, Copy, Debug, PartialEq, Eq)]
pub(crate) enum Filled {
    Some,
    End,
    Failed,
}

/// The line that came last, and what was read beyond it.
#[derive(Drop)]
pub(crate) struct Lines {
    line: Text,
    piece: [u8; PIECE],
    // what is ahead stands from here up to there
    from: usize,
    to: usize,
}

impl Model for Lines {
    ghost use Rattle.host_recovery.specs.LinesRead.{LinesState};

    ghost Value = { LinesState };

    ghost use Rattle.std.specs.Prelude.{◌≤◌, drop, take, length};
    ghost use Rattle.host_recovery.specs.declared.lines.TheConstants.{PIECE};
    ghost use Rattle.trace.specs.declared.laws.TheConstants.{LONGEST_LINE};

    ghost view = { λ l. record { line = l.line; ahead = drop l.from (take l.to l.piece) } };

    ghost invariant = { λ l. (l.from ≤ l.to) × (l.to ≤ PIECE) × (length l.line ≤ LONGEST_LINE) };
}

impl Lines {
    /// No line came yet.
    pub(crate) fn none() -> Self
        ensures { result ≡ record { line = []; ahead = [] } }
    {
        Lines {
            line: Text::none(),
            piece: [0; PIECE],
            from: 0,
            to: 0,
        }
    }

    /// The line that came last, or what stands without a line feed at the end.
    pub(crate) fn line(&self) -> &[u8]
        ensures bytes { result.now ≡ self.now.line }
        ensures few { length self.now.line ≤ LONGEST_LINE }
    {
        self.line.as_slice()
    }

    /// Takes the next line.
    pub(crate) fn next<S: Source>(&mut self, source: &mut S) -> Next
        ensures { NextSays (S.remaining source.old) (S.failures source.old) self.old result self.new (S.remaining source.new) (S.failures source.new) }
    {
        self.line.clear();
        loop {
            match self.next_byte() {
                Some(byte) => {
                    if byte == b'\n' {
                        return Next::Line;
                    }
                    if self.line.len() >= LONGEST_LINE {
                        return Next::Long;
                    }
                    self.line.push(byte);
                }
                None => match self.fill(source) {
                    Filled::Some => {}
                    Filled::End => return Next::Torn,
                    Filled::Failed => return Next::Failed,
                },
            }
        }
    }

    // Takes the first byte that is ahead.
    fn next_byte(&mut self) -> Option<u8>
        ensures line { self.new.line ≡ self.old.line }
        ensures byte { MatchOption result ((self.old.ahead ≡ []) × (self.new.ahead ≡ [])) (λ byte. self.old.ahead ≡ byte ∷ self.new.ahead) }
    {
        if self.from >= self.to {
            return None;
        }
        let byte = self.piece[self.from];
        self.from += 1;
        Some(byte)
    }

    // Reads more where nothing is ahead.
    fn fill<S: Source>(&mut self, source: &mut S) -> Filled
        ensures line { self.new.line ≡ self.old.line }
        ensures filled { FillSays (S.remaining source.old) (S.failures source.old) result self.new.ahead (S.remaining source.new) (S.failures source.new) }
    {
        self.from = 0;
        self.to = 0;
        match source.read(&mut self.piece) {
            Ok(count) => {
                self.to = count;
                if count == 0 {
                    Filled::End
                } else {
                    Filled::Some
                }
            }
            Err(ReadFailed) => Filled::Failed,
        }
    }
}
