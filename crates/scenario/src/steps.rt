// The steps of a scenario, line by line. It relies on `command` for which line is a drain.

ghost use Rattle.std.specs.Prelude.{◌≡◌, ◌+◌, ◌∷◌, ◌^◌, ◌<◌, [], MatchOption};
ghost use Rattle.scenario.specs.Steps.{lines_left, room_left, step_seen, steps_of, steps_said};

use crate::command::is_drain;
use crate::reading::is_skipped;
use world_calls::Call;

/// What a line asks for.
#[derive(Clone, Copy)]
pub struct Step<'a> {
    /// The number of the line, from 1.
    pub line: usize,
    /// Its call; none for a `drain`.
    pub call: Option<&'a Call>,
}

/// The steps that are left.
#[derive(Clone, Copy)]
pub struct Steps<'a> {
    // the text from the next line on; none after the last
    pub(crate) rest: Option<&'a str>,
    // the number of the next line
    pub(crate) line: usize,
    pub(crate) calls: &'a [Call],
    ghost fits: { line + room_left rest < 2 ^ 64 },
}

impl<'a> Iterator for Steps<'a> {
    ghost use Rattle.std.specs.Iterator.{YieldsFirstBy, item_count};
    ghost use Rattle.scenario.specs.Left.{steps_left};
    ghost use Rattle.scenario.specs.Steps.{step_seen};

    type Item = Step<'a>;

    ghost next_gives = { YieldsFirstBy step_seen steps_left };

    ghost remaining = { item_count steps_left };

    fn next(&mut self) -> Option<Step<'a>> {
        while let Some((number, line)) = self.next_line() {
            if !is_skipped(line) {
                return self.step(number, line);
            }
        }
        None
    }
}

impl<'a> Steps<'a> {
    // The next line, with its number.
    fn next_line(&mut self) -> Option<(usize, &'a str)>
        ensures next { MatchOption result ((lines_left self.old.rest ≡ []) × (self.new ≡ self.old)) (λ its. (lines_left self.old.rest ≡ its.1.now ∷ lines_left self.new.rest) × (its.0 ≡ self.old.line) × (self.new.line ≡ self.old.line + 1)) }
        ensures calls { self.new.calls ≡ self.old.calls }
    {
        let text = self.rest?;
        let number = self.line;
        match text.split_once('\n') {
            Some((line, behind)) => {
                self.rest = Some(behind);
                self.line += 1;
                Some((number, line))
            }
            None => {
                self.rest = None;
                self.line += 1;
                Some((number, text))
            }
        }
    }

    // The step of the line of that number, which says something. None, after which none is left, if no call is left for it.
    fn step(&mut self, number: usize, line: &str) -> Option<Step<'a>>
        ensures { MatchOption result
            ((steps_said number line.now (steps_of self.old.line (lines_left self.old.rest)) self.old.calls.now ≡ []) × (steps_of self.new.line (lines_left self.new.rest) self.new.calls.now ≡ []))
            (λ step. steps_said number line.now (steps_of self.old.line (lines_left self.old.rest)) self.old.calls.now ≡ step_seen step ∷ steps_of self.new.line (lines_left self.new.rest) self.new.calls.now) }
    {
        if is_drain(line) {
            return Some(Step {
                line: number,
                call: None,
            });
        }
        match self.calls.split_first() {
            Some((call, calls)) => {
                self.calls = calls;
                Some(Step {
                    line: number,
                    call: Some(call),
                })
            }
            None => {
                self.rest = None;
                None
            }
        }
    }
}
