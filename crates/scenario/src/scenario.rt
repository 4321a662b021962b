// A scenario that was read. It relies on `steps` for the walk over its lines.

ghost use Rattle.std.specs.Prelude.{◌≡◌, ◌-◌, ◌^◌, ◌<◌, length};
ghost use Rattle.scenario.specs.Left.{steps_left};

use crate::steps::Steps;
use std::marker::Model;
use world_calls::Call;

/// A scenario: its text, and the calls of its lines in their order. Contracts see the steps.
#[derive(Drop)]
pub struct Scenario<'a> {
    pub(crate) text: &'a str,
    pub(crate) calls: Vec<Call>,
}

impl<'a> Model for Scenario<'a> {
    ghost use Rattle.std.specs.Prelude.{List};
    ghost use Rattle.scenario.specs.Commands.{Step};
    ghost use Rattle.scenario.specs.Said.{lines_of};
    ghost use Rattle.scenario.specs.Steps.{steps_of};

    ghost Value = { List Step };

    ghost view = { λ s. steps_of 1 (lines_of s.text.now) s.calls.items };
}

impl<'a> Scenario<'a> {
    /// The steps, in the order of their lines.
    pub fn steps(&self) -> Steps<'_>
        ensures steps { steps_left result ≡ self.now }
        ensures few { length self.now < 2 ^ 64 - 1 }
    {
        Steps {
            rest: Some(self.text),
            line: 1,
            calls: &self.calls,
        }
    }
}
