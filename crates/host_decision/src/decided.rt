// What a policy decides of a failure. It relies on `opening_lines` for where the engine begins, on `ran` for the run, and on `decision` for what came
// of it.

ghost use Rattle.std.specs.Prelude.{IfErr, IfOk};
ghost use Rattle.host_decision.specs.Answered.{IsDecided};
ghost use Rattle.host_decision.specs.Asked.{AreLinesOf, outcome_of};
ghost use Rattle.host_decision.specs.Faults.{IsPossible, IsRefused};
ghost use Rattle.host_decision.specs.Ran.{IsUndecided};

use crate::decision::Decision;
use crate::opening_lines::{completion_of, lines_of};
use crate::ran::{Ran, run_from};
use crate::undecided::{DecisionError, Undecided, fault_of};
use base::OrMemory;
use engine_config::Config;
use show_question::{Failure, Question};
use std::alloc::Global;
use world_calls::CarriedLine;

/// A run of a policy, and what came of it.
#[derive(Drop)]
pub struct Decided<'a> {
    pub ran: Ran<'a>,
    pub decision: Decision,
}

/// The lines of an engine of the configuration in which one CCB is active and nothing else is, as the question says; or what of the question
/// an engine cannot take.
pub fn lines(
    alloc: Global,
    config: &Config,
    question: &Question,
) -> Result<Vec<CarriedLine>, DecisionError>
    ensures lines { IfOk result (λ its. AreLinesOf config.now question.now its.items) }
    ensures possible { IfOk result (λ its. IsPossible config.now question.now) }
    ensures refused { IfErr result (IsRefused config.now question.now) }
{
    match fault_of(config, question) {
        Some(fault) => Err(OrMemory::Fault(fault)),
        None => Ok(lines_of(alloc, config, question)?),
    }
}

/// What the policy of the failure's queue does with it, from an engine of the configuration that begins with these lines. It is `Err` if no
/// engine begins with them, if no run starts, or for want of memory.
pub fn decision_on<'a>(
    alloc: Global,
    config: &'a Config,
    lines: &[CarriedLine],
    failure: &Failure,
) -> Result<Decided<'a>, DecisionError>
    ensures decided { IfOk result (IsDecided config.now lines.now failure.now) }
    ensures undecided { IfErr result (IsUndecided config.now lines.now (outcome_of failure.now)) }
{
    let Some(completion) = completion_of(failure) else {
        return Err(OrMemory::Fault(Undecided::Status));
    };
    let ran = run_from(alloc, config, lines, &completion)?;
    let decision = Decision::of(alloc, &ran, failure.queue)?;
    Ok(Decided { ran, decision })
}
