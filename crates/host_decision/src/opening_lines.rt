// The lines of an engine in which one CCB is active, and nothing else is. It relies on `engine_config` for the queues, on `opening_words` for
// the tables, and on `world_calls` for what such lines say.

ghost use Rattle.std.specs.Prelude.{◌≡◌, ◌++◌, IfOk, OnOk, SomeIff};
ghost use Rattle.ccb.specs.Completion.{IsCompletion};
ghost use Rattle.world_calls.specs.declared.carried_line.CarriedLine.TheVariants as the_lines;
ghost use Rattle.engine_beginning.specs.Lines.{openings_from};
ghost use Rattle.host_decision.specs.Asked.{AreLinesOf, ccb_line, openings_in, outcome_of};
ghost use Rattle.host_decision.specs.Faults.{AreFaultless};

use crate::added::add;
use crate::opening_words::{add_tables, tables_of};
use ccb::{CcbId, Completion};
use engine_config::Config;
use show_question::{Failure, Question};
use std::alloc::{AllocError, Global};
use world_calls::{CarriedCcb, CarriedLine};

/// The number of the CCB.
pub(crate) const FAILED: u32 = 1;

/// The lines of an engine of this configuration in which one CCB is active as the question says, at its clock reading, and whose tables have
/// its words over the first words of the configuration.
pub(crate) fn lines_of(
    alloc: Global,
    config: &Config,
    question: &Question,
) -> Result<Vec<CarriedLine>, AllocError>
    requires { AreFaultless config.now question.now.words.items }
    ensures { IfOk result (λ its. AreLinesOf config.now question.now its.items) }
{
    let tables = tables_of(alloc, config, question.words.as_slice())?;
    let mut lines = Vec::new(alloc);
    add(
        &mut lines,
        CarriedLine::Numbers {
            ccb: FAILED,
            freeze: 0,
            run: 0,
        },
    )?;
    add(
        &mut lines,
        CarriedLine::Clock {
            reading: question.failure.clock,
        },
    )?;
    add_openings(&mut lines, config)?;
    add_tables(&mut lines, &tables, config)?;
    add(&mut lines, ccb_line(&question.failure))?;
    Ok(lines)
}

// A line for each queue, with the openings of the manifest.
fn add_openings(lines: &mut Vec<CarriedLine>, config: &Config) -> Result<(), AllocError>
    ensures { OnOk result (lines.new.items ≡ lines.old.items ++ openings_from 0 (openings_in config.now)) }
{
    for queue in 0..config.queues() {
        let openings = u32::from(config.openings(queue));
        add(lines, CarriedLine::Openings { queue, openings })?;
    }
    Ok(())
}

// The line of the CCB that fails.
fn ccb_line(failure: &Failure) -> CarriedLine
    ensures { result ≡ ccb_line failure.now }
{
    CarriedLine::Ccb(CarriedCcb {
        number: CcbId(FAILED),
        queue: failure.queue,
        priority: 0,
        retries: failure.retries,
        class: failure.class,
        attempts: failure.attempts,
        advice: 0,
        is_active: true,
    })
}

/// The completion by which that CCB fails, if a device may report it.
pub(crate) fn completion_of(failure: &Failure) -> Option<Completion>
    ensures { SomeIff result (IsCompletion (outcome_of failure.now)) (outcome_of failure.now) }
{
    let sense = failure.sense;
    Completion::new(
        CcbId(FAILED),
        failure.status,
        failure.scsi,
        sense.as_slice(),
    )
}
