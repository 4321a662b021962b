// A configuration once more, for an engine that follows one of the same configuration. It relies on `engine_config`.

ghost use Rattle.std.specs.Prelude.{◌≡◌, IfOk, OnOk, map, [], take};
ghost use Rattle.std.specs.Arc.{arc_value};
ghost use Rattle.helpers.specs.declared.limits.HelperSet.TheVariants.{Classes, Controllers, Queues};
ghost use Rattle.engine_config.specs.Configured.{alone_of, firsts_of, queue_of, under_of};

use bpf_accepted::Accepted;
use ccb::QueueId;
use engine_config::Config;
use helpers::{HelperLimits, HelperSet};
use std::alloc::{AllocError, Global};
use std::sync::Arc;

/// Returns the same configuration again. Its programs are shared, and not copied.
pub(crate) fn config_again(alloc: Global, config: &Config) -> Result<Config, AllocError>
    ensures { IfOk result (λ again. again ≡ config.now) }
{
    match config.helpers() {
        HelperSet::Queues => alone_again(alloc, config),
        HelperSet::Controllers => under_again(alloc, config),
        HelperSet::Classes => classes_again(alloc, config),
    }
}

// The same of one without controllers.
fn alone_again(alloc: Global, config: &Config) -> Result<Config, AllocError>
    requires { config.now.limits.helpers ≡ Queues }
    ensures { IfOk result (λ again. again ≡ config.now) }
{
    // It is called for what it says of the configuration.
    let _ = config.queues();
    let limits = limits_again(config)?;
    let queues = queues_alone(alloc, config)?;
    match Config::new(limits, queues) {
        Some(again) => Ok(again),
        // It never comes to this: that the tables of a configuration are lawful is known in its own crate alone.
        None => Err(AllocError),
    }
}

// The same of one with controllers.
fn under_again(alloc: Global, config: &Config) -> Result<Config, AllocError>
    requires { config.now.limits.helpers ≡ Controllers }
    ensures { IfOk result (λ again. again ≡ config.now) }
{
    // It is called for what it says of the configuration.
    let _ = config.queues();
    let limits = limits_again(config)?;
    let controllers = config.controllers() as u8;
    let queues = queues_under(alloc, config)?;
    match Config::with_controllers(limits, controllers, queues) {
        Some(again) => Ok(again),
        // It never comes to this, as above.
        None => Err(AllocError),
    }
}

// The same of one with classes.
fn classes_again(alloc: Global, config: &Config) -> Result<Config, AllocError>
    requires { config.now.limits.helpers ≡ Classes }
    ensures { IfOk result (λ again. again ≡ config.now) }
{
    // It is called for what it says of the configuration.
    let _ = config.queues();
    let limits = limits_again(config)?;
    let controllers = config.controllers() as u8;
    let tables = lists_again(alloc, config.first_words())?;
    let queues = queues_under(alloc, config)?;
    match Config::with_classes(limits, controllers, tables, queues) {
        Some(again) => Ok(again),
        // It never comes to this, as above.
        None => Err(AllocError),
    }
}

// Lists of words once more.
#[tactic(auto, using(crate::proofs::Again::list_more))]
fn lists_again(alloc: Global, lists: &[Vec<u64>]) -> Result<Vec<Vec<u64>>, AllocError>
    ensures { IfOk result (λ again. firsts_of again.items ≡ firsts_of lists.now) }
{
    let mut again = Vec::with_capacity(alloc, lists.len())?;
    for place in 0..lists.len() {
        again.push(list_again(alloc, &lists[place])?)?;
    }
    Ok(again)
}

fn list_again(alloc: Global, list: &[u64]) -> Result<Vec<u64>, AllocError>
    ensures { IfOk result (λ again. again.items ≡ list.now) }
{
    let mut again = Vec::new(alloc);
    again.extend_from_slice(list)?;
    Ok(again)
}

// The limits of the helper calls, which those of the first queue's program are.
fn limits_again(config: &Config) -> Result<HelperLimits, AllocError>
    ensures { IfOk result (λ limits. limits ≡ config.now.limits) }
{
    let _ = config.queues();
    let program: &Accepted = config.program(QueueId(0));
    program.limits().try_clone()
}

#[tactic(auto, using(crate::proofs::Again::one_more, crate::proofs::Again::queue_is, crate::proofs::Again::under_no_controller))]
fn queues_alone(alloc: Global, config: &Config) -> Result<Vec<(u8, Arc<Accepted>)>, AllocError>
    requires { config.now.limits.helpers ≡ Queues }
    ensures { IfOk result (λ queues. map queue_of (map alone_of queues.items) ≡ config.now.queues) }
{
    let count = config.queues();
    let mut queues = Vec::with_capacity(alloc, count as usize)?;
    for queue in 0..count {
        let program = Arc::try_clone(config.program(QueueId(queue)))?;
        queues.push((config.openings(queue), program))?;
    }
    Ok(queues)
}

#[tactic(auto, using(crate::proofs::Again::one_more, crate::proofs::Again::queue_is))]
fn queues_under(alloc: Global, config: &Config) -> Result<Vec<(u8, u8, Arc<Accepted>)>, AllocError>
    ensures { IfOk result (λ queues. map queue_of (map under_of queues.items) ≡ config.now.queues) }
{
    let count = config.queues();
    let mut queues = Vec::with_capacity(alloc, count as usize)?;
    for queue in 0..count {
        let controller = config.controller(QueueId(queue)) as u8;
        let program = Arc::try_clone(config.program(QueueId(queue)))?;
        queues.push((config.openings(queue), controller, program))?;
    }
    Ok(queues)
}
