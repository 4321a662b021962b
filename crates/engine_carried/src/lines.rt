// The lines of what an engine leaves to another configuration. It relies on `engine_core` for the engine, on `freezes` for its freezes in
// their order, and on `engine_beginning` for which lines a world has.

ghost use Rattle.std.specs.Prelude.{◌≡◌, ◌++◌, [], IfOk, OnOk};
ghost use Rattle.engine_beginning.specs.Lines.{lines_of};
ghost use Rattle.world_calls.specs.declared.carried_line.CarriedLine.TheVariants as lines;
ghost use Rattle.engine_carried.specs.Left.{AreRunsLeft, IsLeft, world_left};
ghost use Rattle.engine_carried.specs.TakenOver.{taken_over};

use crate::added::add;
use crate::carried_ccbs::add_ccbs;
use crate::carried_freezes::add_freezes;
use crate::carried_numbers::numbers_line;
use crate::carried_openings::add_openings;
use crate::carried_words::add_words;
use crate::numbering::Numbering;
use engine_config::Config;
use engine_core::{Engine, NumberedEngine};
use engine_runs::Runs;
use engine_transport::Transport;
use std::alloc::{AllocError, Global};
use world_calls::CarriedLine;

/// Returns the lines of what an engine of this configuration takes over from the engine, in which no run is live. The numbering says under
/// which numbers its CCBs, freezes and runs go on. It returns `Err` if memory is refused. `fits` decides whether an engine of the
/// configuration may begin with the lines.
pub fn carried_lines(
    alloc: Global,
    engine: &Engine,
    config: &Config,
    numbering: Numbering,
) -> Result<Vec<CarriedLine>, AllocError>
    requires { engine.now.world.runs.list ≡ [] }
    ensures { IfOk result (λ lines. lines.items ≡ lines_of (taken_over numbering engine.now.setup config.now engine.now.world)) }
{
    let transport = engine.transport();
    let runs = engine.runs();
    let mut lines = Vec::new(alloc);
    add_lines(
        &mut lines,
        transport,
        runs,
        engine.config(),
        config,
        numbering,
    )?;
    Ok(lines)
}

/// Returns the same of an engine that keeps no history.
pub fn carried_lines_numbered(
    alloc: Global,
    engine: &NumberedEngine<'_>,
    config: &Config,
    numbering: Numbering,
) -> Result<Vec<CarriedLine>, AllocError>
    requires { engine.now.runs.list ≡ [] }
    ensures { IfOk result (λ lines. lines.items ≡ lines_of (taken_over numbering engine.now.setup config.now (world_left engine.now.transport engine.now.runs))) }
{
    let transport = engine.transport();
    let runs = engine.runs();
    let mut lines = Vec::new(alloc);
    add_lines(
        &mut lines,
        transport,
        runs,
        engine.config(),
        config,
        numbering,
    )?;
    Ok(lines)
}

// Adds all of them after the lines that are there.
fn add_lines(
    lines: &mut Vec<CarriedLine>,
    transport: &Transport,
    runs: &Runs,
    old: &Config,
    new: &Config,
    numbering: Numbering,
) -> Result<(), AllocError>
    requires left { IsLeft old.now transport.now }
    requires runs { AreRunsLeft old.now runs.now.runs }
    ensures { OnOk result (lines.new.items ≡ lines.old.items ++ lines_of (taken_over numbering old.now new.now (world_left transport.now runs.now.runs))) }
{
    // It is called for what it says of the configuration.
    let _ = new.queues();
    add(lines, numbers_line(transport, runs, numbering))?;
    add(lines, clock_line(transport))?;
    add_openings(lines, transport, old, new)?;
    add_words(lines, runs, old, new)?;
    add_ccbs(lines, transport, numbering)?;
    add_freezes(lines, transport, old, numbering)?;
    Ok(())
}

// Returns the line of what the clock read last.
fn clock_line(transport: &Transport) -> CarriedLine
    ensures { result ≡ lines.Clock transport.now.clock }
{
    CarriedLine::Clock {
        reading: transport.clock(),
    }
}
