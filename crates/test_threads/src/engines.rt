// Engines with CCBs that a device has. If memory is refused, the same call succeeds the second time.

use ccb::QueueId;
use engine_core::{Config, Engine};
use std::alloc::Global;

pub const QUEUE: QueueId = QueueId(0);

/// A queue of 16 openings. If a run has a freeze it gives it back; then its CCB waits again.
pub const MANIFEST: &str = "version = 1\n[[queue]]\nopenings = 16\nprogram = \"p1\"\n\
    [[program]]\nname = \"p1\"\nasm = \"\"\"\n\
    jeq r2, 0, +2\n\
    mov64 r1, r2\n\
    call 2\n\
    mov64 r1, 1\n\
    call 4\n\
    mov64 r0, 0\n\
    exit\n\
    \"\"\"\n";

fn config_once(alloc: Global, manifest: &str) -> Option<Config> {
    match manifest::read(alloc, manifest) {
        Ok(manifest) => Some(manifest.config),
        Err(_) => None,
    }
}

/// The configuration that the manifest says.
pub fn config(alloc: Global, manifest: &str) -> Option<Config> {
    match config_once(alloc, manifest) {
        Some(config) => Some(config),
        None => config_once(alloc, manifest),
    }
}

fn open(alloc: Global, config: Config) -> Option<Engine> {
    match Engine::open(alloc, config) {
        Ok(engine) => Some(engine),
        Err((_, config)) => match Engine::open(alloc, config) {
            Ok(engine) => Some(engine),
            Err(_) => None,
        },
    }
}

/// An engine of that manifest.
pub fn engine_of(alloc: Global, manifest: &str) -> Option<Engine> {
    open(alloc, config(alloc, manifest)?)
}

fn submit(engine: &mut Engine, queue: QueueId) -> bool {
    engine.submit(queue, 1, 3, 0).is_ok()
}

fn start(engine: &mut Engine, queue: QueueId) -> bool {
    engine.dispatch(queue).is_ok()
}

// Submits and starts so many CCBs, and submits so many more, unless memory is refused.
fn submit_all(engine: &mut Engine, queue: QueueId, active: u32, waiting: u32) {
    for _ in 0..active {
        if submit(engine, queue) {
            start(engine, queue);
        }
    }
    for _ in 0..waiting {
        submit(engine, queue);
    }
}

/// An engine of which so many CCBs are active, of the numbers from 1 on, and so many more wait. If memory is refused there are fewer, which
/// its sums show.
pub fn engine_with(alloc: Global, active: u32, waiting: u32) -> Option<Engine> {
    let mut engine = engine_of(alloc, MANIFEST)?;
    submit_all(&mut engine, QUEUE, active, waiting);
    Some(engine)
}
