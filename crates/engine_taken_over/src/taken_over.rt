// What was taken over, as the engine's parts had it before its first event. It relies on `engine_transport` and `engine_runs` for what
// is seen of these.

ghost use Rattle.std.specs.Prelude.{◌≡◌, [], None, Option, Some};
ghost use Rattle.world.specs.World.{World as TheWorld};

use engine_runs::Runs;
use engine_transport::Transport;
use std::marker::Model;

/// The world that was taken over, if any was. It takes no bytes.
#[derive(Drop)]
pub struct TakenOver {
    ghost world: { Option TheWorld },
}

impl Model for TakenOver {
    ghost use base.Fml.{ftrue};

    ghost also_owns = { λ _. ftrue };
}

// It owns nothing.
unsafe impl Send for TakenOver {}

impl TakenOver {
    /// None: the engine follows no other.
    pub fn none() -> Self
        ensures { result.world ≡ None }
    {
        TakenOver {}
    }

    /// What these parts say now. No CCB has ended.
    pub fn of(transport: &Transport, runs: &Runs) -> Self
        ensures { result.world ≡ Some (record { transport = transport.now; runs = runs.now.runs; ended = [] }) }
    {
        TakenOver {}
    }
}
