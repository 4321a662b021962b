// What an engine goes by: its configuration, and the world that it took over, if it follows another engine. It relies on `engine_config`
// for queues and programs.

ghost use Rattle.std.specs.Prelude.{◌≡◌, ◌<◌, ◌≤◌};
ghost use Rattle.std.specs.Arc.{arc_value};
ghost use Rattle.bpf_accepted.specs.Verdict.{IsAccepted};
ghost use Rattle.world.specs.Capacities.{most_controllers};
ghost use Rattle.world.specs.World.{class_kept, has_classes, queue_count, queue_setup, version_of};
ghost use Rattle.engine_core.specs.Settings.{setup_over};

use bpf_accepted::Accepted;
use ccb::QueueId;
use engine_config::Config;
use engine_taken_over::TakenOver;
use std::marker::Model;
use std::sync::Arc;
use world_calls::Version;

/// The configuration of an engine, and what it took over. Contracts see it as the setup.
#[derive(Drop)]
pub(crate) struct Setting<'a> {
    pub config: &'a Config,
    pub over: &'a TakenOver,
}

impl<'a> Model for Setting<'a> {
    ghost use Rattle.world.specs.World.{Setup};
    ghost use Rattle.engine_core.specs.Settings.{setup_over};

    ghost Value = { Setup };

    ghost view = { λ s. setup_over s.config.now s.over.now.world };
}

impl<'a> Setting<'a> {
    /// How many controllers there are.
    pub(crate) fn controllers(&self) -> u32
        ensures value { result ≡ self.now.controllers }
        ensures bound { result ≤ most_controllers }
    {
        self.config.controllers()
    }

    /// Whether CCBs have a class and an advice, and may be withdrawn.
    pub(crate) fn has_classes(&self) -> bool
        ensures { result ≡ has_classes self.now }
    {
        self.config.has_classes()
    }

    /// The class that the record of a submission says.
    pub(crate) fn class(&self, class: u32) -> Option<u32>
        ensures { result ≡ class_kept self.now class }
    {
        if self.has_classes() {
            Some(class)
        } else {
            None
        }
    }

    /// The vocabulary of the engine's history.
    pub(crate) fn version(&self) -> Version
        ensures { result ≡ version_of self.now }
    {
        Version::of(self.config.helpers())
    }

    /// The controller that a queue is under: 0 if there are none, and after the last queue.
    pub(crate) fn controller(&self, queue: QueueId) -> u32
        ensures value { result ≡ (queue_setup self.now queue.0).controller }
        ensures bound { result < most_controllers }
    {
        self.config.controller(queue)
    }

    /// The program that a failed completion of a queue starts.
    pub(crate) fn program(&self, queue: QueueId) -> &'a Arc<Accepted>
        requires { queue.0 < queue_count self.now }
        ensures program { (arc_value result.now).program ≡ (queue_setup self.now queue.0).program }
        ensures budget { (arc_value result.now).budget ≡ (queue_setup self.now queue.0).budget }
        ensures limits { (arc_value result.now).limits ≡ self.now.limits }
        ensures accepted { IsAccepted (arc_value result.now) }
    {
        self.config.program(queue)
    }
}
