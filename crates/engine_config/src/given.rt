// The device queues as a configuration is given them, with controllers or without. It relies on `bpf_accepted` for their programs.

ghost use Rattle.std.specs.Prelude.{◌≡◌, ◌<◌, ◌≤◌, ◌↔◌, length, All, IsTrue, slice_index_or};
ghost use Rattle.world.specs.Capacities.{most_controllers};
ghost use Rattle.engine_config.specs.Configured.{controllers_of, queue_seen, queues_of, under_of};

use bpf_accepted::Accepted;
use std::sync::Arc;
use world::MAX_CONTROLLERS;

/// The device queues, in the order of their numbers.
#[derive(Debug, Drop)]
pub enum GivenQueues {
    /// Queues without controllers: the openings and the program of each.
    Alone(Vec<(u8, Arc<Accepted>)>),
    /// How many controllers there are, and the openings, the controller and the program of each queue.
    Under(u8, Vec<(u8, u8, Arc<Accepted>)>),
}

/// One of them: its openings, its controller, which is 0 where there are none, and its program.
#[derive(Drop)]
pub struct GivenQueue<'a> {
    pub openings: u8,
    pub controller: u8,
    pub program: &'a Arc<Accepted>,
}

impl GivenQueues {
    /// How many queues there are.
    pub fn count(&self) -> usize
        ensures { result ≡ length (queues_of self.now) }
    {
        match self {
            GivenQueues::Alone(queues) => queues.len(),
            GivenQueues::Under(_, queues) => queues.len(),
        }
    }

    /// How many controllers there are.
    pub fn controllers(&self) -> u8
        ensures { result ≡ controllers_of self.now }
    {
        match self {
            GivenQueues::Alone(_) => 0,
            GivenQueues::Under(controllers, _) => *controllers,
        }
    }

    /// The queue of a number.
    pub fn queue(&self, number: usize) -> GivenQueue<'_>
        requires { number < length (queues_of self.now) }
        ensures { queue_seen result ≡ slice_index_or (queues_of self.now) number (queue_seen result) }
    {
        match self {
            GivenQueues::Alone(queues) => {
                let (openings, program) = &queues[number];
                GivenQueue {
                    openings: *openings,
                    controller: 0,
                    program,
                }
            }
            GivenQueues::Under(_, queues) => {
                let (openings, controller, program) = &queues[number];
                GivenQueue {
                    openings: *openings,
                    controller: *controller,
                    program,
                }
            }
        }
    }
}

/// Whether there are 1 to 8 controllers, and each queue is under one of them.
pub fn are_under(controllers: u8, queues: &[(u8, u8, Arc<Accepted>)]) -> bool
    ensures { IsTrue result ↔ (((1 ≤ controllers) × (controllers ≤ most_controllers))
        × All (λ queue. (under_of queue).controller < controllers) queues.now) }
{
    0 < controllers && controllers <= MAX_CONTROLLERS && are_below(controllers, queues)
}

// Each queue's controller is below that number.
fn are_below(controllers: u8, queues: &[(u8, u8, Arc<Accepted>)]) -> bool
    ensures { IsTrue result ↔ All (λ queue. (under_of queue).controller < controllers) queues.now }
{
    queues.iter().all(|queue| queue.1 < controllers)
}
