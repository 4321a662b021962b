// The programs of a manifest by name, and which of them each queue has. It relies on `engine_config` for the queues, and on `bpf_accepted`
// for programs.

use bpf_accepted::Accepted;
use ccb::QueueId;
use engine_config::Config;
use std::alloc::{AllocError, Global};

/// A program that was accepted, with its name.
#[derive(Clone, Copy)]
pub struct NamedAccepted<'a> {
    pub name: &'a str,
    pub accepted: &'a Accepted,
}

/// The programs, in the order in which they are given, and the place of each queue's among them.
#[derive(Drop)]
pub struct Programs<'a> {
    named: &'a [NamedAccepted<'a>],
    of_queues: Vec<usize>,
}

impl<'a> Programs<'a> {
    /// Those of a configuration. A queue's program is the first that has its instructions.
    pub fn new(
        alloc: Global,
        config: &Config,
        named: &'a [NamedAccepted<'a>],
    ) -> Result<Self, AllocError> {
        let mut of_queues = Vec::new(alloc);
        for queue in 0..config.queues() {
            of_queues.push(place_of(config.program(QueueId(queue)), named))?;
        }
        Ok(Programs { named, of_queues })
    }

    /// How many programs there are.
    pub fn len(&self) -> usize {
        self.named.len()
    }

    /// Whether there is none.
    pub fn is_empty(&self) -> bool {
        self.named.is_empty()
    }

    /// Which of them the queue has; after the last if it has none of them.
    pub fn of(&self, queue: u32) -> usize {
        match self.of_queues.get(queue as usize) {
            Some(place) => *place,
            None => self.named.len(),
        }
    }

    /// The name of one; nothing after the last.
    pub fn name(&self, place: usize) -> &'a str {
        match self.named.get(place) {
            Some(program) => program.name,
            None => "",
        }
    }

    /// The most instructions of a run of one; 0 after the last.
    pub fn budget(&self, place: usize) -> u32 {
        match self.named.get(place) {
            Some(program) => program.accepted.budget(),
            None => 0,
        }
    }
}

// Where the first of them stands that has these instructions; after the last if none has.
fn place_of(program: &Accepted, named: &[NamedAccepted<'_>]) -> usize {
    for (place, other) in named.iter().enumerate() {
        if *other.accepted.program() == *program.program() {
            return place;
        }
    }
    named.len()
}
