// What can be frozen: a device queue or a controller. It relies on the name of a queue.

ghost use Rattle.std.specs.Prelude.{◌≡◌};
ghost use Rattle.ccb.specs.Places.{index_of, is_place, kind_word, number_of};

use crate::QueueId;

/// A part of the transport that freezes name.
#[derive(Clone, Copy, Debug, PartialEq, Eq)]
pub enum Place {
    /// A device queue.
    Device(QueueId),
    /// A controller, by its number from 0: it holds all device queues that are under it.
    Controller(u32),
}

impl Place {
    /// Its number among all places, which no other has: the device queues have the even numbers in the order of their own, and
    /// the controllers the odd ones.
    pub fn index(self) -> usize
        ensures { result ≡ index_of self }
    {
        match self {
            Place::Device(queue) => 2 * queue.0 as usize,
            Place::Controller(controller) => 2 * controller as usize + 1,
        }
    }

    /// Its number among the places of its kind, from 0.
    pub fn number(self) -> u32
        ensures { result ≡ number_of self }
    {
        match self {
            Place::Device(queue) => queue.0,
            Place::Controller(controller) => controller,
        }
    }

    /// The word for its kind: `queue` or `controller`.
    pub fn kind_word(self) -> &'static str
        ensures { result.now ≡ kind_word self }
    {
        match self {
            Place::Device(_) => "queue",
            Place::Controller(_) => "controller",
        }
    }

    /// Whether both are one place.
    pub fn is_same(self, other: Place) -> bool
        ensures { result ≡ is_place self other }
    {
        self.index() == other.index()
    }
}
