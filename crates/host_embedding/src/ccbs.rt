// The live CCBs of an engine, listed in two places of a host's. It relies on `engine_transport` for them.

ghost use Rattle.std.specs.Prelude.{◌≡◌, ◌<◌, ◌≤◌, ◌+◌, ◌++◌, ◌∷◌, [], drop, length, take};
ghost use Rattle.world.specs.Capacities.{most_ccbs};
ghost use Rattle.host_embedding.specs.Ccbs.{ListsCcbs, state_number};

use crate::engine_handle::EngineHandle;
use engine_transport::Transport;
use world::CcbState;

/// How many CCBs are live at most.
const MAX_CCBS: usize = 4096;

impl EngineHandle {
    /// Lists the live CCBs whose number is `from` or a greater one, by rising number, as many as find room: the number of each in the one
    /// place, and what its state is, in the other. Returns how many. What stands after them stays as it was.
    pub fn list_ccbs(&self, from: u32, numbers: &mut [u32], states: &mut [u32]) -> usize
        ensures { ListsCcbs self.now.world.transport.live from numbers.old states.old numbers.new states.new result }
    {
        list(self.engine.transport(), from, numbers, states)
    }
}

#[tactic(auto, using(crate::proofs::Listing::none_yet, crate::proofs::Listing::skipped, crate::proofs::Listing::added, crate::proofs::Listing::listed_so))]
fn list(transport: &Transport, from: u32, numbers: &mut [u32], states: &mut [u32]) -> usize
    requires { length transport.now.live ≤ most_ccbs }
    ensures { ListsCcbs transport.now.live from numbers.old states.old numbers.new states.new result }
{
    let room = numbers.len().min(states.len());
    let mut count = 0usize;
    for place in 0..MAX_CCBS {
        let Some(live) = transport.live_at(place) else {
            return count;
        };
        let number = live.ccb().number.0;
        if from <= number {
            if count == room {
                return count;
            }
            put_at(numbers, count, number);
            put_at(states, count, state_number(live.state()));
            count += 1;
        }
    }
    count
}

// Puts a number at this place.
fn put_at(numbers: &mut [u32], place: usize, number: u32)
    requires { place < length numbers.old }
    ensures front { take (place + 1) numbers.new ≡ take place numbers.old ++ number ∷ [] }
    ensures rest { drop (place + 1) numbers.new ≡ drop (place + 1) numbers.old }
    ensures size { length numbers.new ≡ length numbers.old }
{
    numbers[place] = number;
}

// What a host reads of where a CCB is.
fn state_number(state: CcbState) -> u32
    ensures { result ≡ state_number state }
{
    match state {
        CcbState::Waiting => 1,
        CcbState::Active => 2,
        CcbState::InRecovery => 3,
    }
}
