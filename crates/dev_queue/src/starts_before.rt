// The one comparison of two waiting pairs, and the count of such comparisons.

ghost use Rattle.std.specs.Prelude.{◌≡◌, ◌+◌, ◌<◌, false, IsTrue};
ghost use Rattle.dev_queue.specs.Waiting.{StartsFirst};

use crate::dev_queue::MAX_STEPS;
use crate::waiting_ccb::WaitingCcb;

// Whether one pair starts before the other: by priority, and among equals by number. This is one step more.
pub(crate) fn starts_before(pair: WaitingCcb, other: WaitingCcb, steps: &mut u32) -> bool
    requires room { steps.old < MAX_STEPS }
    ensures counted { steps.new ≡ steps.old + 1 }
    ensures before { IsTrue result → StartsFirst pair other }
    ensures behind { result ≡ false → StartsFirst other pair }
{
    *steps += 1;
    let tied = pair.priority == other.priority;
    pair.priority < other.priority || (tied && pair.number.0 < other.number.0)
}
