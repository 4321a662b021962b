// How a trial ended. It relies on `engine_core` for what an engine has.

ghost use Rattle.std.specs.Prelude.{◌≡◌, true, IsTrue, length};
ghost use Rattle.host_trial.specs.Tried.{EndsIn};
ghost use Rattle.host_trial.specs.Resting.{IsAtRest};
ghost use Rattle.host_trial.specs.declared.ending.Ending.TheVariants.{Finished};

use engine_core::NumberedEngine;
use engine_core::laws::headline;

/// How a trial ended.
#[derive(Clone, Copy, Debug, PartialEq, Eq)]
pub enum Ending {
    /// Each request is finished, no run is live, and no timer is due.
    Finished,
    /// It was stopped, when so many CCBs were not finished.
    Stopped(usize),
}

/// Why a trial went no further.
#[derive(Clone, Copy, Debug, PartialEq, Eq)]
pub enum Halt {
    /// Nothing happens any more.
    Over,
    /// So many moments passed as there may be.
    Limit,
    /// The next moment is later than the last one that was asked for.
    Until,
}

/// How it ended in this engine, if its records are all that there was to be, or not.
pub(crate) fn ending_of(engine: &NumberedEngine<'_>, is_whole: bool) -> Ending
    ensures ends { EndsIn result engine.now.transport engine.now.runs }
    ensures whole { result ≡ Finished → is_whole ≡ true }
{
    let live = live(engine);
    if live == 0 && is_whole && is_at_rest(engine) {
        Ending::Finished
    } else {
        Ending::Stopped(live)
    }
}

/// The most CCBs that are live.
const MOST: usize = 4096;

// Whether nothing happens by itself: no CCB is active, no run is live, and no timer is due.
fn is_at_rest(engine: &NumberedEngine<'_>) -> bool
    ensures { IsTrue result → IsAtRest engine.now }
{
    let totals = engine.totals(0);
    if totals.active == 0 && totals.runs == 0 {
        engine.next_due().is_none()
    } else {
        false
    }
}

// How many CCBs are live.
fn live(engine: &NumberedEngine<'_>) -> usize
    ensures { result ≡ length engine.now.transport.live }
{
    // These are called for what they say of all engines.
    headline();
    let _ = engine.transport();
    for place in 0..MOST {
        match engine.ccb_at(place) {
            Some(_) => {}
            None => return place,
        }
    }
    MOST
}
