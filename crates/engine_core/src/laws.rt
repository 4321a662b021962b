// The laws of the world, each the contract of a function without arguments. They rely on `world` alone.

ghost use Rattle.world.specs.Laws.LimitLaws.{LimitsAreKept, RunsKeepLimits};
ghost use Rattle.world.specs.Laws.FreezeLaws.{CountsAreEntries, HeldAreEntries};
ghost use Rattle.world.specs.Laws.FreezeLaws.{GivenUpStaysGivenUp, GivenUpByRunStaysGivenUp, HandedOverStaysHandedOver, GoneStaysGone};
ghost use Rattle.world.specs.Laws.CcbLaws.{EachIsLiveOrEnded, StartsKeepOpenings};
ghost use Rattle.world.specs.Laws.ClockLaws.{ClockGoesOn, TimersKeepTime};
ghost use Rattle.world.specs.Flat.{EmptyAdvanceIsNone};
ghost use Rattle.world.specs.Laws.Headline.{NeverStuck, MachinesAreReached, WithinBudget, DisposedOnce, ExactFreezes, OthersLeaveIt, GoneRunStaysGone};
ghost use Rattle.world.specs.Laws.ParkLaws.{ParkedStaysAsItIs};
ghost use Rattle.world.specs.Laws.Moved.{Moved};
ghost use Rattle.world.specs.Laws.OneController.{OneController};
ghost use Rattle.world.specs.Laws.Classes.{ClassesToo};
ghost use Rattle.world.specs.Laws.Advice.{AdviceIsTold};

/// The headline. For every setup of accepted programs and every interleaving, instruction by instruction, of
/// submissions, dispatches, withdrawals, completions, timers, guests, parks and runs: no run is ever stuck, and each that is
/// out has exactly one next step; each executes at most its budget; if it ends it has released or handed over
/// exactly the freezes that it took, and it disposed of its CCB once; and every queue's frozen count, and every
/// controller's, is at every moment the number of entries that name it. A run's CCB is that of the completion which started it. It is in
/// recovery by this run alone until the run disposes of it. Then it waits again in its queue, with the retries that the
/// run asked for fewer and its priority and attempts as they were; or it is gone, and ended with the run's code. All
/// other CCBs stay as they are. And: each live run's machine is one that its program reaches; what
/// a machine holds is what the entries say of its run; no limit is passed: in particular no run holds more than 8
/// freezes, and none has more than 8 frames; no event lets more CCBs of a queue be active than it has openings, though
/// openings may be set below those that are; each CCB number is of a live CCB or of one that ended, once, with its
/// code; an event that is none of a run's own, its steps, its parks and its resumes, leaves it as it is; from its park
/// to its resume a run takes no step, and then it is what it was; a freeze that was given up, a freeze number that is
/// gone and a run that is gone never come back; a freeze that was handed over is a timer's as long as it is there, and
/// never a run's or a guest's again; the clock never goes back, and a freeze that a timer holds goes by the first
/// reading at or after its time and by nothing else; and an advance of no instruction stands for no event.
pub fn headline()
    ensures never_stuck { NeverStuck }
    ensures reached { MachinesAreReached }
    ensures within_budget { WithinBudget }
    ensures exact_freezes { ExactFreezes }
    ensures disposed_once { DisposedOnce }
    ensures exact_counts { CountsAreEntries }
    ensures held { HeldAreEntries }
    ensures limits { LimitsAreKept }
    ensures run_limits { RunsKeepLimits }
    ensures transport { EachIsLiveOrEnded }
    ensures starts { StartsKeepOpenings }
    ensures others { OthersLeaveIt }
    ensures parked { ParkedStaysAsItIs }
    ensures given_up { GivenUpStaysGivenUp }
    ensures given_up_by_run { GivenUpByRunStaysGivenUp }
    ensures handed_over { HandedOverStaysHandedOver }
    ensures gone { GoneStaysGone }
    ensures gone_run { GoneRunStaysGone }
    ensures clock { ClockGoesOn }
    ensures timers { TimersKeepTime }
    ensures empty_advance { EmptyAdvanceIsNone }
{}

/// Private instructions move. Where a run executes one, among the events of others, nobody can tell: in every list
/// of events, from every world, it may be moved past any events of which none is that run's, forward and back;
/// each event keeps its reply, and the last world is the same. That run's are its start, its steps, its parks and
/// its resumes.
pub fn moved()
    ensures moves { Moved }
{}

/// One controller over all queues takes nothing away. Take each list of events with its replies that a transport of device
/// queues alone may have, of which none is about a controller. It may happen with the same replies in every transport that has
/// the same queues, instructions and tables and one controller over all of them, and it leads to the same world.
pub fn one_controller()
    ensures { OneController }
{}

/// Classes and advice take nothing away. Take each list of events with its replies that a transport of device queues under controllers
/// may have, of which none is a withdrawal. It may happen in every transport that has the same queues, instructions, tables and
/// controllers and whose CCBs have a class and an advice: there each submission has the class 0, and each start reports the advice 0. It
/// leads to the same world.
pub fn classes_too()
    ensures { ClassesToo }
{}

/// What is advised is told once. A CCB has one class for as long as it is live. Each start of it reports what was last advised for it, and
/// then nothing is advised; and nothing but its start and a run of its own changes that.
pub fn advice_is_told()
    ensures { AdviceIsTold }
{}
