// The kinds of events as words. It relies on `show_events` for what may happen, and on `helpers` for what a helper does.

use helpers::{Helper, HelperEffect};
use show_events::{Event, Happening};

/// The word for what happened.
pub fn kind_of(happening: Happening) -> &'static str {
    match happening {
        Happening::Submitted => "submitted",
        Happening::NotSubmitted => "submit_refused",
        Happening::Started => "started",
        Happening::NotStarted | Happening::NotStartedFrozen => "start_refused",
        Happening::Completed => "completed",
        Happening::Failed | Happening::FailedAtLimit => "failed",
        Happening::NotCompleted => "completion_refused",
        Happening::Withdrawn => "withdrawn",
        Happening::NotWithdrawn => "withdraw_refused",
        Happening::FrozenByGuest => "frozen_by_guest",
        Happening::NotFrozenByGuest => "guest_freeze_refused",
        Happening::GivenBackByGuest => "released_by_guest",
        Happening::ClockRead => "clock_read",
        Happening::NotRead => "clock_refused",
        Happening::TimerCame => "timer_came",
        Happening::Parked => "parked",
        Happening::Resumed => "resumed",
        Happening::NotResumed => "resume_refused",
        Happening::FrozenByRun => "frozen_by_run",
        Happening::NotFrozenByRun => "run_freeze_denied",
        Happening::GivenBackByRun => "released_by_run",
        Happening::LeftToTimer => "left_to_timer",
        Happening::Requeued => "requeued",
        Happening::Finished => "finished",
        Happening::Traced => "traced",
        Happening::Helped(effect) => kind_of_effect(effect),
        Happening::Ended => "ended",
    }
}

// The word for what a helper does that does no more than read or write numbers.
fn kind_of_effect(effect: HelperEffect) -> &'static str {
    match effect {
        HelperEffect::GetWord => "word_read",
        HelperEffect::PutWord => "word_put",
        HelperEffect::AddWord => "word_added",
        HelperEffect::TellQueue => "queue_read",
        HelperEffect::SetOpenings => "openings_set",
        HelperEffect::TellController => "controller_read",
        HelperEffect::Advise => "advised",
        _ => "time_read",
    }
}

/// The helper whose call an event is, if it is one.
pub fn helper_of(event: &Event) -> Option<Helper> {
    match event.happening {
        Happening::FrozenByRun | Happening::NotFrozenByRun => Some(if event.queue().is_some() {
            Helper::Freeze
        } else {
            Helper::FreezeController
        }),
        Happening::GivenBackByRun => Some(Helper::Release),
        Happening::LeftToTimer => Some(Helper::ReleaseAfter),
        Happening::Requeued => Some(Helper::Requeue),
        Happening::Finished => Some(Helper::Finish),
        Happening::Traced => Some(Helper::Trace),
        Happening::Helped(effect) => Some(helper_with(effect)),
        _ => None,
    }
}

// The helper that does no more than this.
fn helper_with(effect: HelperEffect) -> Helper {
    match effect {
        HelperEffect::GetWord => Helper::TableGet,
        HelperEffect::PutWord => Helper::TablePut,
        HelperEffect::AddWord => Helper::TableAdd,
        HelperEffect::TellQueue => Helper::QueueInfo,
        HelperEffect::SetOpenings => Helper::SetOpenings,
        HelperEffect::TellController => Helper::ControllerFreezes,
        HelperEffect::Advise => Helper::Advise,
        _ => Helper::Now,
    }
}
