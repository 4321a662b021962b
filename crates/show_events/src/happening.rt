// What may happen along a trace: each event's name, with the words that tell it. It relies on `helpers` for what a helper does.

use helpers::HelperEffect;

/// What happened. Times are milliseconds of the trace's clock.
#[derive(Clone, Copy)]
pub enum Happening {
    /// The CCB waits: its priority, its retries, and its class, which is 0 if none is said.
    Submitted,
    NotSubmitted,
    /// The CCB is active: for the so manieth time, how long it waited, and what was advised for this start, or 0.
    Started,
    NotStarted,
    /// No CCB is started, since its queue or its controller is frozen.
    NotStartedFrozen,
    /// The CCB is finished without an error: how long it was active.
    Completed,
    /// The CCB failed: how long it was active. The run begins, with the freeze.
    Failed,
    /// The CCB failed, and the run begins without a freeze.
    FailedAtLimit,
    /// A completion was refused. The CCB has its queue if it was ever carried over or submitted.
    NotCompleted,
    /// The host withdrew the CCB: how long it waited.
    Withdrawn,
    /// A withdrawal was refused. The CCB has its queue if it was ever carried over or submitted.
    NotWithdrawn,
    /// A guest took the freeze.
    FrozenByGuest,
    NotFrozenByGuest,
    /// A guest gave the freeze back: how long it was there.
    GivenBackByGuest,
    /// The clock was read, and no timer came.
    ClockRead,
    /// A reading was refused: which one.
    NotRead,
    /// The timer of the freeze came: how long the freeze was there.
    TimerCame,
    Parked,
    Resumed,
    NotResumed,
    /// The run took the freeze.
    FrozenByRun,
    /// The run asked for a freeze, and got none.
    NotFrozenByRun,
    /// The run gave the freeze back: how long it was there.
    GivenBackByRun,
    /// The run left the freeze to a timer: the reading at which it is due.
    LeftToTimer,
    /// The run made the CCB wait again: how many retries it had before, and has now.
    Requeued,
    /// The run finished the CCB with the code.
    Finished,
    /// The run put the bytes into the trace.
    Traced,
    /// The run called a helper that does no more than read or write numbers: R1, R2 and R3 at the call, R0 after it, and R0 less R3.
    /// Of a queue that is read: how many of its CCBs are active, how many wait, and its openings. Of advice: the word.
    Helped(HelperEffect),
    /// The run ended: how many instructions it had in all, and R0.
    Ended,
}

// In the words of a happening stand, each after a `%`:
//
// - `c`, `r`, `f`: the CCB, the run and the freeze that it is about, with the word for it;
// - `1` to `5`: numbers; `p`: the third number, of openings; `t`: so many times; `z`: that the place is frozen so many times still, or thawed;
// - `s`: a CAM status by its name; `v`: what became of a CCB that failed; `y`: the SCSI status and the sense that came, if any did; `k`: a final code by its name;
// - `x`: why a call is refused; `o`: the code of the refusal;
// - `l`: the class of the CCB after a comma, and `a`: what was advised after a comma; each of them is nothing if its number, the third one, is 0;
// - `d`: what is advised, the first number, by its name;
// - `g`: a guest; `n`: the name of the queue's program; `w`: why the freeze was there; `b`: bytes, as digits and as text.
impl Happening {
    /// Whether a completion was taken.
    pub fn is_completion(self) -> bool {
        matches!(
            self,
            Happening::Completed | Happening::Failed | Happening::FailedAtLimit
        )
    }

    /// Whether a completion came, be it taken or refused.
    pub(crate) fn is_report(self) -> bool {
        matches!(self, Happening::NotCompleted) || self.is_completion()
    }

    /// Whether a call was refused.
    pub fn is_refused(self) -> bool {
        matches!(
            self,
            Happening::NotSubmitted
                | Happening::NotStarted
                | Happening::NotStartedFrozen
                | Happening::NotCompleted
                | Happening::NotWithdrawn
                | Happening::NotFrozenByGuest
                | Happening::NotRead
                | Happening::NotResumed
        )
    }

    /// The words that tell it, with a letter after a `%` for each value.
    pub fn words(self) -> &'static str {
        match self {
            Happening::Submitted => "%c waits: priority %1, retries %2%l",
            Happening::NotSubmitted => "no ccb is submitted: %x (%o)",
            Happening::Started => "%c starts: attempt %1, it waited %2 ms%a",
            Happening::NotStarted => "no ccb starts: %x (%o)",
            Happening::NotStartedFrozen => "no ccb starts: %x, %t (%o)",
            Happening::Completed => "%c is finished: request completed (01)%y after %1 ms",
            Happening::Failed => "%c %v after %1 ms: frozen %t by %f, and %r of %n begins",
            Happening::FailedAtLimit =>
                "%c %v after %1 ms: no freeze was taken, since a limit is reached; %r of %n begins",
            Happening::NotCompleted => "no completion of %c (%s%y): %x (%o)",
            Happening::Withdrawn => "%c is withdrawn after it waited %1 ms: %k",
            Happening::NotWithdrawn => "no withdrawal of %c: %x (%o)",
            Happening::FrozenByGuest => "frozen %t: guest %g took %f",
            Happening::NotFrozenByGuest => "no freeze for guest %g: %x (%o)",
            Happening::GivenBackByGuest => "%z: guest %g gave %f back after %1 ms",
            Happening::ClockRead => "no timer came",
            Happening::NotRead => "the reading %1 ms is refused: %x (%o)",
            Happening::TimerCame => "%z: the timer of %f came (%1 ms after %w)",
            Happening::Parked => "%r is parked",
            Happening::Resumed => "%r goes on",
            Happening::NotResumed => "%r does not go on: %x (%o)",
            Happening::FrozenByRun => "frozen %t: %r took %f",
            Happening::NotFrozenByRun => "no freeze for %r: a limit is reached",
            Happening::GivenBackByRun => "%z: %r gave %f back after %1 ms",
            Happening::LeftToTimer => "%f of %r is left to a timer, which comes at %1 ms",
            Happening::Requeued => "%c waits again: %r requeued it, retries %1, then %2",
            Happening::Finished => "%c is finished: %r finished it, %k",
            Happening::Traced => "%r traced %b",
            Happening::Helped(effect) => words_of_effect(effect),
            Happening::Ended => "%r ended: %1 instructions, R0 is %2",
        }
    }
}

// The words for a helper that does no more than read or write numbers.
fn words_of_effect(effect: HelperEffect) -> &'static str {
    match effect {
        HelperEffect::GetWord => "%r read word %2 of table %1: %4",
        HelperEffect::PutWord => "%r put word %2 of table %1: %4, then %3",
        HelperEffect::AddWord => "%r added to word %2 of table %1: %5, then %4",
        HelperEffect::TellQueue => "%r read its queue: frozen %t, %1 active, %2 waiting, %p",
        HelperEffect::SetOpenings => "%r set the openings: %4, then %1",
        HelperEffect::Advise => "%r advised %d",
        HelperEffect::TellController => "%r read how often it is frozen: %t",
        _ => "%r read the clock",
    }
}
