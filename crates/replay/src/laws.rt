// What holds of all traces: each function's contract is a law. It relies on the definitions alone.

ghost use Rattle.replay.specs.OneVerdict.{OneContinuedVerdict, OneVerdict};
ghost use Rattle.replay.specs.OwnTrace.{OwnTraceIsAccepted};

/// A trace has one first line at most that does not follow, and then it is not the history of any engine with its sums.
pub fn one_verdict()
    ensures { OneVerdict }
{}

/// A continued trace has one first line at most that does not follow, and then it is not the history of any engine that took over what its
/// carried lines say.
pub fn one_continued_verdict()
    ensures { OneContinuedVerdict }
{}

/// What an engine gives when it is shut is accepted by a replay of its setup, memory aside.
pub fn own_trace_is_accepted()
    ensures { OwnTraceIsAccepted }
{}
