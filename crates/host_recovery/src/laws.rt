// What holds of all segments: each function's contract is a law. It relies on the definitions alone.

ghost use Rattle.host_recovery.specs.AgreesWithReplay.{AgreesWithReplay};
ghost use Rattle.host_recovery.specs.AnyFront.{RecoversFromAnyFront};

/// Each front, in bytes, of the trace of a history is recovered, if it has the first line and all carried lines, and memory and the source allow
/// it: the engine stands where the records lead whose lines stand there whole.
pub fn recovers_from_any_front()
    ensures { RecoversFromAnyFront }
{}

/// Of the text of a whole trace, with carried lines or without, recovery says what a replay of the trace says, and X2 has the number that a
/// reader of the text reports.
pub fn agrees_with_replay()
    ensures { AgreesWithReplay }
{}
