// The laws of refusals, the contract of a function without arguments.

ghost use Rattle.inbox.specs.Refusals.{NoneMeansTaken, RefusedMeansUsed, ComesOut};

/// What it says that a pass was refused, of all that it knows: of what it saw when it last put or took, and of what it was told. Where there are several passes of its kind, what it knows to be put may have been taken by others, and the room used by others.
///
/// With one pass of each kind, the first completion goes in, and comes out as soon as the take pass has learned of it.
pub fn refusals()
    ensures none { NoneMeansTaken }
    ensures refused { RefusedMeansUsed }
    ensures comes_out { ComesOut }
{}
