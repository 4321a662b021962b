// The law of what is left, the contract of a function without arguments. It relies on the definitions alone.

ghost use Rattle.engine_carried.specs.Leaving.{LeavesABeginning};

/// An engine without a live run leaves a world that another engine may take over.
pub fn leaves_a_beginning()
    ensures { LeavesABeginning }
{}
