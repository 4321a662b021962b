// The laws of shapes, each the contract of a function without arguments.

ghost use Rattle.call_shape.specs.WaysOut.{EveryPlaceHasAWayOut, NothingOrderedIsOnACycle};

/// In a lawful shape a static path leads from every instruction of the program to its exit.
pub fn ways_out()
    ensures { EveryPlaceHasAWayOut }
{}

/// Where all functions stand in a calling order, no local call lies on a cycle.
pub fn no_cycle()
    ensures { NothingOrderedIsOnACycle }
{}
