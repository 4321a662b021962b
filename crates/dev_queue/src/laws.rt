// The laws of what starts first and of what contracts see of a heap, each the contract of a function without arguments.

ghost use Rattle.dev_queue.specs.Waiting.{LeastIsOne, IsByNumber};

/// Among waiting CCBs the least is one: no two different ones start no later than any, so what starts is
/// determined.
pub fn one_least()
    ensures { LeastIsOne }
{}

/// However CCBs stand, what contracts see has the same ones, in the order of their numbers.
pub fn by_number()
    ensures { IsByNumber }
{}
