// The laws of segments, each the contract of a function without arguments.

ghost use Rattle.interpreter.specs.Laws.{OneSegment, EachWithinBudget};

/// From one machine a program has one segment: where it stops, and after how many instructions, is settled.
pub fn one_segment()
    ensures { OneSegment }
{}

/// A segment has no more instructions than are left of the program's budget where it begins.
pub fn each_within_budget()
    ensures { EachWithinBudget }
{}
