// What holds of all continued traces: the function's contract is a law. It relies on the definitions alone.

ghost use Rattle.whole_trace.specs.OneText.{OneFaultyLine};

/// What stands after the first line of a continued trace has one first line at most that is not of the form, and then it is no trace's.
pub fn one_faulty_line()
    ensures { OneFaultyLine }
{}
