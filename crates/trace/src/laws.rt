// What holds of all texts: each function's contract is a law. It relies on the definitions alone.

ghost use Rattle.trace.specs.OneFaultyLine.{OneFaultyLine};
ghost use Rattle.trace.specs.ShortLines.{LinesAreShort};

/// A text has one first line at most that is not of the form, and then it is no trace's.
pub fn one_faulty_line()
    ensures { OneFaultyLine }
{}

/// How many bytes a line has at most, without its line feed.
pub const LONGEST_LINE: usize = 360;

/// Each line of a trace is short, and has only bytes from the blank to the tilde.
pub fn lines_are_short()
    ensures { LinesAreShort }
{}
