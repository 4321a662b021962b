// What holds of all lines: each function's contract is a law. It relies on the definitions alone.

ghost use Rattle.trace_lines.specs.CallsAreLines.{CallsAreLines};
ghost use Rattle.trace_lines.specs.OwnRows.{EachHelperHasItsRow, EachWordHasItsRow};

/// A call is found again from its word and what its fields hold, and what is spelled as a call's line is that line of that call.
pub fn calls_are_lines()
    ensures { CallsAreLines }
{}

/// The row of a word is that word's own, and the row of a helper is that helper's own: both tables stand in the order of their names.
pub fn rows_are_their_own()
    ensures words { EachWordHasItsRow }
    ensures helpers { EachHelperHasItsRow }
{}
