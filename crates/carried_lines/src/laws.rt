// What holds of the texts of all lines: each function's contract is a law. It relies on the definitions alone.

ghost use Rattle.carried_lines.specs.Laws.{LinesHaveOwnTexts, NoTextHasALineFeed, NoTextIsOfARecord, NoTextIsOfTheEnd};

/// In a version two different lines have different texts.
pub fn lines_have_own_texts()
    ensures { LinesHaveOwnTexts }
{}

/// No line's text has a line feed, so each stands on one line of a trace; and none is the text of another line of a trace: the line of a
/// record has ` = `, and the last line begins with `end`.
pub fn texts_are_no_other_lines()
    ensures one { NoTextHasALineFeed }
    ensures record_line { NoTextIsOfARecord }
    ensures last_line { NoTextIsOfTheEnd }
{}
