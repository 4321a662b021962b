// The laws of the lines that are taken over, each the contract of a function without arguments. They rely on the definitions alone.

ghost use Rattle.engine_beginning.specs.Lines.{LinesAreExact, LinesGoOn, SaysItsLines};

/// What an engine begins with, if there is a line of openings for each queue, is a world that it may take over, and the lines of that
/// world are just those that were taken.
pub fn says_its_lines()
    ensures { SaysItsLines }
{}

/// After lines that were taken, a line is refused only if no world that may be taken over has it after them; and the world that has just
/// these lines is what the engine begins with.
pub fn lines_are_exact()
    ensures { LinesAreExact }
{}

/// Lines that were taken one after the other are the first ones of a world that may be taken over. So the first line that is refused is
/// the first one with which no such world goes on.
pub fn lines_go_on()
    ensures { LinesGoOn }
{}
