// Reads the carried lines of a segment. It relies on `lines` for its lines, and on `carrying` for what they say.

ghost use Rattle.std.specs.Prelude.{◌≡◌, ◌≢◌, ◌<◌, ◌≤◌, ◌∷◌, ◌++◌, ℕ, List, None, Ok, Option, length, true};
ghost use Rattle.std.specs.Io.KnownBytes.{IsAtEnd};
ghost use Rattle.trace_lines.specs.Written.{Reads};
ghost use Rattle.carried_lines.specs.CarriedText.{carried_text};
ghost use Rattle.world.specs.World.{Setup};
ghost use Rattle.host_recovery.specs.Carries.{CameSays, CarriedAllSays, CarriesAt, IsOther};
ghost use Rattle.host_recovery.specs.LinesRead.{IsOneLine, LinesState};
ghost use Rattle.host_recovery.specs.Recovering.{ReadsBy};
ghost use Rattle.host_recovery.specs.declared.carried.Came.TheVariants.{Carried, Other};

use crate::carrying::{Carrying, TookCarried};
use crate::fault::{RecoveryError, RecoveryFault};
use crate::lines::{Lines, Next};
use crate::recovering::{MOST_WHOLE, broken, is_torn};
use crate::source::Source;
use base::OrMemory;
use trace::laws::LONGEST_LINE;

/// What came next.
#[derive(Clone, Copy, Debug, PartialEq, Eq)]
pub(crate) enum Came {
    /// A carried line, which was taken.
    Carried,
    /// Another line, after all carried lines.
    Other,
    /// The end, after all carried lines. What came last is cut off.
    End,
}

/// Reads the carried lines, and returns whether another line came after them. Else the segment ends there.
pub(crate) fn read_carried_lines<S: Source>(
    carrying: &mut Carrying<'_>,
    lines: &mut Lines,
    source: &mut S,
) -> Result<bool, RecoveryError>
    ensures says { (config : Setup) (from : Option (List ℕ)) → CarriesAt config from (S.remaining source.old) lines.old.ahead carrying.old → CarriedAllSays config from result carrying.new lines.new (S.remaining source.new) }
    ensures reads { ReadsBy (S.failures source.old) result (S.failures source.new) }
    ensures other { result ≡ Ok true → IsOther carrying.new lines.new.line }
{
    while carrying.whole < MOST_WHOLE {
        match next_carried(carrying, lines, source)? {
            Came::Carried => {}
            Came::Other => return Ok(true),
            Came::End => return Ok(false),
        }
    }
    Err(OrMemory::Fault(RecoveryFault::TooLong))
}

// Reads the next line.
fn next_carried<S: Source>(
    carrying: &mut Carrying<'_>,
    lines: &mut Lines,
    source: &mut S,
) -> Result<Came, RecoveryError>
    requires few { carrying.old.whole < MOST_WHOLE }
    ensures says { (config : Setup) (from : Option (List ℕ)) → CarriesAt config from (S.remaining source.old) lines.old.ahead carrying.old → CameSays config from result carrying.new lines.new (S.remaining source.new) }
    ensures reads { ReadsBy (S.failures source.old) result (S.failures source.new) }
    ensures more { result ≡ Ok Carried → carrying.old.whole < carrying.new.whole }
    ensures other { result ≡ Ok Other → IsOther carrying.new lines.new.line }
{
    match lines.next(source) {
        Next::Line => take_line(carrying, lines),
        Next::Torn => end_here(carrying, lines.line()),
        Next::Long => Err(broken(carrying.count)),
        Next::Failed => Err(OrMemory::Fault(RecoveryFault::Unread)),
    }
}

// Takes the line that came.
fn take_line(carrying: &mut Carrying<'_>, lines: &Lines) -> Result<Came, RecoveryError>
    requires few { carrying.old.whole < MOST_WHOLE }
    requires line { IsOneLine lines.now.line }
    ensures says { (config : Setup) (from now : Option (List ℕ)) → CarriesAt config from now (lines.now.line ++ 10 ∷ lines.now.ahead) carrying.old → CameSays config from result carrying.new lines.now now }
    ensures reads { (failed : ℕ) → ReadsBy failed result failed }
    ensures more { result ≡ Ok Carried → carrying.old.whole < carrying.new.whole }
    ensures other { result ≡ Ok Other → IsOther carrying.new lines.now.line }
{
    match carrying.take(lines.line())? {
        TookCarried::Line => Ok(Came::Carried),
        TookCarried::OutOfOrder => Err(broken(carrying.count)),
        TookCarried::Nothing => after_all(carrying),
    }
}

// Another line comes only after all carried lines.
fn after_all(carrying: &Carrying<'_>) -> Result<Came, RecoveryError>
    requires few { carrying.now.whole < MOST_WHOLE }
    ensures says { (config : Setup) (from now : Option (List ℕ)) (lines : LinesState) → CarriesAt config from now (lines.line ++ 10 ∷ lines.ahead) carrying.now → IsOneLine lines.line → Reads (carried_text carrying.now.version) lines.line None → CameSays config from result carrying.now lines now }
    ensures reads { (failed : ℕ) → ReadsBy failed result failed }
    ensures last { result ≢ Ok Carried }
{
    if carrying.is_complete() {
        Ok(Came::Other)
    } else {
        Err(broken(carrying.count))
    }
}

// The text ends without a line feed.
fn end_here(carrying: &Carrying<'_>, rest: &[u8]) -> Result<Came, RecoveryError>
    requires few { carrying.now.whole < MOST_WHOLE }
    requires short { length rest.now ≤ LONGEST_LINE }
    ensures says { (config : Setup) (from now : Option (List ℕ)) (lines : LinesState) → lines.line ≡ rest.now → CarriesAt config from now lines.line carrying.now → IsAtEnd now → IsOneLine lines.line → CameSays config from result carrying.now lines now }
    ensures reads { (failed : ℕ) → ReadsBy failed result failed }
    ensures last { result ≢ Ok Carried }
    ensures other { result ≢ Ok Other }
{
    if !carrying.is_complete() {
        return Err(broken(carrying.count));
    }
    if is_torn(rest) {
        Ok(Came::End)
    } else {
        Err(broken(carrying.count))
    }
}
