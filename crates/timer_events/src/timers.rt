// The next timer of a ledger, and what a clock reading does to it. It relies on `freeze_ledger` for which timer goes first.

ghost use Rattle.std.specs.Prelude.{◌≡◌, ◌≤◌, ◌↔◌, false, length, IsNone, IfSome};
ghost use Rattle.freeze_ledger.specs.declared.ledger.TheConstants.{MAX_FREEZES};
ghost use Rattle.freeze_ledger.specs.Freezes.{due_at, not_due_at};
ghost use Rattle.freeze_ledger.specs.State.{with_freezes};
ghost use Rattle.timer_events.specs.Next.{IsNext, some_due};

use freeze_ledger::Ledger;

/// The number of the entry that goes next by its timer at the clock reading `reading`, in milliseconds: of the timers
/// that are due at or before it, the one of the least time, and among these that of the lowest number. `None` exactly
/// where none is due. It reads the first deadline alone.
pub fn next_due(ledger: &Ledger, reading: u64) -> Option<u32>
    ensures next { IfSome result (IsNext reading ledger.now.freezes) }
    ensures none { IsNone result ↔ (some_due reading ledger.now.freezes ≡ false) }
{
    let (due, number) = ledger.first_deadline()?;
    if due <= reading { Some(number) } else { None }
}

/// Removes the entries whose timers are due at or before the clock reading `reading`, in milliseconds, each in its
/// turn, and no others; answers how many these were, at most 1024.
pub fn expire_due(ledger: &mut Ledger, reading: u64) -> u32
    ensures others { ledger.new ≡ with_freezes ledger.old (not_due_at reading ledger.old.freezes) }
    ensures count { result ≡ length (due_at reading ledger.old.freezes) }
    ensures bound { result ≤ MAX_FREEZES }
{
    ledger.numbers_rise();
    let entries = ledger.len();
    while let Some(number) = next_due(ledger, reading) {
        ledger.expire(number);
    }
    (entries - ledger.len()) as u32
}
