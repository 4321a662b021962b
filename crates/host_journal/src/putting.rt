// Puts a text on standard output. It relies on `disk`.

ghost use Rattle.std.specs.Prelude.{◌≡◌, ◌++◌, ℕ, Bool, List, MatchResult, OnErr, Option, false, true};
ghost use Rattle.host_journal.specs.Disks.{EndsIn, IsNotOut, Step, kept_so_far};
ghost use Rattle.host_journal.specs.Order.{At, IsCovered, sure};

use crate::disk::Disk;
use trace::WriteFailed;

/// Puts all of the text on standard output. If a write fails, a front of it is out, and that is the last step.
pub(crate) fn put_all<D: Disk>(disk: &mut D, text: &[u8]) -> Result<(), WriteFailed>
    ensures kept { kept_so_far (D.steps disk.new) ≡ kept_so_far (D.steps disk.old) }
    ensures which { D.segment disk.new ≡ D.segment disk.old }
    ensures lost { OnErr result (EndsIn IsNotOut (D.steps disk.old) (D.steps disk.new)) }
    ensures order { (is_synced : Bool) (first kept synced out : List ℕ) (before : Option (List Step)) → At is_synced first before (D.steps disk.old) kept synced out false
        → IsCovered first (first ++ sure is_synced kept synced) (out ++ text.now)
        → MatchResult result (λ _. At is_synced first before (D.steps disk.new) kept synced (out ++ text.now) false) (λ _. (some rest : List ℕ) × (text.now ≡ some ++ rest) × At is_synced first before (D.steps disk.new) kept synced (out ++ some) true) }
{
    let mut taken = 0;
    while taken < text.len() {
        match disk.put(&text[taken..]) {
            Ok(count) => taken += count,
            Err(WriteFailed) => return Err(WriteFailed),
        }
    }
    Ok(())
}
