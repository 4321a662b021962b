// A text that goes to an outlet whole. It relies on `outlet`.

ghost use Rattle.std.specs.Prelude.{◌≡◌};
ghost use Rattle.trace.specs.Sinks.{HandsOn};

use crate::outlet::Outlet;
use trace::WriteFailed;

/// Puts all of a text to an outlet. If a write fails, it returns how many of its bytes were taken.
pub fn put_all<S: Outlet>(text: &[u8], out: &mut S) -> Result<(), usize>
    ensures handed { HandsOn text.now (S.bytes out.old) (S.failures out.old) result (S.bytes out.new) (S.failures out.new) }
    ensures answers { S.answers out.new ≡ S.answers out.old }
{
    let mut taken = 0;
    while taken < text.len() {
        match out.take(&text[taken..]) {
            Ok(count) => taken += count,
            Err(WriteFailed) => return Err(taken),
        }
    }
    Ok(())
}
