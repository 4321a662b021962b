// The answers that were given to lines, which memory has no more: only proofs see them. It relies on `host_live` for why a line is not carried
// out.

ghost use Rattle.std.specs.Prelude.{◌≡◌, ◌+◌, ◌++◌, ◌∷◌, [], ℕ, List};
ghost use Rattle.host_live.specs.Answering.{Answer};
ghost use Rattle.host_journal.specs.Answered.{fault_of_code};

use host_live::LineFault;
use std::marker::Model;

/// The answers, in their order, and how many bytes were appended so far. It takes no bytes.
#[derive(Drop)]
pub(crate) struct Answered {
    ghost given: { List Answer },
    ghost place: { ℕ },
}

impl Model for Answered {
    ghost use base.Fml.{ftrue};

    ghost also_owns = { λ _. ftrue };
}

impl Answered {
    /// None yet, and nothing was appended.
    pub(crate) fn none() -> Self
        ensures { result ≡ record { given = []; place = 0 } }
    {
        Answered {}
    }

    /// When so many bytes more were appended.
    pub(crate) fn after(&self, count: usize) -> Self
        ensures { result ≡ record { given = self.now.given; place = self.now.place + count } }
    {
        Answered {}
    }

    /// With the answer to the line of that number, by the code of why it was not carried out.
    pub(crate) fn and_one(&self, line: usize, code: u8) -> Self
        ensures { result ≡ record { given = self.now.given ++ record { line = line; fault = fault_of_code code; behind = self.now.place } ∷ []; place = self.now.place } }
    {
        Answered {}
    }
}

/// A number for why a line is not carried out: 0, if it is.
pub(crate) fn code_of(fault: Option<LineFault>) -> u8
    ensures { fault_of_code result ≡ fault }
{
    match fault {
        None => 0,
        Some(LineFault::Form) => 1,
        Some(LineFault::NotHeld) => 2,
        Some(LineFault::RunLive) => 3,
        Some(LineFault::DoesNotFit) => 4,
        Some(LineFault::Manifest) => 5,
    }
}
