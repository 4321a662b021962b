// Why a call was not carried out that takes memory and has faults of its own. It relies on nothing.
use std::alloc::AllocError;

/// Memory was refused, which says nothing of what the call was given; or the call's own fault.
#[derive(Debug, PartialEq, Eq, Drop)]
pub enum OrMemory<F> {
    OutOfMemory,
    Fault(F),
}

impl<F> From<AllocError> for OrMemory<F> {
    ghost use Rattle.std.specs.Prelude.{◌≡◌};
    ghost use Rattle.base.specs.declared.or_memory.OrMemory.TheVariants.{OutOfMemory};

    ghost from_gives = { λ _ error. error ≡ OutOfMemory };

    fn from(_: AllocError) -> Self {
        OrMemory::OutOfMemory
    }
}
