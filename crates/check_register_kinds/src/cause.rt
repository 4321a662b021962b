// Why a check fails.

use std::fmt;

/// What a check of one instruction finds. The text is the fault's code.
#[derive(Clone, Copy, Debug, PartialEq, Eq)]
pub enum Cause {
    /// V1: a register that is read is unwritten.
    UnwrittenRegister,
    /// V2: a stack byte that is read is unwritten, also by a trace call.
    UnwrittenByte,
    /// V3: an access outside the context and the live frames, or through what is no address; or an address that leaves
    /// its region.
    AccessOutside,
    /// V4: a store to the context.
    StoreToContext,
    /// V5: an address or a freeze is computed with or compared, but for an address plus or minus a number and for the
    /// test of a freeze for 0.
    AddressAsNumber,
    /// V6: there is no helper of the number, or a local function is called, which this version does not follow.
    UnknownHelper,
    /// V7: a helper's argument is against its rule.
    ArgumentAgainstRule,
    /// V8: a freeze is held, or may be, at the exit.
    FreezeHeld,
    /// V9: the CCB is not disposed of at the exit.
    NotDisposed,
    /// V10: the CCB is disposed of twice.
    DisposedTwice,
    /// V11: joining paths disagree on the freezes held or on the CCB's disposal.
    PathsDisagree,
    /// V12: a freeze is taken where as many as a run holds are held, or may be.
    TooManyFreezes,
    /// V13: an address or a freeze is stored where it cannot be loaded again, or is read otherwise.
    AddressStored,
    /// V14: R0 at the exit is no number.
    NoResult,
}

impl fmt::Display for Cause {
    ghost use Rattle.std.specs.Prelude.{Some};
    ghost use Rattle.check_register_kinds.specs.CauseText.{cause_text};

    ghost output = { λ cause. Some (cause_text cause) };

    fn fmt<W: fmt::Write>(&self, f: &mut fmt::Formatter<W>) -> fmt::Result {
        f.write_str(match self {
            Cause::UnwrittenRegister => "V1",
            Cause::UnwrittenByte => "V2",
            Cause::AccessOutside => "V3",
            Cause::StoreToContext => "V4",
            Cause::AddressAsNumber => "V5",
            Cause::UnknownHelper => "V6",
            Cause::ArgumentAgainstRule => "V7",
            Cause::FreezeHeld => "V8",
            Cause::NotDisposed => "V9",
            Cause::DisposedTwice => "V10",
            Cause::PathsDisagree => "V11",
            Cause::TooManyFreezes => "V12",
            Cause::AddressStored => "V13",
            Cause::NoResult => "V14",
        })
    }
}
