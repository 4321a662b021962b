// The laws of the machine, each the contract of a function without arguments.

ghost use Rattle.bpf_semantics.specs.Progress.{Progress};

/// A machine that is not stuck has exactly one next private step, or stands at a helper call whose rule
/// holds, or at the lawful outermost exit; and of these exactly one holds.
pub fn progress()
    ensures { Progress }
{}
