// The laws of lines with which no engine begins, each the contract of a function without arguments. They rely on the definitions alone.

ghost use Rattle.engine_succession.specs.FromLines.{NoneIsRefused, OneRefusal};

/// Lines are refused at one place at most.
pub fn one_refusal()
    ensures { OneRefusal }
{}

/// If lines are refused, no world that an engine of the setup may take over has just these lines. So of the same lines an engine begins, or
/// they are refused, and not both.
pub fn refused_lines_have_no_world()
    ensures { NoneIsRefused }
{}
