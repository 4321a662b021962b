// The verdict on a program. It relies on `call_shape` and `budget_path`, and on `pass` for the rest.

ghost use Rattle.std.specs.Prelude.{◌≡◌, IfOk, IfErr};
ghost use Rattle.base.specs.declared.or_memory.OrMemory.TheVariants.{OutOfMemory};
ghost use Rattle.verifier.specs.Arrives.{LacksMemoryOrMore};
ghost use Rattle.verifier.specs.Verdict.{IsVerdictOn, ToldOfChecks, ToldOfShape};
ghost use Rattle.verifier.specs.Plain.{IsPlain};

use crate::known::Spare;
use crate::pass::pass;
use crate::refusal::{Refusal, VerifyError};
use crate::witness::{Along, Nobody, Witness};
use base::OrMemory;
use bpf_accepted::Accepted;
use bpf_insn::Program;
use budget_path::budget;
use call_shape::{Shape, shape};
use helpers::HelperLimits;
use std::alloc::Global;

/// Accepts a program under these limits, or says why not. A shape fault comes first: it is answered exactly
/// where the shape has one. Then the instructions that a path leads to are checked, each once under each chain of local calls
/// that are open there: those of a function in the order of their slots, and those of one that it calls where the call is.
/// The first check that fails is told with its slot. None fails where what is known is always enough, and a plain program is
/// refused for no cause but memory. On an answer other than `Ok` nothing is kept.
pub fn verify(
    alloc: Global,
    program: &Program,
    limits: &HelperLimits,
) -> Result<Accepted, VerifyError>
    ensures verdict { IfOk result (IsVerdictOn program.now limits.now) }
    ensures shape { IfErr result (ToldOfShape program.now) }
    ensures plain { IfErr result (λ error. IsPlain program.now → error ≡ OutOfMemory) }
    ensures checks { IfErr result (ToldOfChecks program.now) }
{
    let (_, answer) = verify_before(alloc, program, limits, Nobody);
    answer
}

/// Answers as `verify`, which is this with `Nobody`, and shows each check and each way on to a witness, which comes back. No
/// clause says what it is shown, nor that the answer is the same with any witness: `test_hostile` compares.
pub fn verify_before<W: Witness + Drop>(
    alloc: Global,
    program: &Program,
    limits: &HelperLimits,
    witness: W,
) -> (W, Result<Accepted, VerifyError>)
    ensures verdict { IfOk result.1 (IsVerdictOn program.now limits.now) }
    ensures shape { IfErr result.1 (ToldOfShape program.now) }
    ensures plain { IfErr result.1 (λ error. IsPlain program.now → error ≡ OutOfMemory) }
    ensures checks { IfErr result.1 (ToldOfChecks program.now) }
{
    let shape = match shape(program) {
        Ok(shape) => shape,
        Err(fault) => return (witness, Err(OrMemory::Fault(Refusal::Shape(fault)))),
    };
    let spare = match Spare::new(alloc) {
        Ok(spare) => spare,
        Err(_) => return (witness, Err(OrMemory::OutOfMemory)),
    };
    let mut along = Along { spare, witness };
    match accept(alloc, limits, &shape, &mut along) {
        Ok(accepted) => (along.witness, Ok(accepted)),
        Err(error) => (along.witness, Err(error)),
    }
}

// The same of a program of lawful shape.
fn accept<W: Witness + Drop>(
    alloc: Global,
    limits: &HelperLimits,
    shape: &Shape<'_>,
    along: &mut Along<W>,
) -> Result<Accepted, VerifyError>
    ensures verdict { IfOk result (IsVerdictOn shape.now limits.now) }
    ensures fails { IfErr result (LacksMemoryOrMore shape.now) }
{
    let visits = pass(alloc, limits, shape, along)?;
    let budget = budget(alloc, shape)?;
    let program = shape.program().try_clone()?;
    let limits = limits.try_clone()?;
    Ok(Accepted::new(program, limits, budget, shape.frames(), visits))
}
