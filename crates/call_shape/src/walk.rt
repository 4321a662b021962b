// A walk over the functions of a program that settles each after those that it calls, or finds a cycle of calls. It
// relies on `functions` and `postorder`.

ghost use Rattle.std.specs.Prelude.{◌≡◌, ℕ, ◌<◌, ◌≤◌, true, false, replicate, length, Some, OnOk, IfOk, IfErr};
ghost use Rattle.bpf_insn.specs.Program.{IsProgram};
ghost use Rattle.bpf_insn.specs.declared.program.TheConstants.{MAX_SLOTS};
ghost use Rattle.call_shape.specs.Calls.{callee_at, is_start, function_of, IsOnCycle};
ghost use Rattle.call_shape.specs.Shape.{AreFound};
ghost use Rattle.call_shape.specs.Tables.{AreFunctions};

use crate::functions::{callee_at, function_end};
use crate::postorder::Postorder;
use bpf_insn::{MAX_SLOTS, Program};

/// How far a walk has come.
#[derive(Debug, Drop)]
pub(crate) struct Walk {
    // by the slots where they start, the functions that the walk has come to
    entered: [bool; MAX_SLOTS],
    // the places that it has settled
    settled: [bool; MAX_SLOTS],
    // these in their order
    order: Postorder,
}

impl Walk {
    ghost use Rattle.call_shape.specs.Walk.{is_marked, IsWalk, IsOrderOf, OpenComeTo, WalkContinues, with_settled};

    /// The places of a program, each after all that control may reach from it, or a local call that lies on a cycle of
    /// calls.
    pub(crate) fn postorder_of(
        program: &Program,
        functions: &[u16; MAX_SLOTS],
    ) -> Result<Postorder, usize>
        requires program { IsProgram program.now }
        requires functions { AreFunctions program.now functions.now }
        requires found { AreFound program.now }
        ensures order { IfOk result (IsOrderOf program.now) }
        ensures cycle { IfErr result (IsOnCycle program.now) }
    {
        let mut walk = Walk::new();
        for function in 0..program.len() {
            if usize::from(functions[function]) == function && !walk.entered[function] {
                walk.visit(program, functions, function)?;
            }
        }
        let Walk { order, .. } = walk;
        Ok(order)
    }

    // Nowhere yet.
    fn new() -> Self
        ensures entered { result.entered ≡ replicate MAX_SLOTS false }
        ensures settled { result.settled ≡ replicate MAX_SLOTS false }
        ensures places { length result.order.places ≡ MAX_SLOTS }
        ensures empty { result.order.count ≡ 0 }
    {
        Walk {
            entered: [false; MAX_SLOTS],
            settled: [false; MAX_SLOTS],
            order: Postorder::new(),
        }
    }

    // Settles the places of a function from its end backward, with all functions that it calls, or gives a local call
    // that lies on a cycle.
    #[cycle(walk)]
    fn visit(
        &mut self,
        program: &Program,
        functions: &[u16; MAX_SLOTS],
        function: usize,
    ) -> Result<(), usize>
        requires program { IsProgram program.now }
        requires functions { AreFunctions program.now functions.now }
        requires found { AreFound program.now }
        requires starts { is_start program.now function ≡ true }
        requires inside { function < length program.now }
        requires fresh { is_marked self.old.entered function ≡ false }
        requires walk { IsWalk program.now self.old }
        requires open_ones { OpenComeTo program.now self.old function }
        ensures walk { OnOk result (IsWalk program.now self.new) }
        ensures settled { OnOk result (is_marked self.new.settled function ≡ true) }
        ensures goes_on { OnOk result (WalkContinues program.now (λ _. ⊥) self.old self.new) }
        ensures cycle { IfErr result (IsOnCycle program.now) }
    {
        self.entered[function] = true;
        for place in (function..function_end(program, functions, function)).rev() {
            if program.fetch(place).is_some() {
                self.visit_callee(program, functions, place)?;
                self.settle(place);
            }
        }
        Ok(())
    }

    // Visits the function that the instruction at a place calls, unless it is settled.
    #[cycle(walk)]
    fn visit_callee(
        &mut self,
        program: &Program,
        functions: &[u16; MAX_SLOTS],
        place: usize,
    ) -> Result<(), usize>
        requires program { IsProgram program.now }
        requires functions { AreFunctions program.now functions.now }
        requires found { AreFound program.now }
        requires walk { IsWalk program.now self.old }
        requires open_ones { OpenComeTo program.now self.old (function_of program.now place) }
        ensures walk { OnOk result (IsWalk program.now self.new) }
        ensures settled { OnOk result ((callee : ℕ) → callee_at program.now place ≡ Some callee → is_marked self.new.settled callee ≡ true) }
        ensures goes_on { OnOk result (WalkContinues program.now (λ _. ⊥) self.old self.new) }
        ensures cycle { IfErr result (IsOnCycle program.now) }
    {
        let Some(callee) = callee_at(program, place) else {
            return Ok(());
        };
        if self.settled[callee] {
            return Ok(());
        }
        if self.entered[callee] {
            return Err(place);
        }
        self.visit(program, functions, callee)
    }

    // Settles a place.
    fn settle(&mut self, place: usize)
        requires place { place < MAX_SLOTS }
        requires room { self.old.order.count < MAX_SLOTS }
        ensures { self.new ≡ with_settled self.old place }
    {
        self.settled[place] = true;
        self.order.push(place);
    }
}
