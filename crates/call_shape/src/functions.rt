// The functions of a program: which one each slot is of (RFC 9669, section 4.3.2).

ghost use Rattle.std.specs.Prelude.{◌≡◌, ℕ, ◌+◌, ◌<◌, ◌≤◌, length, slice_index_or, false};
ghost use Rattle.bpf_insn.specs.declared.program.TheConstants.{MAX_SLOTS};
ghost use Rattle.call_shape.specs.Calls.{callee_at, is_called_in, function_of};
ghost use Rattle.call_shape.specs.Shape.{is_function_end};
ghost use Rattle.call_shape.specs.Tables.{AreFunctions};

use bpf_insn::{Callee, Insn, MAX_SLOTS, Program, jump_target};

/// The function of each slot, by the slot where it starts.
pub(crate) fn functions_of(program: &Program) -> [u16; MAX_SLOTS]
    ensures { AreFunctions program.now result }
{
    let called = called_slots(program);
    let mut functions = [0u16; MAX_SLOTS];
    for slot in 1..program.len() {
        let starts = called[slot] && program.fetch(slot).is_some();
        functions[slot] = if starts {
            slot as u16
        } else {
            functions[slot - 1]
        };
    }
    functions
}

// To which slots local calls lead.
fn called_slots(program: &Program) -> [bool; MAX_SLOTS]
    ensures whole { length result ≡ MAX_SLOTS }
    ensures called { (slot : ℕ) → slot < MAX_SLOTS → slice_index_or result slot false ≡ is_called_in program.now (length program.now) slot }
{
    let mut called = [false; MAX_SLOTS];
    for place in 0..program.len() {
        if let Some(callee) = callee_at(program, place)
            && callee < MAX_SLOTS
        {
            called[callee] = true;
        }
    }
    called
}

/// Where the local call at a place leads, if one is there.
pub(crate) fn callee_at(program: &Program, place: usize) -> Option<usize>
    ensures { result ≡ callee_at program.now place }
{
    match program.fetch(place)? {
        Insn::Call(Callee::Local(distance)) => Some(jump_target(place, distance)),
        _ => None,
    }
}

/// The slot after the last one of the function that starts at a slot.
pub(crate) fn function_end(
    program: &Program,
    functions: &[u16; MAX_SLOTS],
    function: usize,
) -> usize
    requires functions { AreFunctions program.now functions.now }
    requires function { function_of program.now function ≡ function }
    requires inside { function < length program.now }
    ensures within { result ≤ length program.now }
    ensures behind { function < result }
    ensures own { (slot : ℕ) → function ≤ slot → slot < result → function_of program.now slot ≡ function }
    ensures others { (slot : ℕ) → slot < length program.now → function_of program.now slot ≡ function → slot < result }
{
    for slot in function + 1..program.len() {
        if usize::from(functions[slot]) != function {
            return slot;
        }
    }
    program.len()
}

/// Whether the function before a slot does not go on there.
pub(crate) fn is_function_end(program: &Program, functions: &[u16; MAX_SLOTS], slot: usize) -> bool
    requires { AreFunctions program.now functions.now }
    ensures { result ≡ is_function_end program.now slot }
{
    program.len() <= slot || function_at(program, functions, slot) == slot
}

/// The function of a slot. What lies after the program counts to its last one.
pub(crate) fn function_at(program: &Program, functions: &[u16; MAX_SLOTS], slot: usize) -> usize
    requires { AreFunctions program.now functions.now }
    ensures { result ≡ function_of program.now slot }
{
    usize::from(functions[slot.min(program.len() - 1)])
}
