// The checks of the crates below the engine that no command shows. It prints the name of each that fails, and how many pass; with a word it
// runs the check of that name alone. It relies on these crates.
#![tactic(auto)]

mod chunks;
mod decoding;
mod instructions;
mod ledger_calls;
mod structure;
mod tokens;
mod verdicts;
mod waiting;

use std::alloc::{AllocError, Global};
use std::io;
use std::process::ExitCode;
use test_tally::{Tally, is_wanted, words};

/// A check.
#[derive(Clone, Copy, Debug, PartialEq, Eq)]
enum Check {
    Heap,
    Keys,
    Ledger,
    Chunks,
    Tokens,
    Decoding,
    Builder,
    Programs,
    SelfJump,
    Verdicts,
    LocalCall,
    DeadCode,
    PairsOfJumps,
    Spills,
}

/// All checks, with their names.
const CHECKS: [(&str, Check); 14] = [
    ("a_heap_answers_as_a_plain_list_does", Check::Heap),
    ("a_ledger_answers_as_a_plain_list", Check::Ledger),
    ("keys_are_used_again", Check::Keys),
    ("pushed_and_memory_refused_once", Check::Chunks),
    ("tells_where_each_token_stands", Check::Tokens),
    ("decoded_and_memory_refused_once", Check::Decoding),
    ("built_and_memory_refused_once", Check::Builder),
    ("compares_by_instructions", Check::Programs),
    ("self_jump", Check::SelfJump),
    ("one_accepted_and_one_refused", Check::Verdicts),
    ("a_local_call", Check::LocalCall),
    ("dead_code_is_not_checked", Check::DeadCode),
    ("pairs_of_jumps", Check::PairsOfJumps),
    ("spilled_and_memory_refused_once", Check::Spills),
];

impl Check {
    // Whether it holds. Where an allocation is refused twice it does not.
    fn holds(self, alloc: Global) -> Result<bool, AllocError> {
        match self {
            Check::Heap => waiting::a_heap_answers_as_a_plain_list_does(alloc),
            Check::Ledger => ledger_calls::a_ledger_answers_as_a_plain_list(alloc),
            Check::Keys => ledger_calls::keys_are_used_again(alloc),
            Check::Chunks => chunks::pushed(alloc),
            Check::Tokens => tokens::tells_where_each_token_stands(alloc),
            Check::Decoding => decoding::goes_on_after_want_of_memory(alloc),
            Check::Builder => instructions::goes_on_after_want_of_memory(alloc),
            Check::Programs => instructions::compares_by_instructions(alloc),
            Check::SelfJump => structure::self_jump(alloc),
            Check::Verdicts => verdicts::one_accepted_and_one_refused(alloc),
            Check::LocalCall => verdicts::a_local_call(alloc),
            Check::DeadCode => verdicts::dead_code(alloc),
            Check::PairsOfJumps => verdicts::pairs_of_jumps(alloc),
            Check::Spills => verdicts::spilled(alloc),
        }
    }
}

fn main(rt: HostRuntime) -> io::Result<ExitCode> {
    let wanted = words(&rt)?;
    let mut tally = Tally::default();
    for (name, check) in CHECKS {
        if is_wanted(&wanted, name) {
            let holds = check.holds(rt.alloc()).unwrap_or(false);
            tally.see(&rt, name, holds)?;
        }
    }
    tally.end(&rt)
}
