// What a helper call makes of what is known of a machine, by the row of its helper. It relies on `check_description` for what is
// known of a machine, on `check_register_kinds` for what is known of one register and of freezes, and on `helpers` for what calls
// ask.
#![tactic(auto)]

mod arguments;
mod calls;
mod saved;

pub use calls::call;
