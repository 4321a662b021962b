// The ledger of freezes: each is an entry with a number, a place and a holder, and a place's frozen count is the number of
// its entries. It relies on `ccb` for the name of a queue and on `slab` for the keys of entries.
#![tactic(auto)]

mod chains;
mod deadline;
mod deadlines;
mod entries;
mod freeze;
mod freeze_token;
mod holders;
mod indexed;
mod ledger;

pub use freeze::{Freeze, Holder};
pub use freeze_token::FreezeToken;
pub use holders::Holders;
pub use ledger::{Ledger, MAX_FREEZE_NUMBER, MAX_FREEZES, MAX_PLACE_FREEZES};
