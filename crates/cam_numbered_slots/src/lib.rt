// Values that bear rising numbers, in slots: each stays where it stands until it is taken out, and only the index over them
// is searched and shifted. It relies on `ccb` for what rising numbers are.
#![tactic(auto)]

mod numbered_slots;
mod search;
mod slots;

pub use numbered_slots::NumberedSlots;
pub use search::{Numbered, place_for};
