// Who is shown how a program is checked, while that is done. It relies on `check_description` for what is known.

use crate::known::Spare;
use check_description::Description;

/// Is shown each check of a pass and each way on. Nothing of the pass hangs on it.
pub trait Witness {
    /// The check of that number is made next: of the instruction at a slot, where that is known. Checks have the numbers from 0
    /// on, in their order.
    fn checks(&mut self, number: u32, slot: usize, known: &Description);

    /// By the instruction of that check control comes to a slot of its function, where that is known by this way alone.
    fn leads(&mut self, number: u32, slot: usize, known: &Description);

    /// By the exit of that check control comes back to a slot of its caller. That is known before it.
    fn leaves(&mut self, number: u32, slot: usize, known: &Description);
}

/// Nobody is shown anything.
#[derive(Clone, Copy, Debug)]
pub struct Nobody;

impl Witness for Nobody {
    fn checks(&mut self, _number: u32, _slot: usize, _known: &Description) {}

    fn leads(&mut self, _number: u32, _slot: usize, _known: &Description) {}

    fn leaves(&mut self, _number: u32, _slot: usize, _known: &Description) {}
}

/// What goes along with a pass: memory that is used again, and who is shown each check.
#[derive(Drop)]
pub(crate) struct Along<W: Drop> {
    pub(crate) spare: Spare,
    pub(crate) witness: W,
}
