// Who is told. It relies on `notice`.
use crate::notice::Notice;

/// Who wants to know now and then how far a work is. Any of the threads that do it may ask and tell; nothing of the work hangs on
/// the answers.
pub trait Notices {
    /// Whether a notice is wanted now. It is asked often.
    fn is_wanted(&self) -> bool;

    /// Tells one. It is for a thread that was just told that one is wanted.
    fn tell(&self, notice: Notice);
}

/// Nobody wants to know.
#[derive(Clone, Copy, Debug)]
pub struct Silent;

impl Notices for Silent {
    fn is_wanted(&self) -> bool {
        false
    }

    fn tell(&self, _notice: Notice) {}
}
