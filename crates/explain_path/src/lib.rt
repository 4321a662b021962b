// What a verifier's pass over a program showed, for those who are told why a program is refused: each check with what was known
// there, and a path by which control comes to it. It relies on `verifier` for the pass, and on `call_shape` for static paths.
#![tactic(auto)]

mod budget;
mod log;
mod path;
mod registers;
mod sketch;
mod static_path;
mod ways;

pub use budget::longest_path;
pub use log::{Log, Sighting};
pub use path::{Path, path_to};
pub use registers::{Registers, written_by};
pub use sketch::Sketch;
pub use static_path::is_static_path;
pub use ways::Open;
