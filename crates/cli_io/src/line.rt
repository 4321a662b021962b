// The words of the line. It relies on nothing.

use std::rt::Env;
use std::{env, io};

/// The words after the program's name. It fails for want of memory, or if one of them is not UTF-8.
pub fn words<R: Env + AllocGlobal>(rt: &R) -> io::Result<Vec<String>> {
    Ok(env::args(rt)?.skip(1).collect(rt.alloc())?)
}
