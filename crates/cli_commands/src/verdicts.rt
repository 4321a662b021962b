// The verdicts on a manifest's programs as text: a line a program. It relies on `manifest`.

use manifest::NamedProgram;
use std::io;
use std::io::Write;

/// Writes for each program, in order, that it is accepted, its budget in instructions, and its frames.
pub fn print<W: Write>(programs: &[NamedProgram], out: &mut W) -> io::Result<()> {
    for program in programs {
        writeln!(
            out,
            "{} accepted budget {} frames {}",
            program.name.as_str(),
            program.accepted.budget(),
            program.accepted.frames()
        )?;
    }
    Ok(())
}
