// A writer as a sink. It relies on `trace` for what a sink is, on `host_live` for what a live engine asks of one, and on `host_journal` for
// how an answer is spelled.

ghost use Rattle.std.specs.Prelude.{◌≡◌, ◌≤◌, length, MatchResult};
ghost use Rattle.cli_commands.specs.Writing.{Writes};
ghost use Rattle.trace.specs.Growing.{FailsBySink};
ghost use Rattle.trace.specs.Sinks.{HasFailed};

use host_journal::answer_to;
use host_live::{LineFault, Outlet};
use std::io;
use std::io::{ErrorKind, Write};
use trace::{Sink, WriteFailed};

/// A writer, how often it failed, counted up to 2^64 - 1, and why it did so last. A write that was interrupted is tried again, and is
/// none that failed.
#[derive(Drop)]
pub struct WriterSink<'a, W: Write> {
    out: &'a mut W,
    failures: u64,
    last: io::Error,
}

impl<'a, W: Write> WriterSink<'a, W> {
    /// The writer, which did not fail yet.
    pub fn new(out: &'a mut W) -> Self
        ensures same { result.out.ghost_name ≡ out.entry.ghost_name }
        ensures bytes { W.contents result.out.now ≡ W.contents out.old }
        ensures none { result.failures ≡ 0 }
    {
        WriterSink {
            out,
            failures: 0,
            last: io::Error::from(ErrorKind::WriteZero),
        }
    }

    /// Why the writer failed, where it failed, and if it did so more than once, why at last.
    pub fn last_failure(&self) -> io::Error {
        self.last
    }
}

impl<W: Write> Sink for WriterSink<'_, W> {
    ghost bytes = { λ handing. W.contents handing.out.now };

    ghost failures = { λ handing. handing.failures };

    ghost origin = { λ handing. handing.out.ghost_name };

    fn write(&mut self, text: &[u8]) -> Result<usize, WriteFailed> {
        match written(self.out, text) {
            Ok(count) => Ok(count),
            Err(error) => {
                self.failures = one_more(self.failures);
                self.last = error;
                Err(WriteFailed)
            }
        }
    }
}

// The trace goes out as it is taken, and no line is answered.
impl<W: Write> Outlet for WriterSink<'_, W> {
    ghost use Rattle.std.specs.Prelude.{None};

    ghost bytes = { λ handing. W.contents handing.out.now };

    ghost failures = { λ handing. handing.failures };

    ghost origin = { λ handing. handing.out.ghost_name };

    ghost answers = { λ _. None };

    fn take(&mut self, text: &[u8]) -> Result<usize, WriteFailed> {
        self.write(text)
    }

    fn answered(&mut self, _line: usize, _fault: Option<LineFault>) -> Result<(), WriteFailed> {
        Ok(())
    }

    fn settle(&mut self) -> Result<(), WriteFailed> {
        Ok(())
    }
}

/// A writer to which the answers to lines go too, between the lines of the trace. So what is on it is no trace, and contracts do not see its
/// bytes. What is taken may be held back by the writer until nothing more comes for now.
#[derive(Drop)]
pub struct AnsweringSink<'a, W: Write> {
    sink: WriterSink<'a, W>,
}

impl<'a, W: Write> AnsweringSink<'a, W> {
    /// The writer, which did not fail yet.
    pub fn new(out: &'a mut W) -> Self {
        AnsweringSink {
            sink: WriterSink::new(out),
        }
    }

    // What the writer was asked for was done, or is one failure more.
    fn counted(&mut self, written: io::Result<()>) -> Result<(), WriteFailed>
        ensures failures { FailsBySink self.old.sink.failures result self.new.sink.failures }
        ensures same { self.new.sink.out.ghost_name ≡ self.old.sink.out.ghost_name }
    {
        match written {
            Ok(()) => Ok(()),
            Err(error) => {
                self.sink.failures = one_more(self.sink.failures);
                self.sink.last = error;
                Err(WriteFailed)
            }
        }
    }
}

impl<W: Write> Outlet for AnsweringSink<'_, W> {
    ghost use Rattle.std.specs.Prelude.{None};

    ghost bytes = { λ _. None };

    ghost failures = { λ answering. answering.sink.failures };

    ghost origin = { λ answering. answering.sink.out.ghost_name };

    ghost answers = { λ _. None };

    fn take(&mut self, text: &[u8]) -> Result<usize, WriteFailed> {
        self.sink.write(text)
    }

    fn answered(&mut self, line: usize, fault: Option<LineFault>) -> Result<(), WriteFailed> {
        let written = self.sink.out.write_all(answer_to(line, fault).as_slice());
        self.counted(written)
    }

    fn settle(&mut self) -> Result<(), WriteFailed> {
        let written = self.sink.out.flush();
        self.counted(written)
    }
}

// Writes some of these bytes, one at least, and tells how many; none where the writer failed, or takes no more.
fn written<W: Write>(out: &mut W, text: &[u8]) -> io::Result<usize>
    requires { 1 ≤ length text.now }
    ensures { Writes text.now (W.contents out.old) result (W.contents out.new) }
{
    for _ in 0..u64::MAX {
        match out.write(text) {
            Ok(0) => return Err(io::Error::from(ErrorKind::WriteZero)),
            Ok(count) => return Ok(count),
            Err(error) => {
                if error.kind() != ErrorKind::Interrupted {
                    return Err(error);
                }
            }
        }
    }
    Err(io::Error::from(ErrorKind::Interrupted))
}

fn one_more(failures: u64) -> u64
    ensures { HasFailed failures result }
{
    failures.saturating_add(1)
}
