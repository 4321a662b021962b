// How many checks passed, and the names of those that failed, which a program of checks prints; and its words. It relies on nothing.
#![tactic(auto)]

ghost use Rattle.std.specs.Prelude.{◌≡◌, ◌<◌, ◌≤◌, ◌↔◌, IsTrue, false};

use std::process::ExitCode;
use std::rt::Env;
use std::{env, io};

/// How many checks passed, and how many failed; a number that would be more stays at the greatest.
#[derive(Clone, Copy, Default)]
pub struct Tally {
    pub passed: u64,
    pub failed: u64,
}

impl Tally {
    /// One check more, without a word of it.
    pub fn count(&mut self, passes: bool)
        ensures failed { passes ≡ false → 0 < self.new.failed }
        ensures kept { self.old.failed ≤ self.new.failed }
    {
        if passes {
            self.passed = self.passed.saturating_add(1);
        } else {
            self.failed = self.failed.saturating_add(1);
        }
    }

    /// Whether a check passed and none failed.
    pub fn is_good(&self) -> bool
        ensures { IsTrue result ↔ ((0 < self.now.passed) × (self.now.failed ≡ 0)) }
    {
        self.passed > 0 && self.failed == 0
    }

    /// One check more. The name of one that fails is printed.
    pub fn see<R: Print>(&mut self, rt: &R, name: &str, passes: bool) -> io::Result<()> {
        if !passes {
            println!(rt; "{name} failed")?;
        }
        self.count(passes);
        Ok(())
    }

    /// Prints how many passed. The status with which the program ends.
    pub fn end<R: Print>(&self, rt: &R) -> io::Result<ExitCode> {
        println!(rt; "{} checks passed", self.passed)?;
        Ok(if self.is_good() {
            ExitCode::SUCCESS
        } else {
            ExitCode::FAILURE
        })
    }
}

fn words_once<R: Env + AllocGlobal>(rt: &R) -> io::Result<Vec<String>> {
    Ok(env::args(rt)?.skip(1).collect(rt.alloc())?)
}

/// The words after the program's name. If memory is refused, the same call succeeds the second time.
pub fn words<R: Env + AllocGlobal>(rt: &R) -> io::Result<Vec<String>> {
    match words_once(rt) {
        Ok(words) => Ok(words),
        Err(_) => words_once(rt),
    }
}

/// Whether these words name a check; without a word each is wanted.
pub fn is_wanted(words: &[String], name: &str) -> bool {
    words.is_empty() || words.iter().any(|word| word.as_str() == name)
}
