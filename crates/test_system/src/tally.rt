// How many cases passed, and how many came out otherwise. It relies on nothing.

ghost use Rattle.std.specs.Prelude.{◌≡◌, ◌<◌, ◌≤◌, ◌↔◌, IsTrue, false};

/// How many cases passed, and how many came out otherwise; a number that would be more stays at the greatest.
#[derive(Clone, Copy, Default)]
pub struct Tally {
    pub passed: u64,
    pub differ: u64,
}

impl Tally {
    /// One case more.
    pub fn count(&mut self, passes: bool)
        ensures differs { passes ≡ false → 0 < self.new.differ }
        ensures kept { self.old.differ ≤ self.new.differ }
    {
        if passes {
            self.passed = self.passed.saturating_add(1);
        } else {
            self.differ = self.differ.saturating_add(1);
        }
    }

    /// Whether a case passed and none came out otherwise.
    pub fn is_good(&self) -> bool
        ensures { IsTrue result ↔ ((0 < self.now.passed) × (self.now.differ ≡ 0)) }
    {
        self.passed > 0 && self.differ == 0
    }
}
