// The law of which timer is next, the contract of a function without arguments.

ghost use Rattle.timer_events.specs.Next.{NextIsOne};

/// At one clock reading, no two entries are both next: so the one that goes is determined.
pub fn one_next()
    ensures { NextIsOne }
{}
