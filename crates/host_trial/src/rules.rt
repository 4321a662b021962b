// When a device fails, as time goes on: each of its failures with how often it came, and with when it healed. It relies on `trial_disks` for
// failures.

use trial_disks::Failure;

/// A start of a CCB at a device.
#[derive(Clone, Copy)]
pub(crate) struct Start {
    /// The time.
    pub(crate) now: u64,
    /// The address that is asked for.
    pub(crate) address: u64,
    /// How often the CCB was started before.
    pub(crate) tries: u64,
    /// How many CCBs are active, with this one.
    pub(crate) active: u64,
    /// What the host was advised to do before; 0 if nothing.
    pub(crate) advice: u64,
}

impl Start {
    /// The same, so much later.
    pub(crate) fn later(self, wait: u64) -> Self {
        Start {
            now: self.now.saturating_add(wait),
            address: self.address,
            tries: self.tries,
            active: self.active,
            advice: self.advice,
        }
    }
}

/// A failure, and what became of it.
#[derive(Drop)]
pub(crate) struct Rule<'a> {
    pub(crate) failure: &'a Failure,
    /// How often it came.
    pub(crate) count: u64,
    /// When it is healed, if that is known.
    pub(crate) healed: Option<u64>,
}

impl<'a> Rule<'a> {
    /// A failure that has not come yet.
    pub(crate) fn new(failure: &'a Failure) -> Self {
        Rule {
            failure,
            count: 0,
            healed: None,
        }
    }

    /// Takes the advice that came with a start, and returns for how long the host is at what was advised, before the device gets the
    /// request.
    pub(crate) fn obey(&mut self, start: Start) -> u64 {
        if start.advice != 0 && start.advice == self.failure.heals_on_advice {
            self.heal(start.now);
            self.rest(start.now)
        } else {
            0
        }
    }

    /// Whether a start meets the failure, its share aside.
    pub(crate) fn is_met(&self, start: Start) -> bool {
        if self.is_healed(start.now) {
            return false;
        }
        is_in_window(self.failure, start.now) && is_meant(self.failure, start)
    }

    /// Counts that it came once more.
    pub(crate) fn came(&mut self, now: u64) {
        self.count = self.count.saturating_add(1);
        if self.count >= self.failure.heals_after {
            self.heal(now);
        }
    }

    // It heals now, or so long after; once it is known when, that stays.
    fn heal(&mut self, now: u64) {
        if self.healed.is_none() {
            self.healed = Some(now.saturating_add(self.failure.heals_in));
        }
    }

    // For how long it is not healed yet.
    fn rest(&self, now: u64) -> u64 {
        match self.healed {
            Some(moment) => moment.saturating_sub(now),
            None => 0,
        }
    }

    fn is_healed(&self, now: u64) -> bool {
        match self.healed {
            Some(moment) => moment <= now,
            None => false,
        }
    }
}

// Whether the moment is in the window.
fn is_in_window(failure: &Failure, now: u64) -> bool {
    let moment = if failure.period == 0 {
        now
    } else {
        now % failure.period
    };
    failure.from <= moment && moment < failure.until
}

// Whether it is a start that the failure is about.
fn is_meant(failure: &Failure, start: Start) -> bool {
    failure.first <= start.address
        && start.address <= failure.last
        && failure.over < start.active
        && start.tries < failure.tries
}
