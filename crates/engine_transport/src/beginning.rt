// What a transport takes over from another one: the greatest numbers, the clock, the CCBs and the freezes. It relies on `transport` for the fields.

ghost use Rattle.std.specs.Prelude.{◌≡◌, ◌<◌, ◌≤◌, ◌↔◌, length, IfNone, IfSome, IsNone, IsTrue, OnErr, OnOk, OnSome};
ghost use Rattle.std.specs.Result.{result_err};
ghost use Rattle.ccb.specs.Places.{index_of, places_of};
ghost use Rattle.freeze_ledger.specs.Freezes.{meets_limit};
ghost use Rattle.world.specs.Capacities.{most_controllers};
ghost use Rattle.engine_transport.specs.Carrying.{carry_refusal, with_carried_ccb, with_carried_freeze};

use crate::live_ccb::LiveCcb;
use crate::queue_list::refusal;
use crate::transport::Transport;
use freeze_ledger::{Freeze, FreezeToken};
use world_calls::{CallRefusal, CarriedCcb};

impl Transport {
    /// The greatest number that was given to a CCB, 0 before the first.
    pub fn greatest_ccb(&self) -> u32
        ensures { result ≡ self.now.greatest_ccb }
    {
        self.ccbs.greatest()
    }

    /// The greatest number that was given to a freeze, 0 before the first.
    pub fn greatest_freeze(&self) -> u32
        ensures { result ≡ self.now.greatest_freeze }
    {
        self.ledger.greatest()
    }

    /// The numbers up to this one, which is at least the greatest given, are given to no further CCB.
    pub fn pass_over_ccbs(&mut self, number: u32)
        requires { self.old.greatest_ccb ≤ number }
        ensures { self.new ≡ record self.old { greatest_ccb = number } }
    {
        self.ccbs.pass_over(number);
    }

    /// The numbers up to this one, which is at least the greatest given, are given to no further freeze.
    pub fn pass_over_freezes(&mut self, number: u32)
        requires { self.old.greatest_freeze ≤ number }
        ensures { self.new ≡ record self.old { greatest_freeze = number } }
    {
        self.ledger.pass_over(number);
    }

    /// The clock goes on from this reading, in milliseconds. No freeze goes by it.
    pub fn set_clock(&mut self, reading: u64)
        ensures { self.new ≡ record self.old { clock = reading } }
    {
        self.clock = reading;
    }

    /// Takes over a CCB, whose number is above the greatest given: it waits, or is active whatever openings there are. C1 where there
    /// is no such queue, C2 where the queue has 256 live CCBs, or there are 4096 in all. A refusal changes nothing.
    pub fn carry(&mut self, carried: &CarriedCcb) -> Result<(), CallRefusal>
        requires { self.old.greatest_ccb < carried.now.number.0 }
        ensures fault { result_err result ≡ carry_refusal self.old carried.now }
        ensures carried { OnOk result (self.new ≡ with_carried_ccb self.old carried.now) }
        ensures refused { OnErr result (self.new ≡ self.old) }
    {
        if carried.queue.0 as usize >= self.queues.len() {
            return Err(CallRefusal::Unknown);
        }
        if self.ccbs.is_crowded() {
            return Err(CallRefusal::Limit);
        }
        match self.queues.carry(carried) {
            Err(fault) => Err(refusal(fault)),
            Ok(()) => {
                self.ccbs.pass_over(carried.number.0 - 1);
                self.ccbs.enter(LiveCcb::carried(carried));
                Ok(())
            }
        }
    }

    /// Takes over a freeze of a place that there is, whose number is above the greatest given: the right to give it back. `None`, which
    /// changes nothing, exactly at a limit: the place has 255 freezes, or there are 1024 in all.
    pub fn carry_freeze(&mut self, freeze: Freeze) -> Option<FreezeToken>
        requires place { index_of freeze.place < places_of (length self.old.openings) most_controllers }
        requires above { self.old.greatest_freeze < freeze.number }
        ensures limit { IsNone result ↔ IsTrue (meets_limit freeze.place self.old.freezes self.old.greatest_freeze) }
        ensures token { IfSome result (λ token. token ≡ freeze) }
        ensures carried { OnSome result (self.new ≡ with_carried_freeze self.old freeze) }
        ensures refused { IfNone result (self.new ≡ self.old) }
    {
        self.ledger.take_over(freeze)
    }
}
