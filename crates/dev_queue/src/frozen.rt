// What a queue has to know of freezes to start a CCB: how many it has, and how many its controller.

ghost use Rattle.std.specs.Prelude.{◌≡◌, ℕ};

/// Whoever knows how often a device queue and its controller are frozen. Contracts call these numbers `frozen_count` and
/// `controller_count`.
pub trait Frozen {
    ghost frozen_count: { Self → ℕ };

    ghost controller_count: { Self → ℕ };

    /// How many freezes the queue has, from 0. It is frozen where this is not 0.
    fn frozen(&self) -> u32
        ensures { result ≡ frozen_count self.now };

    /// How many freezes the controller has that the queue is under; 0 where there is none.
    fn controller_frozen(&self) -> u32
        ensures { result ≡ controller_count self.now };
}
