// Where bytes come from, and what a clock reads meanwhile. It relies on nothing.

ghost use Rattle.std.specs.Prelude.{◌≡◌, ◌≢◌, Bool, IfSome, IsTrue};
ghost use Rattle.host_live.specs.declared.input.Came.TheVariants.{End, Failed};

/// What came.
#[derive(Clone, Copy, Debug, PartialEq, Eq)]
pub enum Came {
    /// Bytes.
    Bytes,
    /// Nothing, until the clock read that, in milliseconds.
    Due(u64),
    /// The end: no bytes come any more.
    End,
    /// The input cannot be read.
    Failed,
}

/// Bytes that come piece by piece, and a clock, if there is one. Contracts see whether it could not be read, whether it is at its end, and the
/// bytes that came so far, where these are known (a list's are, a terminal's are not).
pub trait Input {
    ghost use Rattle.std.specs.Prelude.{Option};
    ghost use Rattle.host_live.specs.Inputs.{CameState, Comes};

    ghost has_failed: { Self → Bool };

    ghost has_ended: { Self → Bool };

    ghost came: { Self → Option CameState };

    /// Waits for bytes, which then stand in place of those that came before, and not longer than until the clock reads `until`, in
    /// milliseconds, if there is a clock and that is given.
    fn wait(&mut self, until: Option<u64>) -> Came
        ensures failed { result ≡ Failed → IsTrue (has_failed self.new) }
        // A read that fails is told by nothing else.
        ensures still { result ≢ Failed → has_failed self.new ≡ has_failed self.old }
        // So is the end.
        ensures ended { result ≡ End → IsTrue (has_ended self.new) }
        // A piece more came, or nothing.
        ensures comes { Comes (came self.old) result (came self.new) };

    /// The bytes that came last.
    fn bytes(&self) -> &[u8]
        ensures { IfSome (came self.now) (λ known. result.now ≡ known.piece) };

    /// What the clock reads, in milliseconds since the beginning; `None` where there is no clock.
    fn now(&self) -> Option<u64>;
}
