// The rule of the inbox's queue, and what its two steps, a put and a take, tell.
// It relies on `crossbeam_queue`, whose queue keeps the rule whatever its threads do.
use crate::account::{Shape, View};
use ccb::Completion;
use crossbeam_queue::protocol::{Join, Lesson, Outcome, Protocol, Split};
use crossbeam_queue::{Pass, RuledArrayQueue};
use std::marker::{Brand, PhantomData};

/// What was taken is a beginning of what was put, and each seat's knowledge is so.
pub struct InOrder;

impl Protocol<Completion, View> for InOrder {
    ghost use Rattle.inbox.specs.Seats.{Kept, opening};

    ghost holds = { Kept };

    ghost first = { opening };
}

pub type Queue = RuledArrayQueue<Completion, View, InOrder>;

pub type Seat = Pass<Completion, View>;

/// The shape that an inbox is made with, for its proof.
pub trait Shaped {
    ghost use Rattle.inbox.specs.declared.account.Shape.{Shape};

    ghost shape: { Shape };
}

impl Shaped for Brand {
    ghost use Rattle.inbox.specs.Seats.{no_shape};

    ghost shape = { no_shape };
}

/// The first seat is to make the passes, and the second is used up.
pub struct Opens<S: Shaped>(PhantomData<S>);

impl<S: Shaped> Split<View> for Opens<S> {
    ghost use Rattle.inbox.specs.Seats.{keeping, spent};

    ghost left = { λ v. keeping S.shape 0 };

    ghost right = { λ v. spent };
}

/// One more pass is made.
pub struct Makes;

impl Split<View> for Makes {
    ghost use Rattle.std.specs.Prelude.{◌+◌, []};
    ghost use Rattle.inbox.specs.Seats.{keeping, holding, new_account};

    ghost left = { λ v. keeping v.account.shape (v.made + 1) };

    ghost right = { λ v. holding (new_account v.account.shape v.made) [] [] };
}

/// A pass takes another in, which is used up.
pub struct Returns;

impl Join<View> for Returns {
    ghost use Rattle.std.specs.Prelude.{◌∷◌};
    ghost use Rattle.inbox.specs.Seats.{holding, spent};

    ghost both = { λ v w. holding v.account (w.account ∷ v.back) v.rest };

    ghost spent = { spent };
}

/// A pass tells what it saw and what it was told, and another pass learns it.
pub struct Tells;

impl Split<View> for Tells {
    ghost use Rattle.inbox.specs.InboxLists.{known_by};
    ghost use Rattle.inbox.specs.Seats.{telling};

    ghost left = { λ v. v };

    ghost right = { λ v. telling (known_by v.account) };
}

impl Join<View> for Tells {
    ghost use Rattle.inbox.specs.InboxLists.{learned};
    ghost use Rattle.inbox.specs.Seats.{holding, spent};

    ghost both = { λ v w. holding (learned v.account w.account.told) v.back v.rest };

    ghost spent = { spent };
}

/// A pass puts a completion.
pub struct Putting;

impl Outcome<Completion, View> for Putting {
    ghost use Rattle.std.specs.Prelude.{◌≡◌, []};
    ghost use Rattle.inbox.specs.InboxLists.{IsPut};
    ghost use Rattle.inbox.specs.Seats.{holding};

    ghost then = { λ v x w. (w ≡ holding w.account [] []) × IsPut v.account w.account x };
}

impl Lesson<Completion, View> for Putting {
    ghost use Rattle.inbox.specs.Seats.{Knows};

    ghost fact = { λ v items. Knows v.account items };
}

/// A pass takes a completion.
pub struct Taking;

impl Outcome<Completion, View> for Taking {
    ghost use Rattle.std.specs.Prelude.{◌≡◌, []};
    ghost use Rattle.inbox.specs.InboxLists.{Takes};
    ghost use Rattle.inbox.specs.Seats.{holding};

    ghost then = { λ v x w. (w ≡ holding w.account [] []) × Takes v.account w.account x };
}

impl Lesson<Completion, View> for Taking {
    ghost use Rattle.inbox.specs.Seats.{Knows};

    ghost fact = { λ v items. Knows v.account items };
}

/// The pass that took the others in takes out what is left.
pub struct Emptying;

impl Outcome<Completion, View> for Emptying {
    ghost use Rattle.std.specs.Prelude.{◌≡◌, ◌≤◌, [], ◌∷◌, ◌++◌, length};
    ghost use Rattle.inbox.specs.Seats.{holding};

    ghost then = { λ v x w. (w ≡ holding v.account v.back (v.rest ++ x ∷ [])) × (length w.rest ≤ v.account.shape.capacity) };
}

impl Lesson<Completion, View> for Emptying {
    ghost use Rattle.std.specs.Prelude.{◌∷◌, ◌++◌};
    ghost use Rattle.inbox.specs.InboxLists.{Settles};

    ghost fact = { λ v items. Settles v.account.shape (v.account ∷ v.back) (v.rest ++ items) };
}
