// What is known of the order of writes, for its proof. It relies on nothing.

use std::marker::Brand;

/// The steps before the first write, the number of the segment, the first line that goes out, and whether the segment is to be synced before
/// anything goes out. Whoever serves passes `Brand` to a function over this, and picks them there.
pub trait Order {
    ghost use Rattle.std.specs.Prelude.{ℕ, Bool, List, Option};
    ghost use Rattle.host_journal.specs.Disks.{Step};

    ghost before: { Option (List Step) };

    ghost segment: { ℕ };

    ghost first: { List ℕ };

    ghost is_synced: { Bool };
}

impl Order for Brand {
    ghost use Rattle.std.specs.Prelude.{None, [], false};

    ghost before = { None };

    ghost segment = { 0 };

    ghost first = { [] };

    ghost is_synced = { false };
}
