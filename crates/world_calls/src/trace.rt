// A whole history with its sums, as an engine that is shut gives it. It relies on `record` and `totals`, on `helpers` for
// which helpers there are, and on `base_chunked_list`.

ghost use Rattle.std.specs.Prelude.{◌≡◌};
ghost use Rattle.world_calls.specs.Versions.{version_in};

use crate::record::Record;
use crate::totals::Totals;
use base_chunked_list::ChunkedList;
use helpers::HelperSet;

/// Which vocabulary a history has.
#[derive(Clone, Copy, Debug, PartialEq, Eq)]
pub enum Version {
    /// What freezes is a device queue.
    One,
    /// What freezes is a device queue or a controller.
    Two,
    /// What freezes is a device queue or a controller, and CCBs have a class and an advice.
    Three,
}

impl Version {
    /// That of the histories of an engine whose programs may call these helpers.
    pub fn of(helpers: HelperSet) -> Self
        ensures { result ≡ version_in helpers }
    {
        match helpers {
            HelperSet::Queues => Version::One,
            HelperSet::Controllers => Version::Two,
            HelperSet::Classes => Version::Three,
        }
    }
}

/// A whole history with its sums.
#[derive(Debug, Drop)]
pub struct Trace {
    pub version: Version,
    pub records: ChunkedList<Record>,
    pub totals: Totals,
}
