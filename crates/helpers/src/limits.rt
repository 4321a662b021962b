// What the rules of the helper calls depend on, beside the run: which helpers there are, and what a call may name. It relies
// on `table` for the helpers.

ghost use Rattle.std.specs.Prelude.{◌≡◌, ◌↔◌, nat_eq, IsTrue, IfOk};
ghost use Rattle.std.specs.Cmp.Lexicographic.{pointwise, lists_per, lists_equiv, nat_list_eq_equiv};
ghost use Rattle.std.specs.Cmp.{partial_equiv_from_equiv};
ghost use Rattle.helpers.specs.Table.{are_classed, helper_count, is_there};

use crate::table::{CLASS_HELPERS, CONTROLLER_HELPERS, Helper, QUEUE_HELPERS};
use std::alloc::AllocError;
use std::marker::Model;

/// How many words each table has, in the order of the tables' numbers.
#[derive(Debug, Drop)]
pub struct TableLengths {
    lengths: Vec<u16>,
}

impl Model for TableLengths {
    ghost use Rattle.std.specs.Prelude.{List, ℕ};

    ghost Value = { List ℕ };

    ghost view = { λ tables. tables.lengths.items };
}

impl TableLengths {
    /// Tables of these lengths.
    pub fn new(lengths: Vec<u16>) -> Self
        ensures { result ≡ lengths.items }
    {
        TableLengths { lengths }
    }

    /// The lengths.
    pub fn as_slice(&self) -> &[u16]
        ensures { result.now ≡ self.now }
    {
        &self.lengths
    }

    /// A copy.
    pub fn try_clone(&self) -> Result<Self, AllocError>
        ensures { IfOk result (λ copy. copy ≡ self.now) }
    {
        Ok(TableLengths {
            lengths: self.lengths.clone()?,
        })
    }
}

impl PartialEq for TableLengths {
    ghost eq = { pointwise nat_eq };

    ghost laws = { partial_equiv_from_equiv nat_list_eq_equiv };

    /// Whether both are the same lengths in the same order.
    fn eq(&self, other: &Self) -> bool
        ensures tested { result ≡ pointwise nat_eq self.now other.now }
        ensures same { IsTrue result ↔ (self.now ≡ other.now) }
    {
        self.lengths == other.lengths
    }
}

impl Eq for TableLengths {
    ghost laws = { nat_list_eq_equiv };
}

/// Which helpers there are: those of the table with the numbers from 1 to some number.
#[derive(Clone, Copy, Debug, PartialEq, Eq)]
pub enum HelperSet {
    /// What freezes is a queue.
    Queues,
    /// What freezes is a queue or a controller.
    Controllers,
    /// What freezes is a queue or a controller, and CCBs have a class and an advice.
    Classes,
}

impl HelperSet {
    /// How many helpers there are, which is the greatest of their numbers.
    pub fn count(self) -> u8
        ensures { result ≡ helper_count self }
    {
        match self {
            HelperSet::Queues => QUEUE_HELPERS,
            HelperSet::Controllers => CONTROLLER_HELPERS,
            HelperSet::Classes => CLASS_HELPERS,
        }
    }

    /// Whether CCBs have a class and an advice.
    pub fn has_classes(self) -> bool
        ensures { result ≡ are_classed self }
    {
        match self {
            HelperSet::Queues | HelperSet::Controllers => false,
            HelperSet::Classes => true,
        }
    }

    /// Whether that helper is there.
    pub fn has(self, helper: Helper) -> bool
        ensures { result ≡ is_there self helper }
    {
        helper.number() <= self.count()
    }
}

/// Which helpers there are, and what there is to name in a call. A program is accepted under such limits, and runs only where
/// they are the engine's.
#[derive(Debug, Drop, PartialEq, Eq)]
pub struct HelperLimits {
    /// Which helpers there are.
    pub helpers: HelperSet,
    /// How many device queues there are, 1 to 64.
    pub queues: u32,
    /// How many words each table has, 1 to 4096 each, of at most 16 tables.
    pub table_lengths: TableLengths,
}

impl HelperLimits {
    /// A copy.
    pub fn try_clone(&self) -> Result<Self, AllocError>
        ensures { IfOk result (λ copy. copy ≡ self.now) }
    {
        Ok(HelperLimits {
            helpers: self.helpers,
            queues: self.queues,
            table_lengths: self.table_lengths.try_clone()?,
        })
    }
}
