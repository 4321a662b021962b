// What an engine is opened with. It relies on `given` for the queues as they are given, on `bpf_accepted` for accepted programs and
// on `helpers` for their limits.

ghost use Rattle.std.specs.Prelude.{◌≡◌, ◌<◌, ◌≤◌, ◌^◌, ◌↔◌, false, [], length, map, All, IsSome, IsTrue, IfSome, IfOk, None};
ghost use Rattle.std.specs.Arc.{arc_value};
ghost use Rattle.helpers.specs.declared.limits.HelperSet.TheVariants.{Classes, Controllers};
ghost use Rattle.helpers.specs.Table.{are_classed};
ghost use Rattle.bpf_accepted.specs.Verdict.{IsAccepted};
ghost use Rattle.table_store.specs.Tables.{tables_with, word_at};
ghost use Rattle.world.specs.Beginning.{Begins};
ghost use Rattle.world.specs.World.{has_classes, queue_count, queue_setup};
ghost use Rattle.world.specs.Capacities.{most_controllers, most_queues};
ghost use Rattle.world.specs.Lawful.{AreUnder, IsLawful};
ghost use Rattle.engine_config.specs.Configured.{AreProgramsGiven, AreProgramsOf, AreWords, HaveRoom, IsConfigured, IsGivenUnder, IsKnown, alone_of, controllers_of, firsts_of, queue_of, queue_seen, queues_of, setup_of, under_of};

use crate::given::{GivenQueue, GivenQueues, are_under};
use bpf_accepted::Accepted;
use ccb::QueueId;
use helpers::{HelperLimits, HelperSet};
use std::alloc::{AllocError, Global};
use std::marker::Model;
use std::sync::Arc;

/// How many device queues there may be.
pub const MAX_QUEUES: usize = 64;

/// How many tables of words there may be.
pub const MAX_TABLES: usize = 16;

/// How many words a table may have.
pub const MAX_WORDS: u16 = 4096;

/// The limits of the helper calls, how many controllers there are, and for each device queue, in the order of the queues'
/// numbers, its openings, its controller and its program, which was accepted under these limits; and the first words of
/// tables. Contracts see it as the world's setup.
#[derive(Debug, Drop)]
pub struct Config {
    limits: HelperLimits,
    // the words with which tables begin; all others are 0
    tables: Vec<Vec<u64>>,
    queues: GivenQueues,
}

impl Model for Config {
    ghost use Rattle.world.specs.World.{Setup};
    ghost use Rattle.engine_config.specs.Configured.{KeepsConfig, controllers_of, firsts_of, queues_of, setup_of};

    ghost Value = { Setup };

    ghost view = { λ c. setup_of c.limits (controllers_of c.queues) (firsts_of c.tables.items) (queues_of c.queues) };

    ghost invariant = { λ c. KeepsConfig c.limits (controllers_of c.queues) (firsts_of c.tables.items) (queues_of c.queues) };
}

impl Config {
    /// A configuration without controllers. It has 1 to 64 queues, as many as the limits say, each with 1 to 255 openings and a
    /// program that was accepted under these limits. The limits' helpers are those of queues alone, and there are up to 16 tables
    /// of 1 to 4096 words. `None` exactly where they are not so. It takes no memory.
    pub fn new(limits: HelperLimits, queues: Vec<(u8, Arc<Accepted>)>) -> Option<Self>
        ensures lawful { IsSome result ↔ IsConfigured limits 0 (map alone_of queues.items) }
        ensures value { IfSome result (λ config. config ≡ setup_of limits 0 [] (map alone_of queues.items)) }
    {
        match limits.helpers {
            HelperSet::Queues => {
                let tables = Vec::new(*queues.allocator());
                made(limits, tables, GivenQueues::Alone(queues))
            }
            HelperSet::Controllers | HelperSet::Classes => None,
        }
    }

    /// A configuration of 1 to 8 controllers, with the openings, the controller, which is below their number, and the program
    /// of each queue. The helpers of its limits are those of controllers; all else is as for `new`, and it is `None` exactly
    /// where they are not so. It takes no memory.
    pub fn with_controllers(
        limits: HelperLimits,
        controllers: u8,
        queues: Vec<(u8, u8, Arc<Accepted>)>,
    ) -> Option<Self>
        ensures lawful { IsSome result ↔ ((limits.helpers ≡ Controllers) × IsConfigured limits controllers (map under_of queues.items)) }
        ensures value { IfSome result (λ config. config ≡ setup_of limits controllers [] (map under_of queues.items)) }
    {
        if !are_under(controllers, &queues) {
            return None;
        }
        match limits.helpers {
            HelperSet::Queues | HelperSet::Classes => None,
            HelperSet::Controllers => {
                let tables = Vec::new(*queues.allocator());
                made(limits, tables, GivenQueues::Under(controllers, queues))
            }
        }
    }

    /// A configuration whose CCBs have a class and an advice, and whose tables begin with these words, a list a table, and are 0
    /// after them. The helpers of its limits are those of classes; there are at most as many lists as tables, and each is at most
    /// as long as its table. All else is as for `with_controllers`, and it is `None` exactly if they are not so. It takes no
    /// memory.
    pub fn with_classes(
        limits: HelperLimits,
        controllers: u8,
        tables: Vec<Vec<u64>>,
        queues: Vec<(u8, u8, Arc<Accepted>)>,
    ) -> Option<Self>
        ensures lawful { IsSome result ↔ ((limits.helpers ≡ Classes) × IsConfigured limits controllers (map under_of queues.items)
            × HaveRoom limits.table_lengths (firsts_of tables.items)) }
        ensures value { IfSome result (λ config. config ≡ setup_of limits controllers (firsts_of tables.items) (map under_of queues.items)) }
    {
        if !are_under(controllers, &queues) {
            return None;
        }
        match limits.helpers {
            HelperSet::Queues | HelperSet::Controllers => None,
            HelperSet::Classes => made(limits, tables, GivenQueues::Under(controllers, queues)),
        }
    }

    /// Which helpers there are.
    pub fn helpers(&self) -> HelperSet
        ensures { result ≡ self.now.limits.helpers }
    {
        self.limits.helpers
    }

    /// Whether CCBs have a class and an advice.
    pub fn has_classes(&self) -> bool
        ensures { result ≡ has_classes self.now }
    {
        self.limits.helpers.has_classes()
    }

    /// How many device queues there are, 1 to 64. Of itself a configuration is that of an engine which follows no other.
    pub fn queues(&self) -> u32
        ensures value { result ≡ queue_count self.now }
        ensures bound { result ≤ most_queues }
        ensures lawful { IsLawful self.now }
        ensures alone { self.now.carried ≡ None }
        ensures begins { Begins self.now }
    {
        self.limits.queues
    }

    /// How many controllers there are, 1 to 8, or 0 where queues alone freeze.
    pub fn controllers(&self) -> u32
        ensures value { result ≡ self.now.controllers }
        ensures bound { result ≤ most_controllers }
    {
        u32::from(self.queues.controllers())
    }

    /// How many words each table has, in the order of the tables' numbers.
    pub fn table_lengths(&self) -> &[u16]
        ensures { result.now ≡ self.now.limits.table_lengths }
    {
        self.limits.table_lengths.as_slice()
    }

    /// The words with which tables begin, a list a table: after them, and in tables that have no list, each word is 0.
    pub fn first_words(&self) -> &[Vec<u64>]
        ensures { tables_with self.now.limits.table_lengths (firsts_of result.now) ≡ self.now.tables }
    {
        self.tables.as_slice()
    }

    /// The word at an index, from 0, of a table, as the engine is opened; 0 if there is no such word.
    pub fn first_word(&self, table: usize, index: usize) -> u64
        ensures { result ≡ word_at self.now.tables table index }
    {
        word_of(&self.tables, table, index)
    }

    /// How many of a queue's CCBs may be active at a time when the engine is opened, 1 to 255.
    pub fn openings(&self, queue: u32) -> u8
        requires { queue < queue_count self.now }
        ensures value { result ≡ (queue_setup self.now queue).openings }
        ensures least { 1 ≤ result }
    {
        self.queues.queue(queue as usize).openings
    }

    /// The controller that a queue is under, 0 to 7: 0 where there are none, and after the last queue.
    pub fn controller(&self, queue: QueueId) -> u32
        ensures value { result ≡ (queue_setup self.now queue.0).controller }
        ensures bound { result < most_controllers }
    {
        let number = queue.0 as usize;
        if number < self.queues.count() {
            u32::from(self.queues.queue(number).controller)
        } else {
            0
        }
    }

    /// The program that a failed completion of a queue starts.
    pub fn program(&self, queue: QueueId) -> &Arc<Accepted>
        requires { queue.0 < queue_count self.now }
        ensures program { (arc_value result.now).program ≡ (queue_setup self.now queue.0).program }
        ensures budget { (arc_value result.now).budget ≡ (queue_setup self.now queue.0).budget }
        ensures limits { (arc_value result.now).limits ≡ self.now.limits }
        ensures accepted { IsAccepted (arc_value result.now) }
    {
        self.queues.queue(queue.0 as usize).program
    }

    /// The programs of all queues, in the order of the queues' numbers: they are shared, and not copied.
    pub fn programs(&self, alloc: Global) -> Result<Vec<Arc<Accepted>>, AllocError>
        ensures { IfOk result (λ programs. AreProgramsOf self.now programs.items) }
    {
        shared_programs(alloc, &self.queues)
    }
}

// The configuration of these queues, each under one of the controllers, if there are any.
fn made(limits: HelperLimits, tables: Vec<Vec<u64>>, queues: GivenQueues) -> Option<Config>
    requires under { AreUnder limits.helpers (controllers_of queues) (map queue_of (queues_of queues)) }
    requires plain { are_classed limits.helpers ≡ false → firsts_of tables.items ≡ [] }
    ensures lawful { IsSome result ↔ (IsConfigured limits (controllers_of queues) (queues_of queues) × HaveRoom limits.table_lengths (firsts_of tables.items)) }
    ensures value { IfSome result (λ config. config ≡ setup_of limits (controllers_of queues) (firsts_of tables.items) (queues_of queues)) }
{
    if !has_lawful_tables(&limits)
        || !are_so_many(&limits, queues.count())
        || !are_given_under(&limits, &queues)
        || !have_room(&limits, &tables)
    {
        return None;
    }
    Some(Config {
        limits,
        tables,
        queues,
    })
}

// The programs of these queues, in their order.
fn shared_programs(alloc: Global, queues: &GivenQueues) -> Result<Vec<Arc<Accepted>>, AllocError>
    ensures { IfOk result (λ programs. AreProgramsGiven (queues_of queues.now) programs.items) }
{
    let mut programs = Vec::with_capacity(alloc, queues.count())?;
    for number in 0..queues.count() {
        let queue = queues.queue(number);
        let program = Arc::try_clone(queue.program)?;
        programs.push(program)?;
    }
    Ok(programs)
}

// Up to 16 tables of 1 to 4096 words.
fn has_lawful_tables(limits: &HelperLimits) -> bool
    ensures { IsTrue result ↔ ((length limits.now.table_lengths ≤ MAX_TABLES)
        × All (λ words. (1 ≤ words) × (words ≤ MAX_WORDS)) limits.now.table_lengths) }
{
    let lengths = limits.table_lengths.as_slice();
    lengths.len() <= MAX_TABLES
        && lengths
            .iter()
            .all(|words| 0 < *words && *words <= MAX_WORDS)
}

// At most as many lists of first words as there are tables, each at most as long as its table.
fn have_room(limits: &HelperLimits, tables: &[Vec<u64>]) -> bool
    ensures room { IsTrue result ↔ HaveRoom limits.now.table_lengths (firsts_of tables.now) }
    ensures known { IsTrue result → AreWords (firsts_of tables.now) }
{
    let lengths = limits.table_lengths.as_slice();
    if tables.len() > lengths.len() {
        return false;
    }
    for number in 0..tables.len() {
        let words = tables[number].as_slice();
        if words.len() > usize::from(lengths[number]) {
            return false;
        }
        words_fit(words);
    }
    true
}

// What the type of words says of each, for contracts, which see numbers of any size.
fn words_fit(words: &[u64])
    ensures { All (λ word. word < 2 ^ 64) words.now }
{
    for word in words {
        word_fits(*word);
    }
}

fn word_fits(word: u64)
    ensures { word < 2 ^ 64 }
{
    let _ = word;
}

// The word at an index of a list, 0 if there is none.
fn word_of(tables: &[Vec<u64>], table: usize, index: usize) -> u64
    ensures { result ≡ word_at (firsts_of tables.now) table index }
{
    match tables.get(table) {
        Some(words) => words.get(index).copied().unwrap_or(0),
        None => 0,
    }
}

// 1 to 64 queues, as many as the limits say.
fn are_so_many(limits: &HelperLimits, queues: usize) -> bool
    ensures { IsTrue result ↔ (((1 ≤ queues) × (queues ≤ MAX_QUEUES)) × (limits.now.queues ≡ queues)) }
{
    0 < queues && queues <= MAX_QUEUES && limits.queues as usize == queues
}

// Each queue has an opening, and a program that was accepted under these limits.
fn are_given_under(limits: &HelperLimits, queues: &GivenQueues) -> bool
    ensures given { IsTrue result ↔ All (IsGivenUnder limits.now) (queues_of queues.now) }
    ensures known { IsTrue result → All IsKnown (queues_of queues.now) }
{
    for number in 0..queues.count() {
        let queue = queues.queue(number);
        if !is_given_under(limits, &queue) {
            return false;
        }
    }
    true
}

fn is_given_under(limits: &HelperLimits, queue: &GivenQueue<'_>) -> bool
    ensures given { IsTrue result ↔ IsGivenUnder limits.now (queue_seen queue.now) }
    ensures known { IsKnown (queue_seen queue.now) }
{
    let openings = queue.openings;
    let policy: &Accepted = queue.program;
    let agrees = policy.limits() == limits;
    agrees && 0 < openings
}
