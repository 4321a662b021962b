// What a seat at the cell knows of the history. No value of these types is made: they stand in proofs alone, and take no memory.
// It relies on `world_calls` for what a history is made of.
use std::collections::LinkedList;
use std::marker::Model;
use world_calls::Record;

/// One record of the history, with the number of the caller that made it, from 1, or 0 where it stood there before the engine
/// was shared.
pub struct Pair {
    pub caller: u64,
    pub made: Record,
}

/// The setup of an engine, as contracts see it.
pub struct SetupKnown;

impl Model for SetupKnown {
    ghost use Rattle.world.specs.World.{Setup};
    ghost use Rattle.monitor.specs.Nameless.{no_setup};

    ghost Value = { Setup };

    ghost view = { λ _. no_setup };
}

/// What one seat knows. Where it is the keeper's: the whole history, and how many callers were given out. Where it has a caller's
/// part: the caller's number, and the records that the caller made. Of either and of a watch: the engine's setup, whether the
/// cell shows sums of it, the history that was seen, and what was told since. The seat with which the cell is made knows that it
/// is the only one.
pub struct View {
    pub opens: bool,
    pub setup: SetupKnown,
    pub keeps: bool,
    pub log: LinkedList<Pair>,
    pub given: u64,
    pub calls: bool,
    pub number: u64,
    pub mine: LinkedList<Record>,
    pub shown: bool,
    pub seen: LinkedList<Pair>,
    pub told: LinkedList<LinkedList<Pair>>,
}
