// Whether the completions of a history stand where its host's steps allow. It relies on `world_calls` for records, on `counting` for who
// made one, and on `scenario` for steps.

ghost use Rattle.std.specs.Prelude.{◌≡◌, ◌+◌, ◌-◌, ◌^◌, ◌<◌, ◌≤◌, [], drop, length, take, true};
ghost use Rattle.host_scenario.specs.Turns.{are_in_turn, at_host, completions_in, doing, ends_in, first_turn, from_host, is_settled, leading, may_do, may_end, seen, starts_in, turn_after};
ghost use Rattle.scenario.specs.Steps.{command_seen};
ghost use Rattle.host_scenario.specs.declared.turns.Doing.TheVariants.{Calls};

use crate::counting::{completions_in, is_by_host, is_hosts};
use base_chunked_list::ChunkedList;
use scenario::Scenario;
use world_calls::{Call, CallAnswer, Record, StoppedAt};

/// What a host does for a step: it puts a completion into its inbox, has its workers serve those that wait there, or makes a call.
#[derive(Clone, Copy)]
pub(crate) enum Doing {
    Puts,
    Drains,
    Calls,
}

// How many completions were put, and how many of them before the last drain. Before this place so many completions are recorded, so
// many runs started, and so many ended.
#[derive(Clone, Copy)]
struct Reached {
    put: usize,
    drained: usize,
    served: usize,
    started: usize,
    ended: usize,
    place: usize,
}

// The first record that a host made; and before it so many completions, and starts and ends of runs.
#[derive(Clone, Copy)]
struct Found {
    completions: usize,
    starts: usize,
    ends: usize,
    place: usize,
}

/// Of so many steps, the first of a scenario: whether each completion is recorded after the host put it, and before the first call of
/// the host after the drain that served it; and each run has ended before the host's next call. With `all`, all that were put are
/// recorded.
pub(crate) fn are_in_turn(
    scenario: &Scenario<'_>,
    count: usize,
    records: &ChunkedList<Record>,
    all: bool,
) -> bool
    ensures { result ≡ are_in_turn all (first_turn records.now.items) (take count scenario.now) }
{
    let mut reached = Reached {
        put: 0,
        drained: 0,
        served: 0,
        started: 0,
        ended: 0,
        place: 0,
    };
    let mut passed = 0;
    for step in scenario.steps() {
        if passed == count {
            return reached.ends(records, all);
        }
        if !reached.goes_on(doing_for(step.call), records) {
            return false;
        }
        passed += 1;
    }
    reached.ends(records, all)
}

impl Reached {
    // Goes on by one step, and says whether the step may stand there.
    fn goes_on(&mut self, doing: Doing, records: &ChunkedList<Record>) -> bool
        requires few { self.old.put < 2 ^ 64 - 1 }
        requires within { (self.old.served ≤ self.old.place) × (self.old.started ≤ self.old.place) × (self.old.ended ≤ self.old.place) × (self.old.place ≤ length records.now.items) }
        ensures may { result ≡ may_do doing (seen self.old records.now.items) }
        ensures after { result ≡ true → seen self.new records.now.items ≡ turn_after doing (seen self.old records.now.items) }
        ensures within { (self.new.served ≤ self.new.place) × (self.new.started ≤ self.new.place) × (self.new.ended ≤ self.new.place) × (self.new.place ≤ length records.now.items) }
        ensures put { self.new.put ≤ self.old.put + 1 }
    {
        match doing {
            Doing::Puts => {
                self.put += 1;
                true
            }
            Doing::Drains => {
                self.drained = self.put;
                true
            }
            Doing::Calls => self.calls(records),
        }
    }

    // The same for a call.
    fn calls(&mut self, records: &ChunkedList<Record>) -> bool
        requires { (self.old.served ≤ self.old.place) × (self.old.started ≤ self.old.place) × (self.old.ended ≤ self.old.place) × (self.old.place ≤ length records.now.items) }
        ensures may { result ≡ may_do Calls (seen self.old records.now.items) }
        ensures after { result ≡ true → seen self.new records.now.items ≡ turn_after Calls (seen self.old records.now.items) }
        ensures within { (self.new.served ≤ self.new.place) × (self.new.started ≤ self.new.place) × (self.new.ended ≤ self.new.place) × (self.new.place ≤ length records.now.items) }
        ensures put { self.new.put ≡ self.old.put }
    {
        let next = self.at_host(records);
        if !next.is_settled() {
            return false;
        }
        if next.place == records.len() {
            return false;
        }
        *self = next;
        self.place = next.place + 1;
        true
    }

    // Whether the steps may end there.
    fn ends(mut self, records: &ChunkedList<Record>, all: bool) -> bool
        requires { (self.served ≤ self.place) × (self.started ≤ self.place) × (self.ended ≤ self.place) × (self.place ≤ length records.now.items) }
        ensures { result ≡ are_in_turn all (seen self records.now.items) [] }
    {
        if all {
            self.drained = self.put;
        }
        self.may_end(records)
    }

    // Whether the host made no more records, and all is settled.
    fn may_end(self, records: &ChunkedList<Record>) -> bool
        requires { (self.served ≤ self.place) × (self.started ≤ self.place) × (self.ended ≤ self.place) × (self.place ≤ length records.now.items) }
        ensures { result ≡ may_end (seen self records.now.items) }
    {
        let next = self.at_host(records);
        if next.place < records.len() {
            return false;
        }
        next.is_settled()
    }

    // The place of the host's next record, or that after all records.
    fn at_host(self, records: &ChunkedList<Record>) -> Reached
        requires { (self.served ≤ self.place) × (self.started ≤ self.place) × (self.ended ≤ self.place) × (self.place ≤ length records.now.items) }
        ensures seen { seen result records.now.items ≡ at_host (seen self records.now.items) }
        ensures within { (result.served ≤ result.place) × (result.started ≤ result.place) × (result.ended ≤ result.place) × (result.place ≤ length records.now.items) }
        ensures put { result.put ≡ self.put }
    {
        let found = first_by_host(records, self.place);
        Reached {
            put: self.put,
            drained: self.drained,
            served: self.served + found.completions,
            started: self.started + found.starts,
            ended: self.ended + found.ends,
            place: found.place,
        }
    }

    // Whether the drained completions are recorded and none that was not put, and each run that started has ended.
    fn is_settled(self) -> bool
        ensures { result ≡ is_settled self.put self.drained self.served self.started self.ended }
    {
        self.drained <= self.served && self.served <= self.put && self.started == self.ended
    }
}

// What a host does for such a line, by its call.
fn doing_for(call: Option<&Call>) -> Doing
    ensures { result ≡ doing (command_seen call.entry) }
{
    match call {
        None => Doing::Drains,
        Some(call) => {
            if is_hosts(call) {
                Doing::Calls
            } else {
                Doing::Puts
            }
        }
    }
}

// The first record from this place on that the host made; the place after all records, if it made none.
fn first_by_host(records: &ChunkedList<Record>, from: usize) -> Found
    requires { from ≤ length records.now.items }
    ensures completions { result.completions ≡ leading completions_in (drop from records.now.items) }
    ensures starts { result.starts ≡ leading starts_in (drop from records.now.items) }
    ensures ends { result.ends ≡ leading ends_in (drop from records.now.items) }
    ensures rest { drop result.place records.now.items ≡ from_host (drop from records.now.items) }
    ensures few { (from + result.completions ≤ result.place) × (from + result.starts ≤ result.place) × (from + result.ends ≤ result.place) }
    ensures within { result.place ≤ length records.now.items }
{
    let mut completions = 0;
    let mut starts = 0;
    let mut ends = 0;
    for place in from..records.len() {
        if is_by_host(&records[place]) {
            return Found {
                completions,
                starts,
                ends,
                place,
            };
        }
        completions += completions_in(&records[place]);
        starts += starts_in(&records[place]);
        ends += ends_in(&records[place]);
    }
    Found {
        completions,
        starts,
        ends,
        place: records.len(),
    }
}

// One if a run starts by it.
fn starts_in(made: &Record) -> usize
    ensures many { result ≡ starts_in made.now }
    ensures few { result ≤ 1 }
{
    match made {
        Record::Called {
            answer: CallAnswer::Started { .. },
            ..
        } => 1,
        _ => 0,
    }
}

// One if a run ends by it.
fn ends_in(made: &Record) -> usize
    ensures many { result ≡ ends_in made.now }
    ensures few { result ≤ 1 }
{
    match made {
        Record::Advance {
            stop: StoppedAt::Exit,
            ..
        } => 1,
        _ => 0,
    }
}
