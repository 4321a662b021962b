// Which line may come after those before it, as far as that is seen without a manifest. It relies on `world_calls` for lines.

ghost use Rattle.std.specs.Prelude.{◌≡◌, ◌↔◌, ◌++◌, ◌∷◌, [], IsFalse, IsTrue, List};
ghost use Rattle.world_calls.specs.declared.carried_line.CarriedLine.{CarriedLine as Line};
ghost use Rattle.carried_lines.specs.InOrder.{AreInOrder, IsFront};
ghost use Rattle.carried_lines.specs.Following.{HasTaken, is_ccb_next, is_clock_next, is_complete, is_first, is_freeze_next, is_next, is_queue_next, is_word_next, may_follow};

use world_calls::CarriedLine;

/// Takes lines one after the other in constant memory, and refuses each that is out of order. The order is: the greatest numbers and the
/// clock, once each; openings of the queues 0, 1, 2 and so on; words that are not 0, by table and index; CCBs by number; freezes by number.
#[derive(Drop)]
pub struct Order {
    last: Option<CarriedLine>,
}

impl Order {
    /// No line was taken yet.
    pub fn new() -> Self
        ensures { HasTaken [] result }
    {
        Order { last: None }
    }

    /// Takes the line, and returns whether it did: exactly if a list in order begins with the lines that were taken and this one. A line
    /// that is refused changes nothing.
    pub fn take(&mut self, line: &CarriedLine) -> bool
        ensures accepts { (taken : List Line) → HasTaken taken self.old → (IsTrue result ↔ IsFront (taken ++ line.now ∷ [])) }
        ensures taken { IsTrue result → (taken : List Line) → HasTaken taken self.old → HasTaken (taken ++ line.now ∷ []) self.new }
        ensures refused { IsFalse result → self.new ≡ self.old }
    {
        let follows = may_follow(&self.last, line);
        if follows {
            self.last = Some(*line);
        }
        follows
    }

    /// Returns whether the lines that were taken are a whole list in order: exactly if the numbers and the clock are among them.
    pub fn is_complete(&self) -> bool
        ensures { (taken : List Line) → HasTaken taken self.now → (IsTrue result ↔ AreInOrder taken) }
    {
        is_complete(&self.last)
    }
}

fn is_complete(last: &Option<CarriedLine>) -> bool
    ensures { result ≡ is_complete last.now }
{
    match last {
        None | Some(CarriedLine::Numbers { .. }) => false,
        Some(_) => true,
    }
}

fn may_follow(last: &Option<CarriedLine>, line: &CarriedLine) -> bool
    ensures { result ≡ may_follow last.now line.now }
{
    match last {
        None => is_first(line),
        Some(last) => is_next(last, line),
    }
}

fn is_first(line: &CarriedLine) -> bool
    ensures { result ≡ is_first line.now }
{
    match line {
        CarriedLine::Numbers { .. } => true,
        _ => false,
    }
}

#[tactic(auto, unfolding(crate::specs::Following::is_next))]
fn is_next(last: &CarriedLine, line: &CarriedLine) -> bool
    ensures { result ≡ is_next last.now line.now }
{
    match line {
        CarriedLine::Numbers { .. } => false,
        CarriedLine::Clock { .. } => is_clock_next(last),
        CarriedLine::Openings { queue, .. } => is_queue_next(last, *queue),
        CarriedLine::Word { table, index, word } => {
            *word > 0 && is_word_next(last, *table, *index)
        }
        CarriedLine::Ccb(ccb) => is_ccb_next(last, ccb.number.0),
        CarriedLine::Freeze(freeze) => is_freeze_next(last, freeze.number),
    }
}

fn is_clock_next(last: &CarriedLine) -> bool
    ensures { result ≡ is_clock_next last.now }
{
    match last {
        CarriedLine::Numbers { .. } => true,
        _ => false,
    }
}

fn is_queue_next(last: &CarriedLine, queue: u32) -> bool
    ensures { result ≡ is_queue_next last.now queue }
{
    match last {
        CarriedLine::Clock { .. } => queue == 0,
        CarriedLine::Openings { queue: before, .. } => *before < queue && queue - *before == 1,
        _ => false,
    }
}

fn is_word_next(last: &CarriedLine, table: u32, index: u32) -> bool
    ensures { result ≡ is_word_next last.now table index }
{
    match last {
        CarriedLine::Clock { .. } | CarriedLine::Openings { .. } => true,
        CarriedLine::Word {
            table: before,
            index: place,
            ..
        } => *before < table || *before == table && *place < index,
        _ => false,
    }
}

fn is_ccb_next(last: &CarriedLine, number: u32) -> bool
    ensures { result ≡ is_ccb_next last.now number }
{
    match last {
        CarriedLine::Numbers { .. } | CarriedLine::Freeze(_) => false,
        CarriedLine::Ccb(before) => before.number.0 < number,
        _ => true,
    }
}

fn is_freeze_next(last: &CarriedLine, number: u32) -> bool
    ensures { result ≡ is_freeze_next last.now number }
{
    match last {
        CarriedLine::Numbers { .. } => false,
        CarriedLine::Freeze(before) => before.number < number,
        _ => true,
    }
}
