// Lines in and out of order. It relies on `carried_lines`.

use carried_lines::{Order, read_carried};
use world_calls::Version;

// Lines one after the other, and whether each is taken. A line that is refused changes nothing for those after it.
const STEPS: [(&str, bool); 56] = [
    ("clock 0", false),
    ("openings 0 1", false),
    ("word 0 0 1", false),
    ("ccb 1 0 0 0 0 waiting", false),
    ("freeze 1 queue 0 guest 0", false),
    ("numbers 7 3 2", true),
    ("numbers 7 3 2", false),
    ("openings 0 1", false),
    ("word 0 0 1", false),
    ("ccb 1 0 0 0 0 waiting", false),
    ("freeze 1 queue 0 guest 0", false),
    ("clock 100", true),
    ("clock 101", false),
    ("numbers 7 3 2", false),
    ("openings 1 1", false),
    ("word 0 0 0", false),
    ("openings 0 1", true),
    ("openings 0 1", false),
    ("openings 2 1", false),
    ("openings 4294967295 1", false),
    ("clock 101", false),
    ("openings 1 255", true),
    ("openings 1 255", false),
    ("openings 2 0", true),
    ("word 1 5 0", false),
    ("word 1 5 1", true),
    ("word 1 5 2", false),
    ("word 1 4 1", false),
    ("word 0 9 1", false),
    ("word 1 6 0", false),
    ("openings 3 1", false),
    ("clock 101", false),
    ("word 1 6 1", true),
    ("word 3 0 18446744073709551615", true),
    ("word 2 4294967295 1", false),
    ("word 4294967295 4294967295 1", true),
    ("ccb 5 0 0 0 0 waiting", true),
    ("ccb 5 0 0 0 0 waiting", false),
    ("ccb 4 0 0 0 0 active", false),
    ("word 4294967295 4294967295 1", false),
    ("openings 3 1", false),
    ("numbers 7 3 2", false),
    ("ccb 7 9 0 0 0 active", true),
    ("ccb 6 0 0 0 0 waiting", false),
    ("ccb 4294967295 0 0 0 0 waiting", true),
    ("freeze 5 queue 0 guest 0", true),
    ("freeze 5 controller 0 guest 0", false),
    ("freeze 4 queue 0 timer 1", false),
    ("ccb 4294967295 0 0 0 0 waiting", false),
    ("word 4294967295 4294967295 1", false),
    ("openings 3 1", false),
    ("clock 101", false),
    ("numbers 7 3 2", false),
    ("freeze 6 controller 0 timer 1", true),
    ("freeze 4294967295 queue 0 guest 1", true),
    ("freeze 4294967295 queue 0 guest 1", false),
];

// Lines in order that leave kinds out.
const SHORT: [[&str; 3]; 4] = [
    ["numbers 0 0 0", "clock 0", "openings 0 1"],
    ["numbers 0 0 0", "clock 0", "word 9 0 1"],
    ["numbers 0 0 0", "clock 0", "ccb 0 0 0 0 0 waiting"],
    ["numbers 0 0 0", "clock 0", "freeze 0 queue 0 guest 0"],
];

// Whether the line of a text is taken; nothing if the text is of no line.
fn taken(order: &mut Order, text: &str) -> Option<bool> {
    let line = read_carried(Version::Two, text)?;
    Some(order.take(&line))
}

/// Each of the steps is taken or refused as it says, and so are lines that leave kinds out.
pub fn lines_in_and_out_of_order() -> bool {
    let mut order = Order::new();
    for (text, is_taken) in STEPS {
        if taken(&mut order, text) != Some(is_taken) {
            return false;
        }
    }
    for texts in SHORT {
        if !all_taken(&texts) {
            return false;
        }
    }
    order.is_complete()
}

fn all_taken(texts: &[&str]) -> bool {
    let mut order = Order::new();
    for text in texts {
        if taken(&mut order, text) != Some(true) {
            return false;
        }
    }
    order.is_complete()
}

/// The lines are complete once the clock is there, and not before.
pub fn complete_from_the_clock_on() -> bool {
    let mut order = Order::new();
    let before = order.is_complete();
    let numbers = taken(&mut order, "numbers 0 0 0") == Some(true);
    let between = order.is_complete();
    let clock = taken(&mut order, "clock 0") == Some(true);
    !before && numbers && !between && clock && order.is_complete()
}
