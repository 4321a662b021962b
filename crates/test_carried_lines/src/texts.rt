// Lines and their texts, there and back. It relies on `carried_lines`.

use carried_lines::{CARRIED, print_carried, read_carried};
use ccb::{CcbId, Place, QueueId};
use freeze_ledger::{Freeze, Holder};
use trace_lines::{NoText, Text};
use world_calls::{CarriedCcb, CarriedLine, Version};

const VERSIONS: [Version; 3] = [Version::One, Version::Two, Version::Three];

// Texts that are read in each version, with the least and the greatest numbers.
const AGAIN: [&str; 15] = [
    "numbers 0 0 0",
    "numbers 4294967295 4294967295 4294967295",
    "clock 0",
    "clock 18446744073709551615",
    "openings 0 1",
    "openings 4294967295 4294967295",
    "word 0 0 0",
    "word 4294967295 4294967295 18446744073709551615",
    "freeze 0 queue 0 timer 0",
    "freeze 0 queue 0 guest 0",
    "freeze 0 controller 0 timer 0",
    "freeze 0 controller 0 guest 0",
    "freeze 4294967295 queue 4294967295 timer 18446744073709551615",
    "freeze 4294967295 queue 4294967295 guest 4294967295",
    "freeze 4294967295 controller 4294967295 guest 4294967295",
];

// Texts of CCBs, which are read where these have neither class nor advice, and where they have both.
const PLAIN: [&str; 3] = [
    "ccb 0 0 0 0 0 waiting",
    "ccb 17 3 128 5 1 active",
    "ccb 4294967295 4294967295 4294967295 4294967295 4294967295 active",
];

const CLASSED: [&str; 4] = [
    "ccb 0 0 0 0 0 0 0 waiting",
    "ccb 17 3 128 5 1 40 0 active",
    "ccb 17 3 128 5 1 0 65536 waiting",
    "ccb 4294967295 4294967295 4294967295 4294967295 4294967295 4294967295 4294967295 active",
];

// Texts that are not read in any version.
const UNREAD: [&str; 50] = [
    "",
    " ",
    "numbers",
    "numbers ",
    "numbers 1 2",
    "numbers 1 2 ",
    "numbers 1 2 3 4",
    "numbers 1 2 3 ",
    " numbers 1 2 3",
    "numbers  1 2 3",
    "numbers 1  2 3",
    "numbers\t1 2 3",
    "numbers 01 2 3",
    "numbers 1 2 00",
    "numbers 1 2 4294967296",
    "numbers 1 2 18446744073709551616",
    "numbers 1 2 -3",
    "numbers 1 +2 3",
    "numbers 1 2 3a",
    "Numbers 1 2 3",
    "number 1 2 3",
    "numbers1 2 3",
    "clock",
    "clock ",
    "clock 05",
    "clock 18446744073709551616",
    "clock 5\n",
    "clock 5 = 0",
    "openings 0",
    "openings 4294967296 1",
    "openings 0 1 2",
    "word 0 0",
    "word 0 0 0x1",
    "word 0 4294967296 1",
    "word 0 0 18446744073709551616",
    "ccb 1 2 3 4 5",
    "ccb 1 2 3 4 waiting",
    "ccb 1 2 3 4 5 6 waiting",
    "ccb 1 2 3 4 5 6 7 8 waiting",
    "ccb 1 2 3 4 5 ",
    "ccb 1 2 3 4 5 done",
    "ccb 1 2 3 4 5 Active",
    "ccb 1 2 3 4 5 active ",
    "freeze 1 queue 2",
    "freeze 1 queue 2 run 3",
    "freeze 1 device 2 guest 3",
    "freeze 1 guest 3 queue 2",
    "freeze 1 queue 2 guest 4294967296",
    "freeze 1 queue 2 timer 18446744073709551616",
    "parks 1",
];

// The text that is printed of a line of the version after these bytes, if it has one.
fn printed_as(version: Version, line: &CarriedLine, before: &str, text: &str) -> bool {
    let mut printed = Text::none();
    if before.len() > 64 {
        return false;
    }
    printed.put(before.as_bytes());
    match print_carried(version, line, &mut printed) {
        Ok(()) => {
            let (front, rest) = printed.as_slice().split_at(before.len());
            front == before.as_bytes() && rest == text.as_bytes()
        }
        Err(NoText) => false,
    }
}

fn is_same_ccb(one: &CarriedCcb, other: &CarriedCcb) -> bool {
    one.number == other.number
        && one.queue == other.queue
        && one.priority == other.priority
        && one.retries == other.retries
        && one.class == other.class
        && one.attempts == other.attempts
        && one.advice == other.advice
        && one.is_active == other.is_active
}

// What a line says in numbers, if it is of no CCB and no freeze: its kind, and up to three numbers.
fn numbers_of(line: &CarriedLine) -> Option<(u32, u64, u64, u64)> {
    match line {
        CarriedLine::Numbers { ccb, freeze, run } => {
            Some((0, u64::from(*ccb), u64::from(*freeze), u64::from(*run)))
        }
        CarriedLine::Clock { reading } => Some((1, *reading, 0, 0)),
        CarriedLine::Openings { queue, openings } => {
            Some((2, u64::from(*queue), u64::from(*openings), 0))
        }
        CarriedLine::Word { table, index, word } => {
            Some((3, u64::from(*table), u64::from(*index), *word))
        }
        CarriedLine::Ccb(_) | CarriedLine::Freeze(_) => None,
    }
}

fn is_same(one: &CarriedLine, other: &CarriedLine) -> bool {
    match one {
        CarriedLine::Ccb(ccb) => match other {
            CarriedLine::Ccb(it) => is_same_ccb(ccb, it),
            _ => false,
        },
        CarriedLine::Freeze(freeze) => match other {
            CarriedLine::Freeze(it) => *freeze == *it,
            _ => false,
        },
        _ => numbers_of(one).is_some() && numbers_of(one) == numbers_of(other),
    }
}

// Whether the line is printed as this text, also after another one, and this text is read as the line.
fn is_line_of(version: Version, text: &str, line: &CarriedLine) -> bool {
    let read = match read_carried(version, text) {
        Some(read) => is_same(&read, line),
        None => false,
    };
    read && printed_as(version, line, "", text) && printed_as(version, line, "clock 1\n", text)
}

/// A line of each kind has the text that stands beside it, and that text is read as the line.
pub fn lines_have_these_texts() -> bool {
    let lines = [
        (
            "numbers 12 3 0",
            CarriedLine::Numbers {
                ccb: 12,
                freeze: 3,
                run: 0,
            },
        ),
        ("clock 5000", CarriedLine::Clock { reading: 5000 }),
        (
            "openings 1 255",
            CarriedLine::Openings {
                queue: 1,
                openings: 255,
            },
        ),
        (
            "word 0 7 18446744073709551615",
            CarriedLine::Word {
                table: 0,
                index: 7,
                word: 0xffff_ffff_ffff_ffff,
            },
        ),
        (
            "ccb 17 3 128 5 2 42 7 waiting",
            CarriedLine::Ccb(CarriedCcb {
                number: CcbId(17),
                queue: QueueId(3),
                priority: 128,
                retries: 5,
                class: 42,
                attempts: 2,
                advice: 7,
                is_active: false,
            }),
        ),
        (
            "ccb 18 0 1 2 4294967295 0 0 active",
            CarriedLine::Ccb(CarriedCcb {
                number: CcbId(18),
                queue: QueueId(0),
                priority: 1,
                retries: 2,
                class: 0,
                attempts: 0xffff_ffff,
                advice: 0,
                is_active: true,
            }),
        ),
        (
            "freeze 2 queue 1 timer 6000",
            CarriedLine::Freeze(Freeze {
                number: 2,
                place: Place::Device(QueueId(1)),
                holder: Holder::Timer(6000),
            }),
        ),
        (
            "freeze 3 controller 0 guest 9",
            CarriedLine::Freeze(Freeze {
                number: 3,
                place: Place::Controller(0),
                holder: Holder::Guest(9),
            }),
        ),
    ];
    for (text, line) in lines {
        if !is_line_of(Version::Three, text, &line) {
            return false;
        }
    }
    true
}

/// What is read of these texts is printed as the same text.
pub fn texts_are_printed_again() -> bool {
    for version in VERSIONS {
        if !are_printed_again(version, &AGAIN) {
            return false;
        }
    }
    are_printed_again(Version::One, &PLAIN)
        && are_printed_again(Version::Two, &PLAIN)
        && are_printed_again(Version::Three, &CLASSED)
}

fn are_printed_again(version: Version, texts: &[&str]) -> bool {
    for text in texts {
        if !is_printed_again(version, text) {
            return false;
        }
    }
    true
}

fn is_printed_again(version: Version, text: &str) -> bool {
    match read_carried(version, text) {
        Some(line) => printed_as(version, &line, "", text),
        None => false,
    }
}

/// These are texts of no line: some of them in no version, and those of CCBs with and without a class not in the others' version.
pub fn texts_of_no_line() -> bool {
    for version in VERSIONS {
        if !are_unread(version, &UNREAD) {
            return false;
        }
    }
    are_unread(Version::One, &CLASSED)
        && are_unread(Version::Two, &CLASSED)
        && are_unread(Version::Three, &PLAIN)
}

fn are_unread(version: Version, texts: &[&str]) -> bool {
    for text in texts {
        if read_carried(version, text).is_some() {
            return false;
        }
    }
    true
}

/// The longest text of a CCB has exactly as many bytes as a line may have.
pub fn longest_texts_fit() -> bool {
    let text =
        "ccb 4294967295 4294967295 4294967295 4294967295 4294967295 4294967295 4294967295 waiting";
    is_printed_again(Version::Three, text) && text.len() == CARRIED
}

/// A freeze that a run holds has no text, nor has a CCB with an advice where there is none; and nothing is put.
pub fn a_freeze_of_a_run_has_no_text() -> bool {
    let held = CarriedLine::Freeze(Freeze {
        number: 1,
        place: Place::Device(QueueId(0)),
        holder: Holder::Run(1),
    });
    let advised = CarriedLine::Ccb(CarriedCcb {
        number: CcbId(1),
        queue: QueueId(0),
        priority: 0,
        retries: 0,
        class: 0,
        attempts: 0,
        advice: 1,
        is_active: false,
    });
    has_no_text(Version::Three, &held) && has_no_text(Version::Two, &advised)
}

fn has_no_text(version: Version, line: &CarriedLine) -> bool {
    let mut text = Text::none();
    text.put(b"clock 1\n");
    print_carried(version, line, &mut text) == Err(NoText)
        && text.as_slice() == b"clock 1\n".as_slice()
}
