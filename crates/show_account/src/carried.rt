// What the account of a continued trace begins with: what was carried over. It relies on `world_calls` for the carried lines, and on `fitting`
// for which of them are wanted.

use crate::fitting::fits_carried;
use crate::line::{put_advised, put_class, put_head};
use ccb::{Place, QueueId};
use cli_text_page::Page;
use engine_config::Config;
use freeze_ledger::Holder;
use show_events::{Filter, Subject};
use world_calls::{CarriedCcb, CarriedLine};

/// The carried clock reading, how many CCBs were carried over that wait and that are active, and how many freezes of timers and of guests.
#[derive(Clone, Copy, Default)]
struct Sums {
    clock: u64,
    waiting: u64,
    active: u64,
    timers: u64,
    guests: u64,
}

impl Sums {
    fn of(lines: &[CarriedLine]) -> Self {
        let mut sums = Sums::default();
        for line in lines {
            sums.add(line);
        }
        sums
    }

    fn add(&mut self, line: &CarriedLine) {
        match line {
            CarriedLine::Clock { reading } => self.clock = *reading,
            CarriedLine::Ccb(it) => self.add_ccb(it),
            CarriedLine::Freeze(it) => self.add_freeze(it.holder),
            _ => {}
        }
    }

    fn add_ccb(&mut self, it: &CarriedCcb) {
        if it.is_active {
            self.active = self.active.saturating_add(1);
        } else {
            self.waiting = self.waiting.saturating_add(1);
        }
    }

    fn add_freeze(&mut self, holder: Holder) {
        match holder {
            Holder::Guest(_) => self.guests = self.guests.saturating_add(1),
            Holder::Timer(_) | Holder::Run(_) => self.timers = self.timers.saturating_add(1),
        }
    }
}

/// Puts a line that says when, and how many CCBs and freezes, these lines carry over.
pub fn put_carried_sums(lines: &[CarriedLine], page: &mut Page) {
    let sums = Sums::of(lines);
    page.fill("carried over at {} ms: ", &[sums.clock]);
    let ccbs = sums.waiting.saturating_add(sums.active);
    page.fill(
        match ccbs {
            0 => "no CCBs",
            1 => "{} CCB ({} waiting, {} active)",
            _ => "{} CCBs ({} waiting, {} active)",
        },
        &[ccbs, sums.waiting, sums.active],
    );
    let freezes = sums.timers.saturating_add(sums.guests);
    page.fill(
        match freezes {
            0 => ", no freezes\n",
            1 => ", {} freeze ({} of timers, {} of guests)\n",
            _ => ", {} freezes ({} of timers, {} of guests)\n",
        },
        &[freezes, sums.timers, sums.guests],
    );
}

/// Puts the line of the sums, and one for each of these that was carried over and fits: openings other than the manifest's, a word that is
/// not 0, a CCB and a freeze. The place of each is padded to that many bytes.
pub(crate) fn put_carried(
    lines: &[CarriedLine],
    filter: &Filter,
    config: &Config,
    width: usize,
    page: &mut Page,
) {
    put_carried_sums(lines, page);
    let clock = Sums::of(lines).clock;
    for line in lines {
        let subject = subject_of(line);
        if has_line(line, config) && fits_carried(filter, &subject, clock, config) {
            put_head(clock, subject.place, "-", width, page);
            put_it(line, config, page);
        }
    }
}

// Whether the account has a line for it.
fn has_line(line: &CarriedLine, config: &Config) -> bool {
    match line {
        CarriedLine::Numbers { .. } | CarriedLine::Clock { .. } => false,
        CarriedLine::Openings { queue, openings } => openings_of(config, *queue) != *openings,
        CarriedLine::Word { .. } | CarriedLine::Ccb(_) | CarriedLine::Freeze(_) => true,
    }
}

// How many openings the manifest gives a queue.
fn openings_of(config: &Config, queue: u32) -> u32 {
    if queue < config.queues() {
        u32::from(config.openings(queue))
    } else {
        0
    }
}

// What it is about.
fn subject_of(line: &CarriedLine) -> Subject {
    match line {
        CarriedLine::Openings { queue, .. } => Subject {
            place: Some(Place::Device(QueueId(*queue))),
            ..Subject::default()
        },
        CarriedLine::Ccb(it) => Subject {
            ccb: Some(it.number.0),
            place: Some(Place::Device(it.queue)),
            ..Subject::default()
        },
        CarriedLine::Freeze(it) => Subject {
            freeze: Some(it.number),
            place: Some(it.place),
            ..Subject::default()
        },
        _ => Subject::default(),
    }
}

// Puts what it carries over.
fn put_it(line: &CarriedLine, config: &Config, page: &mut Page) {
    match line {
        CarriedLine::Openings { queue, openings } => page.fill(
            if *openings == 1 {
                "{} opening was carried over, and the manifest has {}\n"
            } else {
                "{} openings were carried over, and the manifest has {}\n"
            },
            &[u64::from(*openings), u64::from(openings_of(config, *queue))],
        ),
        CarriedLine::Word { table, index, word } => page.fill(
            "word {} of table {} was carried over: {}\n",
            &[u64::from(*index), u64::from(*table), *word],
        ),
        CarriedLine::Ccb(it) => put_ccb(it, page),
        CarriedLine::Freeze(it) => put_freeze(it.number, it.holder, page),
        _ => {}
    }
}

fn put_ccb(it: &CarriedCcb, page: &mut Page) {
    page.fill(
        if it.is_active {
            "ccb {} was carried over, and is active: priority {}, retries {}, attempts {}"
        } else {
            "ccb {} was carried over, and waits: priority {}, retries {}, attempts {}"
        },
        &[
            u64::from(it.number.0),
            u64::from(it.priority),
            u64::from(it.retries),
            u64::from(it.attempts),
        ],
    );
    put_class(u64::from(it.class), page);
    put_advised(u64::from(it.advice), page);
    page.text("\n");
}

fn put_freeze(freeze: u32, holder: Holder, page: &mut Page) {
    let (pattern, number) = match holder {
        Holder::Timer(due) => (
            "freeze {} was carried over: its timer comes at {} ms\n",
            due,
        ),
        Holder::Guest(guest) => (
            "freeze {} was carried over: guest {} holds it\n",
            u64::from(guest),
        ),
        Holder::Run(run) => (
            "freeze {} was carried over: run {} holds it\n",
            u64::from(run),
        ),
    };
    page.fill(pattern, &[u64::from(freeze), number]);
}
