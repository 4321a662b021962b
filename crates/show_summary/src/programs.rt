// How many instructions the runs of programs executed. It relies on `show_events` for when a run ends.

use cli_text_page::Page;
use show_events::{Event, Happening, Programs};
use show_json::Json;

/// Of the runs of a program that ended: how many, and how many instructions they executed, the least, the most and in all.
#[derive(Clone, Copy, Default)]
pub(crate) struct Instructions {
    ended: u64,
    least: u64,
    most: u64,
    all: u64,
}

impl Instructions {
    fn add(&mut self, instructions: u64) {
        self.least = if self.ended == 0 {
            instructions
        } else {
            self.least.min(instructions)
        };
        self.most = self.most.max(instructions);
        self.all = self.all.saturating_add(instructions);
        self.ended = self.ended.saturating_add(1);
    }

    /// Puts of a program with this budget how many runs it had, and how many instructions those executed that ended.
    pub(crate) fn print(&self, runs: u64, budget: u32, page: &mut Page) {
        page.fill("\n  runs          {}, ended {}\n", &[runs, self.ended]);
        if self.ended > 0 {
            let mean = self.all / self.ended;
            page.fill(
                "  instructions  {} least, {} mean, {} most, budget {}\n",
                &[self.least, mean, self.most, u64::from(budget)],
            );
        }
    }

    /// Puts the same; null for the instructions if no run ended.
    pub(crate) fn put(&self, runs: u64, budget: u32, json: &mut Json) {
        json.number("runs", runs);
        json.number("ended", self.ended);
        json.number("budget", u64::from(budget));
        if self.ended == 0 {
            json.null("instructions");
            return;
        }
        json.begin_at("instructions");
        json.number("least", self.least);
        json.number("mean", self.all / self.ended);
        json.number("most", self.most);
        json.end();
    }
}

/// How many programs there are at most.
const PROGRAMS: usize = 64;

/// Those of all programs, in their order.
#[derive(Clone, Copy)]
pub(crate) struct AllInstructions {
    programs: [Instructions; PROGRAMS],
}

impl AllInstructions {
    /// No run ended.
    pub(crate) fn new() -> Self {
        AllInstructions {
            programs: [Instructions::default(); PROGRAMS],
        }
    }

    /// Takes what an event says.
    pub(crate) fn see(&mut self, event: &Event, programs: &Programs<'_>) {
        let Happening::Ended = event.happening else {
            return;
        };
        let place = programs.of(event.queue().unwrap_or(u32::MAX));
        if let Some(program) = self.programs.get_mut(place) {
            program.add(event.values.numbers[0]);
        }
    }

    /// Those of one program.
    pub(crate) fn of(&self, place: usize) -> Instructions {
        self.programs.get(place).copied().unwrap_or_default()
    }
}
