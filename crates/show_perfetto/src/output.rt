// Trace events on a page of JSON: what each phase of the format has. It relies on `show_json` for JSON.

use ccb::{Place, QueueId};
use engine_config::Config;
use freeze_ledger::Freeze;
use show_events::{Event, Shown};
use show_json::{Json, put_ending, put_facts, put_holder, put_place};
use std::alloc::Global;
use std::io;
use std::io::Write;

/// How many numbers of places there may be: two for each of 64 queues.
pub(crate) const PLACES: usize = 128;

/// The member that says of what lasts that the trace ends before it does.
const OPEN: &str = "open_at_end";

/// The member that says that it was carried over, and lasted before the trace begins.
const CARRIED: &str = "carried_over";

/// Where something is drawn: a process, which is a queue or a controller, and a thread of it.
#[derive(Clone, Copy)]
pub(crate) struct Track {
    pub(crate) process: u64,
    pub(crate) thread: u64,
}

/// A place on a track, at a time.
#[derive(Clone, Copy)]
pub(crate) struct Point {
    pub(crate) track: Track,
    pub(crate) at: u64,
}

/// Trace events that are to go out.
#[derive(Drop)]
pub(crate) struct Output {
    json: Json,
    queues: u32,
    // whether the process of a place has its name, by the place's number
    named: [bool; PLACES],
    // how many arrows, and stretches of freezes, there are so far
    arrows: u64,
    stretches: u64,
}

impl Output {
    /// None yet.
    pub(crate) fn new(alloc: Global, config: &Config) -> Self {
        Output {
            json: Json::new(alloc),
            queues: config.queues(),
            named: [false; PLACES],
            arrows: 0,
            stretches: 0,
        }
    }

    /// Begins: the processes of all queues.
    pub(crate) fn begin(&mut self) {
        self.json.begin();
        self.json.word("displayTimeUnit", "ms");
        self.json.begin_list("traceEvents");
        for queue in 0..self.queues {
            let _ = self.process(Place::Device(QueueId(queue)));
        }
    }

    /// Ends, with how the trace ends.
    pub(crate) fn end(&mut self, shown: Shown<'_>) {
        let json = &mut self.json;
        json.end_list();
        json.begin_at("otherData");
        json.number("records", shown.trace.records.len() as u64);
        put_ending(shown, json);
        json.end();
        json.end();
        json.line();
    }

    /// Writes what there is, and forgets it. It fails as a page does.
    pub(crate) fn write_to<W: Write>(&mut self, out: &mut W) -> io::Result<()> {
        self.json.write_to(out)
    }

    /// The process of a place, which has a name from then on: those of the queues come first.
    pub(crate) fn process(&mut self, place: Place) -> u64 {
        let number = u64::from(place.number());
        let process = match place {
            Place::Device(_) => number.saturating_add(1),
            _ => number
                .saturating_add(u64::from(self.queues))
                .saturating_add(1),
        };
        if let Some(is_named) = self.named.get_mut(place.index()) {
            if !*is_named {
                *is_named = true;
                self.name_process(process, place);
            }
        }
        process
    }

    // Puts what a process is called, and that it stands by its number.
    fn name_process(&mut self, process: u64, place: Place) {
        let track = Track { process, thread: 0 };
        let json = &mut self.json;
        begin_known("process_name", track, json);
        let page = json.begin_words("name");
        page.text(place.kind_word());
        page.fill(" {}", &[u64::from(place.number())]);
        json.end_words();
        end(json);
        begin_known("process_sort_index", track, json);
        json.number("sort_index", process);
        end(json);
    }

    /// Puts what a thread is called, and that it stands by its number.
    pub(crate) fn name_thread(&mut self, name: &str, track: Track) {
        let json = &mut self.json;
        begin_known("thread_name", track, json);
        json.word("name", name);
        end(json);
        begin_known("thread_sort_index", track, json);
        json.number("sort_index", track.thread);
        end(json);
    }

    /// Begins that a CCB was active from that point on up to that time, for the so manieth time.
    pub(crate) fn begin_active(&mut self, ccb: u32, attempt: u64, from: Point, at: u64) {
        let json = &mut self.json;
        begin("X", "ccb", from, json);
        json.number("dur", at.saturating_sub(from.at));
        let page = json.begin_words("name");
        page.fill("ccb {}", &[u64::from(ccb)]);
        json.end_words();
        json.begin_at("args");
        json.number("attempt", attempt);
    }

    /// Ends it: whether the CCB was carried over, and by the event that ended it; without one it is active at the end.
    pub(crate) fn end_active(&mut self, is_carried: bool, ended: Option<&Event>) {
        let json = &mut self.json;
        if is_carried {
            json.flag(CARRIED, true);
        }
        put_ended(ended, json);
        end(json);
    }

    /// Puts that a run of that program begins.
    pub(crate) fn begin_run(&mut self, event: &Event, program: &str, point: Point) {
        let json = &mut self.json;
        begin("B", "recovery", point, json);
        let page = json.begin_words("name");
        page.fill(
            "run {} of ccb {}",
            &[
                u64::from(event.subject.run.unwrap_or(0)),
                u64::from(event.subject.ccb.unwrap_or(0)),
            ],
        );
        json.end_words();
        json.begin_at("args");
        put_facts(event, json);
        json.foreign("program", program);
        end(json);
    }

    /// Puts that the run ended that has this track, by the event that says so; without one it is live at the end.
    pub(crate) fn end_run(&mut self, ended: Option<&Event>, point: Point) {
        let json = &mut self.json;
        begin("E", "recovery", point, json);
        json.begin_at("args");
        put_ended(ended, json);
        end(json);
    }

    /// Puts what a run did in an instant.
    pub(crate) fn put_step(&mut self, name: &str, event: &Event, point: Point) {
        let json = &mut self.json;
        begin("i", "recovery", point, json);
        json.word("s", "t");
        json.word("name", name);
        json.begin_at("args");
        put_facts(event, json);
        end(json);
    }

    /// Puts that a place is frozen by a holder of that kind from then on, and answers the number of this stretch.
    pub(crate) fn begin_freeze(&mut self, name: &str, event: &Event, process: u64, at: u64) -> u64 {
        self.stretches = self.stretches.saturating_add(1);
        let json = &mut self.json;
        begin_stretch("b", name, self.stretches, whole(process, at), json);
        put_facts(event, json);
        end(json);
        self.stretches
    }

    /// The same by a freeze that was carried over.
    pub(crate) fn carry_freeze(
        &mut self,
        name: &str,
        freeze: &Freeze,
        process: u64,
        at: u64,
    ) -> u64 {
        self.stretches = self.stretches.saturating_add(1);
        let json = &mut self.json;
        begin_stretch("b", name, self.stretches, whole(process, at), json);
        put_place(freeze.place, json);
        json.number("freeze", u64::from(freeze.number));
        put_holder(Some(freeze.holder), json);
        json.flag(CARRIED, true);
        end(json);
        self.stretches
    }

    /// Puts that it was up to then, by the event that ended it; without one it is at the end.
    pub(crate) fn end_freeze(
        &mut self,
        name: &str,
        stretch: u64,
        ended: Option<&Event>,
        process: u64,
        at: u64,
    ) {
        let json = &mut self.json;
        begin_stretch("e", name, stretch, whole(process, at), json);
        put_ended(ended, json);
        end(json);
    }

    /// Puts how many there are of something at a place.
    pub(crate) fn put_count(&mut self, name: &str, count: u64, process: u64, at: u64) {
        let json = &mut self.json;
        begin("C", "count", whole(process, at), json);
        json.word("name", name);
        json.begin_at("args");
        json.number(name, count);
        end(json);
    }

    /// Puts an arrow from one point to another.
    pub(crate) fn put_arrow(&mut self, from: Point, to: Point) {
        self.arrows = self.arrows.saturating_add(1);
        let json = &mut self.json;
        begin_arrow("s", self.arrows, from, json);
        json.end();
        begin_arrow("f", self.arrows, to, json);
        json.word("bp", "e");
        json.end();
    }
}

// What is about a process as a whole.
fn whole(process: u64, at: u64) -> Point {
    Point {
        track: Track { process, thread: 0 },
        at,
    }
}

// Begins an event of that phase and category.
fn begin(phase: &str, category: &str, point: Point, json: &mut Json) {
    json.begin_line();
    json.word("ph", phase);
    json.word("cat", category);
    put_track(point.track, json);
    json.number("ts", point.at);
}

fn put_track(track: Track, json: &mut Json) {
    json.number("pid", track.process);
    json.number("tid", track.thread);
}

fn begin_arrow(phase: &str, number: u64, point: Point, json: &mut Json) {
    begin(phase, "retry", point, json);
    json.number("id", number);
    json.word("name", "retry");
}

// Begins an event that says something of a process or a thread, for all times.
fn begin_known(name: &str, track: Track, json: &mut Json) {
    json.begin_line();
    json.word("ph", "M");
    put_track(track, json);
    json.word("name", name);
    json.begin_at("args");
}

// Begins an event that begins or ends the stretch of that number, for which a place is frozen.
fn begin_stretch(phase: &str, name: &str, stretch: u64, point: Point, json: &mut Json) {
    begin(phase, "freeze", point, json);
    json.number("id", stretch);
    json.word("name", name);
    json.begin_at("args");
}

// Ends the arguments of an event, and the event.
fn end(json: &mut Json) {
    json.end();
    json.end();
}

// Puts the facts of an event, or that there is none before the trace ends.
fn put_ended(event: Option<&Event>, json: &mut Json) {
    match event {
        Some(event) => put_facts(event, json),
        None => json.flag(OPEN, true),
    }
}
