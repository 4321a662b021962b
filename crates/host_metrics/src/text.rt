// The counters, and what an engine has now, in Prometheus' text format. It relies on `cli_text_page` for the page.

use crate::metrics::Metrics;
use crate::told::{CODES, CONTROLLERS, QUEUES};
use ccb::{QueueId, REFUSALS};
use cli_text_page::Page;
use engine_runs::Runs;
use engine_transport::Transport;
use std::alloc::{AllocError, Global};
use world::QueueInfo;

/// The text of what was counted, and of what an engine has now, which has so many controllers. `# HELP` and `# TYPE` stand before the lines of
/// each metric; those by queue have a line for each queue of the engine, and those by queue and code one for each code that there was.
pub fn print(
    alloc: Global,
    metrics: &Metrics,
    controllers: u32,
    transport: &Transport,
    runs: &Runs,
) -> Result<String, AllocError> {
    let mut text = Text {
        page: Page::new(alloc),
        metrics,
        transport,
        queues: queues_of(transport),
        controllers: controllers.min(CONTROLLERS as u32),
    };
    text.put_counters();
    text.put_gauges(runs);
    text.page.finish()
}

// How many queues there are.
fn queues_of(transport: &Transport) -> u32 {
    for queue in 0..QUEUES as u32 {
        if !transport.has_queue(QueueId(queue)) {
            return queue;
        }
    }
    QUEUES as u32
}

/// A page, and what is put on it.
#[derive(Drop)]
struct Text<'a> {
    page: Page,
    metrics: &'a Metrics,
    transport: &'a Transport,
    queues: u32,
    controllers: u32,
}

/// A counter by queue.
#[derive(Clone, Copy)]
enum Counter {
    Submitted,
    Started,
    Recoveries,
    Requeues,
    Instructions,
}

/// A counter by queue and code.
#[derive(Clone, Copy)]
enum Coded {
    Completed,
    Finished,
}

/// What a queue has now.
#[derive(Clone, Copy)]
enum Gauge {
    Active,
    Waiting,
    Freezes,
    Openings,
}

impl Text<'_> {
    fn put_counters(&mut self) {
        self.page.fill(
            "# HELP camr_records_total Records of the trace.\n# TYPE camr_records_total counter\ncamr_records_total {}\n",
            &[self.metrics.records()],
        );
        self.put_refusals();
        self.put_counter(Counter::Submitted);
        self.put_counter(Counter::Started);
        self.put_coded(Coded::Completed);
        self.put_counter(Counter::Recoveries);
        self.put_counter(Counter::Requeues);
        self.put_coded(Coded::Finished);
        self.put_counter(Counter::Instructions);
        self.put_queues_frozen();
        self.put_controllers_frozen();
        self.put_programs();
    }

    fn put_gauges(&mut self, runs: &Runs) {
        self.put_gauge(Gauge::Active);
        self.put_gauge(Gauge::Waiting);
        self.put_gauge(Gauge::Freezes);
        self.put_gauge(Gauge::Openings);
        self.put_controllers();
        self.page.fill(
            "# HELP camr_freezes Freezes of all queues and controllers.\n# TYPE camr_freezes gauge\ncamr_freezes {}\n# HELP camr_runs_live Runs that have not ended.\n# TYPE camr_runs_live gauge\ncamr_runs_live {}\n",
            &[u64::from(self.transport.frozen()), u64::from(runs.len())],
        );
        self.page.text(
            "# HELP camr_clock_seconds What the engine's clock read last.\n# TYPE camr_clock_seconds gauge\ncamr_clock_seconds ",
        );
        self.put_seconds(self.transport.clock());
    }

    fn put_refusals(&mut self) {
        self.page.text(
            "# HELP camr_calls_refused_total Calls that were refused, by refusal.\n# TYPE camr_calls_refused_total counter\n",
        );
        for row in &REFUSALS {
            self.page.text("camr_calls_refused_total{refusal=\"");
            self.page.shown(&row.refusal);
            self.page
                .fill("\"} {}\n", &[self.metrics.refusals(row.number)]);
        }
    }

    // A line for each queue.
    fn put_counter(&mut self, counter: Counter) {
        let (head, line) = match counter {
            Counter::Submitted => (
                "# HELP camr_ccbs_submitted_total CCBs that were submitted.\n# TYPE camr_ccbs_submitted_total counter\n",
                "camr_ccbs_submitted_total{queue=\"{}\"} {}\n",
            ),
            Counter::Started => (
                "# HELP camr_ccbs_started_total Starts of CCBs.\n# TYPE camr_ccbs_started_total counter\n",
                "camr_ccbs_started_total{queue=\"{}\"} {}\n",
            ),
            Counter::Recoveries => (
                "# HELP camr_recoveries_total Completions that started a run of the queue's policy.\n# TYPE camr_recoveries_total counter\n",
                "camr_recoveries_total{queue=\"{}\"} {}\n",
            ),
            Counter::Requeues => (
                "# HELP camr_requeues_total CCBs that a run made wait again.\n# TYPE camr_requeues_total counter\n",
                "camr_requeues_total{queue=\"{}\"} {}\n",
            ),
            Counter::Instructions => (
                "# HELP camr_instructions_total Instructions that runs executed.\n# TYPE camr_instructions_total counter\n",
                "camr_instructions_total{queue=\"{}\"} {}\n",
            ),
        };
        self.page.text(head);
        for queue in 0..self.queues {
            let count = self.counted(counter, queue);
            self.page.fill(line, &[u64::from(queue), count]);
        }
    }

    fn counted(&self, counter: Counter, queue: u32) -> u64 {
        match counter {
            Counter::Submitted => self.metrics.submissions(queue),
            Counter::Started => self.metrics.starts(queue),
            Counter::Recoveries => self.metrics.recoveries(queue),
            Counter::Requeues => self.metrics.requeues(queue),
            Counter::Instructions => self.metrics.instructions(queue),
        }
    }

    // A line for each code of each queue that there was.
    fn put_coded(&mut self, coded: Coded) {
        let head = match coded {
            Coded::Completed => {
                "# HELP camr_ccbs_completed_total Completions of active CCBs, by CAM status.\n# TYPE camr_ccbs_completed_total counter\n"
            }
            Coded::Finished => {
                "# HELP camr_ccbs_finished_total CCBs that a run finished, by final code.\n# TYPE camr_ccbs_finished_total counter\n"
            }
        };
        self.page.text(head);
        for queue in 0..self.queues {
            self.put_codes(coded, queue);
        }
    }

    fn put_codes(&mut self, coded: Coded, queue: u32) {
        for code in 0..CODES as u8 {
            let count = match coded {
                Coded::Completed => self.metrics.completions(queue, code),
                Coded::Finished => self.metrics.finishes(queue, code),
            };
            if count > 0 {
                self.put_code(coded, queue, code, count);
            }
        }
    }

    fn put_code(&mut self, coded: Coded, queue: u32, code: u8, count: u64) {
        let line = match coded {
            Coded::Completed => "camr_ccbs_completed_total{queue=\"{}\",status=\"",
            Coded::Finished => "camr_ccbs_finished_total{queue=\"{}\",code=\"",
        };
        self.page.fill(line, &[u64::from(queue)]);
        self.page.byte(code);
        self.page.fill("\"} {}\n", &[count]);
    }

    fn put_queues_frozen(&mut self) {
        self.page.text(
            "# HELP camr_queue_frozen_seconds_total Time for which the queue was frozen, by the engine's clock.\n# TYPE camr_queue_frozen_seconds_total counter\n",
        );
        for queue in 0..self.queues {
            self.page.fill(
                "camr_queue_frozen_seconds_total{queue=\"{}\"} ",
                &[u64::from(queue)],
            );
            self.put_seconds(self.metrics.queue_frozen(queue));
        }
    }

    // Nothing if there are no controllers.
    fn put_controllers_frozen(&mut self) {
        if self.controllers == 0 {
            return;
        }
        self.page.text(
            "# HELP camr_controller_frozen_seconds_total Time for which the controller was frozen, by the engine's clock.\n# TYPE camr_controller_frozen_seconds_total counter\n",
        );
        for controller in 0..self.controllers {
            self.page.fill(
                "camr_controller_frozen_seconds_total{controller=\"{}\"} ",
                &[u64::from(controller)],
            );
            self.put_seconds(self.metrics.controller_frozen(controller));
        }
    }

    // A line for each program, by its name, which has letters, digits, `_` and `-` alone.
    fn put_programs(&mut self) {
        self.page.text(
            "# HELP camr_program_runs_total Runs of a policy program.\n# TYPE camr_program_runs_total counter\n",
        );
        let programs = self.metrics.programs();
        for place in 0..programs.len() {
            let runs = programs.runs(place, self.metrics.all_recoveries());
            self.page.text("camr_program_runs_total{program=\"");
            self.page.text(programs.name(place));
            self.page.fill("\"} {}\n", &[runs]);
        }
    }

    // A line for each queue.
    fn put_gauge(&mut self, gauge: Gauge) {
        let (head, line) = match gauge {
            Gauge::Active => (
                "# HELP camr_ccbs_active CCBs that are active.\n# TYPE camr_ccbs_active gauge\n",
                "camr_ccbs_active{queue=\"{}\"} {}\n",
            ),
            Gauge::Waiting => (
                "# HELP camr_ccbs_waiting CCBs that wait.\n# TYPE camr_ccbs_waiting gauge\n",
                "camr_ccbs_waiting{queue=\"{}\"} {}\n",
            ),
            Gauge::Freezes => (
                "# HELP camr_queue_freezes Freezes of the queue.\n# TYPE camr_queue_freezes gauge\n",
                "camr_queue_freezes{queue=\"{}\"} {}\n",
            ),
            Gauge::Openings => (
                "# HELP camr_queue_openings How many CCBs of the queue may be active.\n# TYPE camr_queue_openings gauge\n",
                "camr_queue_openings{queue=\"{}\"} {}\n",
            ),
        };
        self.page.text(head);
        for queue in 0..self.queues {
            if self.transport.has_queue(QueueId(queue)) {
                let has = has(gauge, self.transport.queue_info(QueueId(queue)));
                self.page.fill(line, &[u64::from(queue), u64::from(has)]);
            }
        }
    }

    // Nothing if there are no controllers.
    fn put_controllers(&mut self) {
        if self.controllers == 0 {
            return;
        }
        self.page.text(
            "# HELP camr_controller_freezes Freezes of the controller.\n# TYPE camr_controller_freezes gauge\n",
        );
        for controller in 0..self.controllers {
            let freezes = freezes_of(self.transport, controller);
            self.page.fill(
                "camr_controller_freezes{controller=\"{}\"} {}\n",
                &[u64::from(controller), u64::from(freezes)],
            );
        }
    }

    // Milliseconds as seconds, up to the end of the line.
    fn put_seconds(&mut self, milliseconds: u64) {
        let rest = milliseconds % 1000;
        self.page.fill(
            "{}.{}{}{}\n",
            &[milliseconds / 1000, rest / 100, rest / 10 % 10, rest % 10],
        );
    }
}

// How many freezes a controller has; 0 if there is none of that number.
fn freezes_of(transport: &Transport, controller: u32) -> u32 {
    if (controller as usize) < CONTROLLERS {
        transport.controller_frozen(controller)
    } else {
        0
    }
}

fn has(gauge: Gauge, info: QueueInfo) -> u32 {
    match gauge {
        Gauge::Active => info.active,
        Gauge::Waiting => info.waiting,
        Gauge::Freezes => info.frozen,
        Gauge::Openings => info.openings,
    }
}
