// A clock that reads more than an engine takes, which no machine's does. It relies on `host_live` for what an input is.

ghost use Rattle.std.specs.Prelude.{None, false};

use cli_commands::{
    GivenManifest, ManifestUnread, MetricsFile, MetricsUnwritten, WriterSink, serve,
};
use host_live::{Came, Input, Manner, Moment};
use host_metrics::Metrics;
use std::alloc::Global;

/// The greatest reading that an engine takes, in milliseconds.
const LAST: u64 = 1 << 62;

// The freeze is handed to a timer, which is due 50 milliseconds later.
const MANIFEST: &str = "version = 1\n[[queue]]\nopenings = 1\nprogram = \"p1\"\n\
    [[program]]\nname = \"p1\"\nasm = \"\"\"\n\
    jeq r2, 0, requeue\n\
    mov64 r1, r2\n\
    mov64 r2, 50\n\
    call 3\n\
    requeue:\n\
    mov64 r1, 1\n\
    call 4\n\
    mov64 r0, 0\n\
    exit\n\
    \"\"\"\n";

const INPUT: &[u8] = b"submit 0 10 3\ndispatch 0\ncomplete 1 0b 00 -\ndrain\ndispatch 0\n\
    clock 50\ndispatch 0\n";

// What the clock reads when each line has come, and after that the most.
const READINGS: [u64; 5] = [0, 0, 0, LAST + 1, LAST + 2];

const TRACE: &str = "camr-trace 1\nclock 0 = 0\nsubmit 0 10 3 = ccb 1\nclock 0 = 0\n\
    dispatch 0 = ccb 1\nclock 0 = 0\ncomplete 1 0b 00 - = run 1 freeze 1\n\
    advance 1 4 helper 3 = 0\nadvance 1 2 helper 4 = 0\nadvance 1 2 exit = 0\n\
    clock 4611686018427387905 = C2\ndispatch 0 = Q2\nclock 50 = 1\ndispatch 0 = ccb 1\n\
    end 13 0 1 0\n";

/// Lines that come one by one, and a clock.
#[derive(Drop)]
struct Late<'a> {
    rest: &'a [u8],
    line: &'a [u8],
    came: usize,
    now: u64,
    // a timer was waited for when the clock read too much
    is_waited_for: bool,
    has_ended: bool,
}

// The first line with its line feed, and what stands after it, if there is a line.
fn first_line(bytes: &[u8]) -> Option<(&[u8], &[u8])> {
    let place = bytes.iter().position(|byte| *byte == b'\n')?;
    bytes.split_at_checked(place + 1)
}

impl Input for Late<'_> {
    ghost has_failed = { λ _. false };

    ghost has_ended = { λ late. late.has_ended };

    ghost came = { λ _. None };

    fn wait(&mut self, until: Option<u64>) -> Came {
        if self.now > LAST && until.is_some() {
            self.is_waited_for = true;
        }
        let Some((line, rest)) = first_line(self.rest) else {
            self.has_ended = true;
            return Came::End;
        };
        self.line = line;
        self.rest = rest;
        self.now = READINGS.get(self.came).copied().unwrap_or(u64::MAX);
        self.came = self.came.saturating_add(1);
        Came::Bytes
    }

    fn bytes(&self) -> &[u8] {
        self.line
    }

    fn now(&self) -> Option<u64> {
        Some(self.now)
    }
}

/// No manifest that could be read again, and the counters between engines.
#[derive(Drop)]
struct NoManifest {
    counted: Option<Metrics>,
}

impl GivenManifest for NoManifest {
    ghost use Rattle.std.specs.Prelude.{◌≡◌};
    ghost use Rattle.cli_commands.specs.Readings.{not_given};

    ghost may_read = { λ reading. reading ≡ not_given };

    fn read_again(&mut self, _alloc: Global) -> Result<Option<Vec<u8>>, ManifestUnread> {
        Ok(None)
    }
}

impl MetricsFile for NoManifest {
    ghost use Rattle.host_metrics.specs.Counted.{counts_in};

    ghost counts = { λ none. counts_in none.counted };

    fn take_metrics(&mut self, alloc: Global) -> Metrics {
        match self.counted.take() {
            Some(metrics) => metrics,
            None => Metrics::none(alloc),
        }
    }

    fn keep_metrics(&mut self, metrics: Metrics) {
        self.counted = Some(metrics);
    }

    fn is_due(&mut self, _when: Moment) -> bool {
        false
    }

    fn write_metrics(&mut self, _text: Option<&str>) -> Result<(), MetricsUnwritten> {
        Ok(())
    }

    fn metrics_path(&self) -> &str {
        ""
    }
}

/// Where a clock reads more than an engine takes, that is refused once, and time stands still: it is not read again, and no timer is
/// waited for. A `clock` line moves time as before.
pub fn a_clock_beyond_the_last_reading(alloc: Global) -> bool {
    let mut input = Late {
        rest: INPUT,
        line: &[],
        came: 0,
        now: 0,
        is_waited_for: false,
        has_ended: false,
    };
    let mut out = Vec::new(alloc);
    let mut err = Vec::new(alloc);
    let status = serve(
        alloc,
        ("m.toml", MANIFEST.as_bytes()),
        Manner {
            is_stepped: false,
            is_told: false,
            is_clocked: true,
            is_kept: false,
        },
        &mut NoManifest { counted: None },
        &mut input,
        &mut WriterSink::new(&mut out),
        &mut err,
    );
    status == 0 && out.as_slice() == TRACE.as_bytes() && err.is_empty() && !input.is_waited_for
}
