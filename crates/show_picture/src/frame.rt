// What stands around the stretches: the head of the picture, the names of the lanes, the scale and what the colours mean. It relies on
// `lanes` and `scale` for where, and on `escaped` for names.

use crate::escaped::put_escaped;
use crate::lanes::{HEIGHT, Lanes, NAMES};
use crate::marks::{MarkKind, put_shape};
use crate::scale::{COLUMNS, STEPS, Scale};
use cli_text_page::Page;
use show_events::{Ending, Programs, Shown};

/// How much room there is to the right of the last column, for half of a label of the scale.
const MARGIN: u64 = 80;

/// The colours, and the forms of text.
const STYLE: &str =
    "<style>text{font:12px sans-serif;fill:#222}.s{fill:#666;font-size:11px}.n{font:11px monospace;fill:#666}.l{fill:#f4f4f4}.x{stroke:#ddd}.a{fill:#2a9d5c;fill-opacity:.75}.w{fill:#9aa0a6;fill-opacity:.6}.r{fill:#e8710a}.t{fill:#1a73e8}.g{fill:#9334e6}.f{fill:#d93025}.e{fill:#202124}</style>\n";

/// What the colours mean: the class, and the words.
const LEGEND: [(&str, &str); 5] = [
    ("a", "active"),
    ("w", "waiting"),
    ("r", "frozen by a run"),
    ("t", "frozen by a timer"),
    ("g", "frozen by a guest"),
];

/// What its marks mean.
const MARKS: [(MarkKind, &str); 2] = [
    (MarkKind::Failure, "a failure"),
    (MarkKind::Finish, "finished by a run"),
];

/// How far the entries of the legend are from one another.
const ENTRY: u64 = 160;

/// Puts all that stands below the stretches.
pub(crate) fn begin(lanes: &Lanes, scale: &Scale, programs: &Programs<'_>, page: &mut Page) {
    let width = lanes.left.saturating_add(COLUMNS + MARGIN);
    let height = lanes.bottom().saturating_add(80);
    page.fill(
        "<svg xmlns=\"http://www.w3.org/2000/svg\" width=\"{}\" height=\"{}\" viewBox=\"0 0 {} {}\">\n",
        &[width, height, width, height],
    );
    page.text(STYLE);
    page.fill(
        "<rect width=\"{}\" height=\"{}\" fill=\"#fff\"/>\n",
        &[width, height],
    );
    put_legend(lanes, page);
    for lane in 0..lanes.count() {
        put_lane(lanes, lane, programs, page);
    }
    put_scale(lanes, scale, page);
}

fn put_legend(lanes: &Lanes, page: &mut Page) {
    let mut x = lanes.left;
    for (class, words) in &LEGEND {
        page.text("<rect class=\"");
        page.text(class);
        page.fill(
            "\" x=\"{}\" y=\"12\" width=\"12\" height=\"12\"/><text x=\"{}\" y=\"22\">",
            &[x, x.saturating_add(18)],
        );
        page.text(words);
        page.text("</text>\n");
        x = x.saturating_add(ENTRY);
    }
    for (kind, words) in &MARKS {
        page.text("<path class=\"");
        page.text(kind.class());
        page.text("\" d=\"");
        put_shape(*kind, x.saturating_add(6), 14, page);
        page.fill("\"/><text x=\"{}\" y=\"22\">", &[x.saturating_add(18)]);
        page.text(words);
        page.text("</text>\n");
        x = x.saturating_add(ENTRY);
    }
}

// The ground of a lane, and its name.
fn put_lane(lanes: &Lanes, lane: u32, programs: &Programs<'_>, page: &mut Page) {
    let y = lanes.top(lane);
    page.fill(
        "<rect class=\"l\" x=\"{}\" y=\"{}\" width=\"{}\" height=\"{}\"/><text x=\"{}\" y=\"{}\">",
        &[
            lanes.left,
            y,
            COLUMNS,
            HEIGHT - 2,
            NAMES,
            y.saturating_add(15),
        ],
    );
    if lane < lanes.queues {
        page.fill(
            "queue {}</text><text class=\"n\" x=\"{}\" y=\"{}\">",
            &[u64::from(lane), NAMES, y.saturating_add(29)],
        );
        put_escaped(programs.name(programs.of(lane)), page);
    } else {
        let controller = lane.saturating_sub(lanes.queues);
        page.fill("controller {}", &[u64::from(controller)]);
    }
    page.text("</text>\n");
}

// The scale: a line with its time or its record at each multiple of the step.
fn put_scale(lanes: &Lanes, scale: &Scale, page: &mut Page) {
    let step = scale.step();
    let mut next = Some(scale.first_multiple(step));
    for _ in 0..=STEPS {
        if let Some(place) = next {
            if place <= scale.last {
                put_line(lanes, scale, place, page);
            }
            next = place.checked_add(step);
        }
    }
}

fn put_line(lanes: &Lanes, scale: &Scale, place: u64, page: &mut Page) {
    let x = scale.column(place).saturating_add(lanes.left);
    page.fill(
        "<path class=\"x\" d=\"M{} 48V{}\"/><text class=\"s\" x=\"{}\" y=\"44\" text-anchor=\"middle\">{}",
        &[x, lanes.bottom(), x, place],
    );
    page.text(if scale.by_records {
        "</text>\n"
    } else {
        " ms</text>\n"
    });
}

/// Puts all that stands below the lanes: what the picture goes by, what of it is drawn together, and how the trace ends.
pub(crate) fn end(lanes: &Lanes, scale: &Scale, thin: Thin, shown: Shown<'_>, page: &mut Page) {
    let y = lanes.bottom().saturating_add(20);
    page.fill("<text class=\"s\" x=\"{}\" y=\"{}\">", &[lanes.left, y]);
    page.fill(
        if scale.by_records {
            "By records, from {} to {}, since no clock was read.</text>\n"
        } else {
            "By the clock, from {} to {} ms.</text>\n"
        },
        &[scale.first, scale.last],
    );
    if thin.stretches > 0 {
        let y = y.saturating_add(16);
        page.fill(
            "<text class=\"s\" x=\"{}\" y=\"{}\">{} stretches narrower than {} columns are drawn together, and have no texts.</text>\n",
            &[lanes.left, y, thin.stretches, thin.columns],
        );
    }
    if thin.marks > 0 {
        let y = y.saturating_add(32);
        page.fill(
            "<text class=\"s\" x=\"{}\" y=\"{}\">{} further marks are drawn together, and have no texts.</text>\n",
            &[lanes.left, y, thin.marks],
        );
    }
    if let Ending::Open | Ending::Cut = shown.ending {
        let y = y.saturating_add(48);
        page.fill("<text class=\"s\" x=\"{}\" y=\"{}\">", &[lanes.left, y]);
        page.fill(shown.words(), &[shown.line()]);
        page.text("</text>\n");
    }
    page.text("</svg>\n");
}

/// What is drawn together: how many stretches, that are narrower than so many columns, and how many marks.
#[derive(Clone, Copy)]
pub(crate) struct Thin {
    pub(crate) stretches: u64,
    pub(crate) columns: u64,
    pub(crate) marks: u64,
}
