// What a summary says of how long a place was frozen, in one form for queues and controllers. It relies on `sums`.

use crate::frozen::Frozen;
use crate::sums::Sums;
use ccb::{Place, QueueId};
use cli_text_page::Page;
use show_json::Json;

/// Puts how long the place was frozen.
pub(crate) fn print_frozen(sums: &Sums<'_>, place: Place, page: &mut Page) {
    let frozen = sums.seen.frozen.of(place, sums.walk.clock());
    page.text("  frozen        ");
    if frozen.by == 0 {
        page.text("never\n");
    } else {
        print_times(&frozen, page);
    }
}

/// Puts of a queue how long the controller was frozen that it is under.
pub(crate) fn print_its_controller(sums: &Sums<'_>, queue: u32, page: &mut Page) {
    let controller = sums.config.controller(QueueId(queue));
    let place = Place::Controller(controller);
    let frozen = sums.seen.frozen.of(place, sums.walk.clock());
    page.fill("  controller {}  ", &[u64::from(controller)]);
    if frozen.by == 0 {
        page.text("never frozen\n");
    } else {
        page.text("frozen ");
        print_times(&frozen, page);
    }
}

fn print_times(frozen: &Frozen, page: &mut Page) {
    page.fill(
        "{} ms in all, {} ms at the longest, begun by freeze {}\n",
        &[frozen.all, frozen.longest, u64::from(frozen.by)],
    );
}

/// Puts of each controller how long it was frozen.
pub(crate) fn print_controllers(sums: &Sums<'_>, controllers: u32, page: &mut Page) {
    for controller in 0..controllers {
        page.fill("controller {}\n", &[u64::from(controller)]);
        print_frozen(sums, Place::Controller(controller), page);
    }
}

/// Puts how long the place was frozen up to the end, under a key; null if it never was.
pub(crate) fn put_frozen(key: &str, sums: &Sums<'_>, place: Place, json: &mut Json) {
    let frozen = sums.seen.frozen.of(place, sums.walk.clock());
    if frozen.by == 0 {
        json.null(key);
        return;
    }
    json.begin_at(key);
    json.digits("total", frozen.all);
    json.digits("longest", frozen.longest);
    json.number("longest_by_freeze", u64::from(frozen.by));
    json.end();
}

/// Puts of a queue the controller that it is under, and how long that was frozen.
pub(crate) fn put_its_controller(sums: &Sums<'_>, queue: u32, json: &mut Json) {
    let controller = sums.config.controller(QueueId(queue));
    json.number("controller", u64::from(controller));
    put_frozen(
        "controller_frozen",
        sums,
        Place::Controller(controller),
        json,
    );
}

/// Puts of each controller how long it was frozen, as a list.
pub(crate) fn put_controllers(sums: &Sums<'_>, controllers: u32, json: &mut Json) {
    json.begin_list("controllers");
    for controller in 0..controllers {
        json.begin();
        json.number("controller", u64::from(controller));
        put_frozen("frozen", sums, Place::Controller(controller), json);
        json.end();
    }
    json.end_list();
}
