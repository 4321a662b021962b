// What a summary says of what is left: runs, freezes with their holders, and CCBs. It relies on `show_events` for the world.

use ccb::CcbId;
use cli_text_page::Page;
use engine_core::CcbState;
use freeze_ledger::Holder;
use show_events::{FreezeTimes, RunTimes, Walk};

/// Puts what is left, a line each.
pub(crate) fn print_left(walk: &Walk<'_>, page: &mut Page) {
    page.fill("left at the end, {} ms\n", &[walk.clock()]);
    if walk.runs().is_empty() && walk.freezes().is_empty() && walk.ccbs().is_empty() {
        page.text("  nothing\n");
    }
    print_runs(walk, page);
    print_freezes(walk, page);
    print_ccbs(walk, page);
}

fn print_runs(walk: &Walk<'_>, page: &mut Page) {
    for (run, times) in walk.runs().iter() {
        print_run(walk, *run, times, page);
    }
}

fn print_freezes(walk: &Walk<'_>, page: &mut Page) {
    for (freeze, times) in walk.freezes().iter() {
        print_freeze(walk, *freeze, times, page);
    }
}

fn print_ccbs(walk: &Walk<'_>, page: &mut Page) {
    for (ccb, since) in walk.ccbs().iter() {
        print_ccb(walk, *ccb, *since, page);
    }
}

fn print_run(walk: &Walk<'_>, run: u32, times: &RunTimes, page: &mut Page) {
    let Some(it) = walk.engine().run(run) else {
        return;
    };
    let (run, ccb, queue) = (u64::from(run), u64::from(it.ccb.0), u64::from(it.queue.0));
    page.fill(
        if it.is_out {
            "  run {} of ccb {} on queue {} is out, live since {} ms\n"
        } else {
            "  run {} of ccb {} on queue {} is parked, live since {} ms\n"
        },
        &[run, ccb, queue, times.since],
    );
}

fn print_freeze(walk: &Walk<'_>, freeze: u32, times: &FreezeTimes, page: &mut Page) {
    page.fill("  freeze {} of ", &[u64::from(freeze)]);
    page.text(times.place.kind_word());
    let place = u64::from(times.place.number());
    page.fill(" {}, since {} ms, is held by ", &[place, times.since]);
    print_holder(walk.holder(times.place, freeze), page);
}

fn print_holder(holder: Option<Holder>, page: &mut Page) {
    let (pattern, number) = match holder {
        Some(Holder::Run(run)) => ("run {}\n", u64::from(run)),
        Some(Holder::Timer(due)) => ("a timer that comes at {} ms\n", due),
        Some(Holder::Guest(guest)) => ("guest {}\n", u64::from(guest)),
        None => ("nobody\n", 0),
    };
    page.fill(pattern, &[number]);
}

fn print_ccb(walk: &Walk<'_>, ccb: u32, since: u64, page: &mut Page) {
    let Some(it) = walk.engine().ccb(CcbId(ccb)) else {
        return;
    };
    let pattern = match it.state() {
        CcbState::Waiting => "  ccb {} of queue {} has waited since {} ms\n",
        CcbState::Active => "  ccb {} of queue {} has been active since {} ms\n",
        CcbState::InRecovery => "  ccb {} of queue {} has been in recovery since {} ms\n",
    };
    let queue = u64::from(it.ccb().queue.0);
    page.fill(pattern, &[u64::from(ccb), queue, since]);
}
