// Who tells the sums of the engine while workers serve: the thread of a run that comes to a stop, outside the lock. It relies on
// `engine_lock` for the monitor, and on `notices` for who is told.

use engine_lock::{Object, Shared};
use monitor::Watch;
use std::sync::{Mutex, Wait};
use workers::Gate;
use world_calls::{Notice, Notices};

/// Tells the sums of the engine where they are wanted, and holds no run up for longer.
#[derive(Drop)]
pub(crate) struct Watching<'a, B: Object, N: Notices> {
    pub shared: &'a Shared<B>,
    pub watch: &'a Mutex<Watch<B>>,
    pub notices: &'a N,
}

impl<'a, B: Object, N: Notices> Gate for Watching<'a, B, N> {
    fn before<R: Wait>(&self, rt: &R, _run: u32, _ordinal: u32) {
        if self.notices.is_wanted() {
            let mut guard = self.watch.lock(rt);
            let watch = &mut *guard;
            let totals = self.shared.monitor().read(rt, watch);
            self.notices.tell(Notice::Sums(totals));
        }
    }
}
