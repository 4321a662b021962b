// A stretch of the picture: how long something was so. It relies on `freeze_ledger` for places.

use ccb::Place;
use cli_text_page::Page;

/// What a lane has rows for, from above.
#[derive(Clone, Copy, PartialEq, Eq)]
pub(crate) enum Row {
    /// A device works on a CCB.
    Active,
    /// A CCB waits.
    Waiting,
    /// A run holds a freeze of the place.
    HeldByRun,
    /// A timer does.
    HeldByTimer,
    /// A guest does.
    HeldByGuest,
}

/// How many rows there are.
pub(crate) const ROWS: usize = 5;

impl Row {
    /// Its place in the lane, from 0.
    pub(crate) fn index(self) -> usize {
        self as usize
    }

    /// The name of its class in the picture.
    pub(crate) fn class(self) -> &'static str {
        match self {
            Row::Active => "a",
            Row::Waiting => "w",
            Row::HeldByRun => "r",
            Row::HeldByTimer => "t",
            Row::HeldByGuest => "g",
        }
    }

    /// How far below the lane's upper edge it begins, and how high it is.
    pub(crate) fn extent(self) -> (u64, u64) {
        match self {
            Row::Active => (2, 10),
            Row::Waiting => (13, 7),
            Row::HeldByRun => (21, 4),
            Row::HeldByTimer => (25, 4),
            Row::HeldByGuest => (29, 4),
        }
    }
}

/// What is so.
#[derive(Clone, Copy)]
pub(crate) enum What {
    /// A CCB, by its number, is where its row says.
    Ccb(u32),
    /// A freeze, by its number, is held by the run of that number, or by a timer to which that left it, of that CCB.
    OfRun { freeze: u32, run: u32, ccb: u32 },
    /// A freeze is held by the guest of that number.
    OfGuest { freeze: u32, guest: u32 },
    /// A freeze, by its number, was carried over with its timer.
    CarriedOver(u32),
}

/// Something was so from one place of the clock to another.
#[derive(Clone, Copy)]
pub(crate) struct Stretch {
    pub(crate) place: Place,
    pub(crate) row: Row,
    pub(crate) what: What,
    pub(crate) from: u64,
    pub(crate) to: u64,
}

impl Stretch {
    /// Puts what it is.
    pub(crate) fn put_what(&self, page: &mut Page) {
        match (self.what, self.row) {
            (What::Ccb(ccb), Row::Active) => page.fill("ccb {} is active", &[u64::from(ccb)]),
            (What::Ccb(ccb), _) => page.fill("ccb {} waits", &[u64::from(ccb)]),
            (What::OfRun { freeze, run, ccb }, row) => page.fill(
                if row == Row::HeldByTimer {
                    "freeze {} is held by a timer, left by run {} of ccb {}"
                } else {
                    "freeze {} is held by run {} of ccb {}"
                },
                &[u64::from(freeze), u64::from(run), u64::from(ccb)],
            ),
            (What::OfGuest { freeze, guest }, _) => page.fill(
                "freeze {} is held by guest {}",
                &[u64::from(freeze), u64::from(guest)],
            ),
            (What::CarriedOver(freeze), _) => page.fill(
                "freeze {} is held by a timer, and was carried over",
                &[u64::from(freeze)],
            ),
        }
    }
}
