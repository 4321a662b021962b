// The table of the helpers: their names, what they do, and a row each. Code and definitions go by its columns. It relies on
// `columns` for what a column may say.

ghost use Rattle.std.specs.Prelude.{◌≡◌};
ghost use Rattle.helpers.specs.Table.{asks, arity, helper_of, number_of, row_of};

use crate::columns::{ArgKind, Asks, Change, Gives, Needs, Tells};

/// A helper function that a policy may call. All else that there is to know of it stands in its row of the table.
#[derive(Clone, Copy, Debug, PartialEq, Eq)]
pub enum Helper {
    Freeze,
    Release,
    ReleaseAfter,
    Requeue,
    Finish,
    TableGet,
    TablePut,
    TableAdd,
    QueueInfo,
    Trace,
    Now,
    SetOpenings,
    FreezeController,
    ControllerFreezes,
    Advise,
}

/// What a call does to queues, CCBs, freezes and tables.
#[derive(Clone, Copy, Debug, PartialEq, Eq)]
pub enum HelperEffect {
    /// It only answers, and what the history tells of it is all.
    Nothing,
    /// The queue that R1 names is frozen by a new freeze of the run, if that meets no limit: its number, or 0.
    Freeze,
    /// The freeze that R1 names is gone: how many its place has then.
    GiveBack,
    /// A timer holds the freeze that R1 names, and is due so many milliseconds from now as R2 says: 0.
    HandOver,
    /// The run's CCB waits again, with so many retries fewer as R1 says: 0.
    Requeue,
    /// The run's CCB is gone with the status code in R1: 0.
    Finish,
    /// The word of a table that R1 and R2 name.
    GetWord,
    /// That word is now what R3 holds: the old word.
    PutWord,
    /// What R3 holds is added to that word, modulo 2^64: the new word.
    AddWord,
    /// How many freezes, active CCBs, waiting CCBs and openings the run's queue has, as four words of 32 bits.
    TellQueue,
    /// The clock in milliseconds.
    TellClock,
    /// The run's queue has so many openings as R1 says: the old number.
    SetOpenings,
    /// The controller of the run's queue is frozen by a new freeze of the run, if that meets no limit: its number, or 0.
    FreezeController,
    /// How many freezes that controller has.
    TellController,
    /// What the run's CCB advises the host to do before its next start is now the word in R1: 0.
    Advise,
}

/// All that there is to know of a helper. Its number is its place in the table, from 1.
#[derive(Clone, Copy, Debug, PartialEq, Eq)]
pub struct Row {
    pub helper: Helper,
    pub asks: Asks,
    pub needs: Needs,
    pub gives: Gives,
    pub machine: Change,
    pub tells: Tells,
    pub effect: HelperEffect,
}

/// The greatest word of a table.
const GREATEST_WORD: u64 = u64::MAX;

/// The greatest word of advice.
const GREATEST_ADVICE: u64 = 4_294_967_295;

/// The last clock reading, in milliseconds: 2^62.
const LAST_READING: u64 = 1 << 62;

/// How many helpers there are where what freezes is a queue: the greatest of their numbers.
pub const QUEUE_HELPERS: u8 = 12;

/// How many there are where controllers freeze too.
pub const CONTROLLER_HELPERS: u8 = 14;

/// How many there are where CCBs have a class and an advice, too.
pub const CLASS_HELPERS: u8 = 15;

/// The helpers, in the order of their numbers, which begin at 1. The comment of a row has its words for people.
pub const HELPERS: [Row; 15] = [
    // 1 freeze(queue)
    Row {
        helper: Helper::Freeze,
        asks: Asks {
            first: Some(ArgKind::Queue),
            second: None,
            third: None,
        },
        needs: Needs::Room,
        gives: Gives::NewFreeze,
        machine: Change::Holds,
        tells: Tells::Name,
        effect: HelperEffect::Freeze,
    },
    // 2 release(freeze)
    Row {
        helper: Helper::Release,
        asks: Asks {
            first: Some(ArgKind::HeldFreeze),
            second: None,
            third: None,
        },
        needs: Needs::Nothing,
        gives: Gives::Number {
            least: 0,
            most: 254,
        },
        machine: Change::GivesUp,
        tells: Tells::Name,
        effect: HelperEffect::GiveBack,
    },
    // 3 release_after(freeze, ms)
    Row {
        helper: Helper::ReleaseAfter,
        asks: Asks {
            first: Some(ArgKind::HeldFreeze),
            second: Some(ArgKind::Within {
                least: 1,
                most: 600_000,
            }),
            third: None,
        },
        needs: Needs::Nothing,
        gives: Gives::Number { least: 0, most: 0 },
        machine: Change::GivesUp,
        tells: Tells::Name,
        effect: HelperEffect::HandOver,
    },
    // 4 requeue(n)
    Row {
        helper: Helper::Requeue,
        asks: Asks {
            first: Some(ArgKind::Within { least: 0, most: 1 }),
            second: None,
            third: None,
        },
        needs: Needs::Undisposed,
        gives: Gives::Number { least: 0, most: 0 },
        machine: Change::Disposes,
        tells: Tells::Name,
        effect: HelperEffect::Requeue,
    },
    // 5 finish(code)
    Row {
        helper: Helper::Finish,
        asks: Asks {
            first: Some(ArgKind::Within { least: 0, most: 63 }),
            second: None,
            third: None,
        },
        needs: Needs::Undisposed,
        gives: Gives::Number { least: 0, most: 0 },
        machine: Change::Disposes,
        tells: Tells::Code,
        effect: HelperEffect::Finish,
    },
    // 6 table_get(table, index)
    Row {
        helper: Helper::TableGet,
        asks: Asks {
            first: Some(ArgKind::Table),
            second: Some(ArgKind::Index),
            third: None,
        },
        needs: Needs::Nothing,
        gives: Gives::Number {
            least: 0,
            most: GREATEST_WORD,
        },
        machine: Change::Nothing,
        tells: Tells::Name,
        effect: HelperEffect::GetWord,
    },
    // 7 table_put(table, index, word)
    Row {
        helper: Helper::TablePut,
        asks: Asks {
            first: Some(ArgKind::Table),
            second: Some(ArgKind::Index),
            third: Some(ArgKind::Word),
        },
        needs: Needs::Nothing,
        gives: Gives::Number {
            least: 0,
            most: GREATEST_WORD,
        },
        machine: Change::Nothing,
        tells: Tells::Name,
        effect: HelperEffect::PutWord,
    },
    // 8 table_add(table, index, word)
    Row {
        helper: Helper::TableAdd,
        asks: Asks {
            first: Some(ArgKind::Table),
            second: Some(ArgKind::Index),
            third: Some(ArgKind::Word),
        },
        needs: Needs::Nothing,
        gives: Gives::Number {
            least: 0,
            most: GREATEST_WORD,
        },
        machine: Change::Nothing,
        tells: Tells::Name,
        effect: HelperEffect::AddWord,
    },
    // 9 queue_info(ptr)
    Row {
        helper: Helper::QueueInfo,
        asks: Asks {
            first: Some(ArgKind::Room { bytes: 16 }),
            second: None,
            third: None,
        },
        needs: Needs::Nothing,
        gives: Gives::Number { least: 0, most: 0 },
        machine: Change::Writes { bytes: 16 },
        tells: Tells::Name,
        effect: HelperEffect::TellQueue,
    },
    // 10 trace(ptr, length)
    Row {
        helper: Helper::Trace,
        asks: Asks {
            first: Some(ArgKind::Bytes),
            second: Some(ArgKind::Within { least: 1, most: 64 }),
            third: None,
        },
        needs: Needs::Nothing,
        gives: Gives::Number { least: 0, most: 0 },
        machine: Change::Nothing,
        tells: Tells::Bytes,
        effect: HelperEffect::Nothing,
    },
    // 11 now()
    Row {
        helper: Helper::Now,
        asks: Asks {
            first: None,
            second: None,
            third: None,
        },
        needs: Needs::Nothing,
        gives: Gives::Number {
            least: 0,
            most: LAST_READING,
        },
        machine: Change::Nothing,
        tells: Tells::Name,
        effect: HelperEffect::TellClock,
    },
    // 12 set_openings(n)
    Row {
        helper: Helper::SetOpenings,
        asks: Asks {
            first: Some(ArgKind::Within {
                least: 1,
                most: 255,
            }),
            second: None,
            third: None,
        },
        needs: Needs::Nothing,
        gives: Gives::Number {
            least: 1,
            most: 255,
        },
        machine: Change::Nothing,
        tells: Tells::Name,
        effect: HelperEffect::SetOpenings,
    },
    // 13 freeze_controller()
    Row {
        helper: Helper::FreezeController,
        asks: Asks {
            first: None,
            second: None,
            third: None,
        },
        needs: Needs::Room,
        gives: Gives::NewFreeze,
        machine: Change::Holds,
        tells: Tells::Name,
        effect: HelperEffect::FreezeController,
    },
    // 14 controller_frozen()
    Row {
        helper: Helper::ControllerFreezes,
        asks: Asks {
            first: None,
            second: None,
            third: None,
        },
        needs: Needs::Nothing,
        gives: Gives::Number {
            least: 0,
            most: 255,
        },
        machine: Change::Nothing,
        tells: Tells::Name,
        effect: HelperEffect::TellController,
    },
    // 15 advise(word)
    Row {
        helper: Helper::Advise,
        asks: Asks {
            first: Some(ArgKind::Within {
                least: 0,
                most: GREATEST_ADVICE,
            }),
            second: None,
            third: None,
        },
        needs: Needs::Undisposed,
        gives: Gives::Number { least: 0, most: 0 },
        machine: Change::Nothing,
        tells: Tells::Name,
        effect: HelperEffect::Advise,
    },
];

/// How the helpers are written for people, in the order of their numbers.
const SIGNATURES: [&str; 15] = [
    "freeze(queue)",
    "release(freeze)",
    "release_after(freeze, ms)",
    "requeue(n)",
    "finish(code)",
    "table_get(table, index)",
    "table_put(table, index, word)",
    "table_add(table, index, word)",
    "queue_info(ptr)",
    "trace(ptr, length)",
    "now()",
    "set_openings(n)",
    "freeze_controller()",
    "controller_frozen()",
    "advise(word)",
];

impl Helper {
    /// The number by which a program calls it, from 1.
    pub fn number(self) -> u8
        ensures { result ≡ number_of self }
    {
        self as u8 + 1
    }

    /// The helper of that number, and None exactly where there is none: below 1, and above the number of rows.
    pub fn with_number(number: i32) -> Option<Self>
        ensures { result ≡ helper_of number }
    {
        HELPERS
            .iter()
            .find(|row| i32::from(row.helper.number()) == number)
            .map(|row| row.helper)
    }

    /// Its row.
    #[tactic(auto, unfolding(crate::specs::Table::row_of))]
    pub fn row(self) -> &'static Row
        ensures { result.now ≡ row_of self }
    {
        &HELPERS[self as usize]
    }

    /// How it is written for people: the name that policies have, and its arguments, as `freeze(queue)`.
    pub fn signature(self) -> &'static str {
        SIGNATURES[self as usize]
    }

    /// The name that policies have.
    pub fn name(self) -> &'static str {
        let signature = self.signature();
        match signature.split_once('(') {
            Some((name, _)) => name,
            None => signature,
        }
    }

    /// What it asks of its arguments.
    pub fn asks(self) -> Asks
        ensures { result ≡ asks self }
    {
        self.row().asks
    }

    /// How many arguments it takes, in R1 and the registers after it: 0 to 3.
    pub fn arity(self) -> usize
        ensures { result ≡ arity self }
    {
        let asks = self.asks();
        usize::from(asks.first.is_some())
            + usize::from(asks.second.is_some())
            + usize::from(asks.third.is_some())
    }
}
