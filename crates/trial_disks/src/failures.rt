// One failure of a device, read from its table. It relies on `keys` and `completions` for what stands under its keys.

ghost use Rattle.std.specs.Prelude.{IfOk};
ghost use Rattle.toml.specs.View.{view};
ghost use Rattle.trial_disks.specs.Said.{IsFailure};

use crate::completions::completion;
use crate::data::{Failure, LAST_TIME, MILLION};
use crate::fault::{KeyFault, Never, Wrong, fault_of};
use crate::keys::{Bounds, check_keys, number_or, span};
use toml::Value;

const ALL: &[&str] = &[
    "latency",
    "share",
    "from",
    "until",
    "period",
    "first",
    "last",
    "over",
    "tries",
    "heals-after",
    "heals-on-advice",
    "heals-in",
];

/// Any number of milliseconds, or of addresses.
pub(crate) const ANY: Bounds = Bounds {
    least: 0,
    most: LAST_TIME,
};

const SHARES: Bounds = Bounds {
    least: 1,
    most: MILLION,
};

const COUNTS: Bounds = Bounds {
    least: 1,
    most: LAST_TIME,
};

const WORDS: Bounds = Bounds {
    least: 1,
    most: 4_294_967_295,
};

/// A failure. One that no start can ever meet is refused.
pub(crate) fn failure(value: &Value) -> Result<Failure, KeyFault<'_>>
    ensures said { IfOk result (IsFailure (view value.now)) }
{
    let failure = written(value)?;
    match never(&failure) {
        Some((key, never)) => Err(fault_of(Wrong::Never(never), key)),
        None => Ok(failure),
    }
}

// The failure as it is written, each number within its range.
fn written(value: &Value) -> Result<Failure, KeyFault<'_>>
    ensures said { IfOk result (IsFailure (view value.now)) }
{
    check_keys(value, &["completion"], ALL)?;
    Ok(Failure {
        completion: completion(value, "completion")?,
        latency: span(value, "latency")?,
        share: number_or(value, "share", SHARES, MILLION)?,
        from: number_or(value, "from", ANY, 0)?,
        until: number_or(value, "until", ANY, LAST_TIME)?,
        period: number_or(value, "period", COUNTS, 0)?,
        first: number_or(value, "first", ANY, 0)?,
        last: number_or(value, "last", ANY, LAST_TIME)?,
        over: number_or(value, "over", ANY, 0)?,
        tries: number_or(value, "tries", COUNTS, LAST_TIME)?,
        heals_after: number_or(value, "heals-after", COUNTS, LAST_TIME)?,
        heals_on_advice: number_or(value, "heals-on-advice", WORDS, 0)?,
        heals_in: number_or(value, "heals-in", ANY, 0)?,
    })
}

// Why no start ever meets a failure, if none does, and the key that says so.
fn never(failure: &Failure) -> Option<(&'static str, Never)> {
    let Failure {
        from,
        until,
        period,
        first,
        last,
        ..
    } = *failure;
    if from >= until {
        Some(("from", Never::Window { from, until }))
    } else if period > 0 && from >= period {
        Some(("from", Never::Period { from, period }))
    } else if first > last {
        Some(("first", Never::Patch { first, last }))
    } else {
        None
    }
}
