// The words of the options that are about what was reported: which sense data, and which refusals. It relies on `base` for digits, and on
// `ccb` for the codes of refusals.

ghost use Rattle.std.specs.Prelude.{◌≡◌};
ghost use Rattle.cli_inspect_line.specs.ReportedWords.{by_code, by_key, is_pair, refused_in, sense_in, so, with_ascq};

use base::hexadecimal::{is_digit, pair};
use ccb::CallRefusal;
use show_events::{RefusedFilter, SenseFilter};

/// The sense data that a word names: `K`, `K/AA` or `K/AA/QQ`, of lower case hexadecimal digits.
#[tactic(auto, unfolding(crate::specs::ReportedWords::sense_in))]
pub(crate) fn sense_in(word: &str) -> Option<SenseFilter>
    ensures { result ≡ sense_in word.now }
{
    let bytes = word.as_bytes();
    match bytes.len() {
        1 => by_key(bytes[0]),
        4 => by_code(bytes[0], bytes[1], bytes[2], bytes[3]),
        7 => {
            let code = by_code(bytes[0], bytes[1], bytes[2], bytes[3]);
            with_ascq(code, bytes[4], bytes[5], bytes[6])
        }
        _ => None,
    }
}

#[tactic(auto, unfolding(crate::specs::ReportedWords::by_key))]
fn by_key(key: u8) -> Option<SenseFilter>
    ensures { result ≡ by_key key }
{
    if is_digit(key) {
        Some(SenseFilter {
            key: pair(b'0', key),
            asc: None,
            ascq: None,
        })
    } else {
        None
    }
}

#[tactic(auto, unfolding(crate::specs::ReportedWords::by_code))]
fn by_code(key: u8, slash: u8, high: u8, low: u8) -> Option<SenseFilter>
    ensures { result ≡ by_code key slash high low }
{
    if is_digit(key) && is_pair(slash, high, low) {
        Some(SenseFilter {
            key: pair(b'0', key),
            asc: Some(pair(high, low)),
            ascq: None,
        })
    } else {
        None
    }
}

#[tactic(auto, unfolding(crate::specs::ReportedWords::with_ascq))]
fn with_ascq(filter: Option<SenseFilter>, slash: u8, high: u8, low: u8) -> Option<SenseFilter>
    ensures { result ≡ with_ascq filter slash high low }
{
    let Some(filter) = filter else {
        return None;
    };
    if is_pair(slash, high, low) {
        Some(SenseFilter {
            key: filter.key,
            asc: filter.asc,
            ascq: Some(pair(high, low)),
        })
    } else {
        None
    }
}

// Whether it is a slash with two digits after it.
#[tactic(auto, unfolding(crate::specs::ReportedWords::is_pair))]
fn is_pair(slash: u8, high: u8, low: u8) -> bool
    ensures { result ≡ is_pair slash high low }
{
    slash == b'/' && is_digit(high) && is_digit(low)
}

/// The refusals that a word names: all, or those of a code.
#[tactic(auto, unfolding(crate::specs::ReportedWords::refused_in))]
pub(crate) fn refused_in(word: &str) -> Option<RefusedFilter>
    ensures { result ≡ refused_in word.now }
{
    if word == "any" {
        return Some(RefusedFilter::Any);
    }
    so(CallRefusal::coded(word))
}

fn so(refusal: Option<CallRefusal>) -> Option<RefusedFilter>
    ensures { result ≡ so refusal }
{
    match refusal {
        Some(refusal) => Some(RefusedFilter::So(refusal)),
        None => None,
    }
}
