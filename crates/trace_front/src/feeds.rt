// Where the lines of a text end, and what of a line may have been cut off. It relies on `trace` for lines.

ghost use Rattle.std.specs.Prelude.{◌≡◌, ◌↔◌, ◌++◌, ◌∷◌, Contains, IfNone, IfOk, IfSome, IsTrue, string_bytes};
ghost use Rattle.std.specs.List.{list_all};
ghost use Rattle.trace.specs.ShortLines.{IsShort, is_shown};
ghost use Rattle.trace_front.specs.Front.{EndsSo, EndsWhole, IsLastFeed, IsLastLine};

use std::alloc::{AllocError, Global};
use trace::laws::LONGEST_LINE;
use trace::read_totals;

/// What stands before the last line feed, and after it.
pub(crate) fn last_feed(text: &str) -> Option<(&str, &str)>
    ensures some { IfSome result (λ parts. IsLastFeed text.now parts.0.now parts.1.now) }
    ensures none { IfNone result (Contains text.now 10 → ⊥) }
{
    match text.rsplit_once('\n') {
        Some((lines, rest)) => Some((lines, rest)),
        None => None,
    }
}

// The last of these lines, of which each other one has its line feed.
fn last_line(lines: &str) -> &str
    ensures { IsLastLine lines.now result.now }
{
    match last_feed(lines) {
        Some((_, line)) => line,
        None => lines,
    }
}

/// Whether nothing stands after these lines, and the last of them is the last line of a trace.
#[tactic(auto, using(crate::proofs::Fronts::ends_there, crate::proofs::Fronts::goes_on))]
pub(crate) fn ends_whole(lines: &str, rest: &str) -> bool
    ensures { EndsWhole result lines.now rest.now }
{
    if rest.is_empty() {
        ends_so(lines)
    } else {
        false
    }
}

// Whether the last of these lines is the last line of a trace.
fn ends_so(lines: &str) -> bool
    ensures { EndsSo result lines.now }
{
    let line = last_line(lines);
    match read_totals(line) {
        Some(_) => true,
        None => false,
    }
}

/// Whether the bytes may be the front of a line.
pub(crate) fn is_short(rest: &str) -> bool
    ensures { IsTrue result ↔ IsShort rest.now }
{
    let bytes = rest.as_bytes();
    bytes.len() <= LONGEST_LINE && are_shown(bytes)
}

fn are_shown(bytes: &[u8]) -> bool
    ensures { result ≡ list_all is_shown bytes.now }
{
    bytes.iter().all(|byte| *byte >= 32 && *byte <= 126)
}

/// The lines, the last of them with its line feed too, and what is put after them.
pub(crate) fn followed(alloc: Global, lines: &str, last: &str) -> Result<String, AllocError>
    ensures { IfOk result (λ text. string_bytes text ≡ lines.now ++ 10 ∷ last.now) }
{
    let mut text = String::with_capacity(alloc, lines.len() + last.len() + 1)?;
    text.push_str(lines)?;
    text.push_str("\n")?;
    text.push_str(last)?;
    Ok(text)
}
