// The lines of what an engine took over as text, in whole lines, from one on. It relies on `carried_lines` for lines.

ghost use Rattle.std.specs.Prelude.{◌≡◌, ◌≢◌, ◌+◌, ◌≤◌, ◌<◌, None, Some, IfSome, IfNone, true, false, drop, length, take};
ghost use Rattle.std.specs.Fmt.{with_newline};
ghost use Rattle.carried_lines.specs.CarriedText.{carried_text};
ghost use Rattle.host_embedding.specs.Lines.{AddsLines, FindsNoRoom, HasNoLine, IsWithin, PutsCarried, PutsLines};

use crate::call_result::CallResult;
use crate::engine_handle::EngineHandle;
use crate::text_lines::{LONGEST_TAKEN, PutLines, put_behind};
use carried_lines::{CARRIED, continued_header, print_carried};
use trace_lines::{NoText, Text};
use world_calls::{CarriedLine, Version};

// The carried line, with its line feed.
fn line(version: Version, carried: &CarriedLine) -> Option<Text>
    ensures text { IfSome result (λ text. Some text ≡ with_newline (carried_text version carried.now)) }
    ensures none { IfNone result (carried_text version carried.now ≡ None) }
    ensures short { IfSome result (λ text. length text ≤ CARRIED + 1) }
{
    let mut text = Text::none();
    match print_carried(version, carried, &mut text) {
        Ok(()) => {
            text.push(b'\n');
            Some(text)
        }
        Err(NoText) => None,
    }
}

impl EngineHandle {
    /// Puts whole lines of what the engine took over into a place, as many as find room: those from this one on, counted from 0, and
    /// before line 0 the first line of their trace. After the last one nothing is put. If the engine follows no other one, or has a record,
    /// or the first of these lines finds no room, nothing is put, and the place is as it was. A place of LONGEST_TAKEN bytes has room for
    /// one line at least. What stands after the lines that were put stays as it was.
    pub fn put_carried(&self, from: u64, place: &mut [u8], put: &mut PutLines) -> CallResult
        ensures room { put.new.written ≤ length place.new }
        ensures lines { PutsCarried result self.now from place.old place.new put.new.written put.new.next }
        ensures some { LONGEST_TAKEN ≤ length place.old → result ≢ CallResult.NoRoom }
    {
        if self.is_continued && self.engine.recorded() == 0 {
            let version = self.engine.version();
            let first = continued_header(version);
            put_from(version, &self.lines, first, from, place, put)
        } else {
            put.written = 0;
            put.next = from;
            CallResult::Taken
        }
    }
}

// Puts these lines from one on, and before line 0 that text, in whole lines.
fn put_from(
    version: Version,
    lines: &[CarriedLine],
    first: &str,
    from: u64,
    place: &mut [u8],
    put: &mut PutLines,
) -> CallResult
    ensures room { put.new.written ≤ length place.new }
    ensures lines { PutsLines (carried_text version) result first.now lines.now 0 from place.old place.new put.new.written put.new.next }
    ensures short { result ≡ CallResult.NoRoom → length place.old < length first.now + (CARRIED + 1) }
{
    put.written = 0;
    put.next = from;
    if from == 0 {
        let text = first.as_bytes();
        if !finds_room(version, lines, place, text.len()) {
            return CallResult::NoRoom;
        }
        match put_behind(text, place, 0) {
            Some(count) => put.written = count,
            None => return CallResult::NoRoom,
        }
    }
    put_rest(version, lines, place, put)
}

// Whether line 0 finds room in a place after so many bytes, if there is such a line.
#[tactic(auto, using(crate::proofs::Lines::finds_some, crate::proofs::Lines::finds_none))]
fn finds_room(version: Version, lines: &[CarriedLine], place: &[u8], written: usize) -> bool
    ensures room { result ≡ true → 0 < length lines.now → FindsNoRoom (carried_text version) lines.now 0 place.now written → ⊥ }
    ensures none { result ≡ false → (0 < length lines.now) × FindsNoRoom (carried_text version) lines.now 0 place.now written }
    ensures short { result ≡ false → length place.now < written + (CARRIED + 1) }
{
    if lines.is_empty() {
        return true;
    }
    match line(version, &lines[0]) {
        Some(line) => written <= place.len() && line.len() <= place.len() - written,
        None => true,
    }
}

// Puts the lines from the next on, as many as find room. If the first of them does not, nothing is put.
#[tactic(auto, using(crate::proofs::Lines::adds_none, crate::proofs::Lines::adds_one))]
fn put_rest(
    version: Version,
    lines: &[CarriedLine],
    place: &mut [u8],
    put: &mut PutLines,
) -> CallResult
    requires { put.old.written ≤ length place.old }
    ensures room { put.new.written ≤ length place.new }
    ensures lines { result ≢ CallResult.NoRoom → AddsLines (carried_text version) lines.now (take put.old.written place.old) put.old.next (take put.new.written place.new) put.new.next }
    ensures within { IsWithin lines.now put.old.next put.new.next }
    ensures behind { (put.old.written ≤ put.new.written) × (drop put.new.written place.new ≡ drop put.new.written place.old) }
    ensures same { result ≡ CallResult.NoRoom → place.new ≡ place.old }
    ensures none { result ≡ CallResult.NoRoom → (put.new.written ≡ put.old.written) × (put.new.next ≡ put.old.next) × (put.old.next < length lines.now) × FindsNoRoom (carried_text version) lines.now put.old.next place.new put.old.written }
    ensures full { result ≡ CallResult.Done → FindsNoRoom (carried_text version) lines.now put.new.next place.new put.new.written }
    ensures some { result ≡ CallResult.Done → put.old.next < length lines.now → put.old.next < put.new.next }
    ensures others { result ≢ CallResult.NoRoom → result ≢ CallResult.Done → (result ≡ CallResult.NoText) × HasNoLine (carried_text version) lines.now put.new.next }
    ensures short { result ≡ CallResult.NoRoom → length place.old < put.old.written + (CARRIED + 1) }
{
    let from = put.next;
    for number in from..lines.len() as u64 {
        let Some(line) = line(version, &lines[number as usize]) else {
            return CallResult::NoText;
        };
        match put_behind(line.as_slice(), place, put.written) {
            Some(count) => put.written = count,
            None if number == from => return CallResult::NoRoom,
            None => return CallResult::Done,
        }
        put.next = number + 1;
    }
    CallResult::Done
}
