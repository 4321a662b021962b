// The trace of an engine as text, in whole lines, from a record on. It relies on `trace` for lines.

ghost use Rattle.std.specs.Prelude.{◌≡◌, ◌≢◌, ◌+◌, ◌++◌, ◌≤◌, ◌<◌, None, Some, IfSome, IfNone, true, false, drop, length, slice_index_or, take};
ghost use Rattle.std.specs.Fmt.{with_newline};
ghost use Rattle.trace.specs.TraceText.{line_of};
ghost use Rattle.world.specs.TotalsOf.{totals_in};
ghost use Rattle.host_embedding.specs.Lines.{AddsLines, FindsNoRoom, HasNoLine, IsWithin, PutsLines, PutsSums, TakesLines, front_of};

use crate::call_result::CallResult;
use crate::engine_handle::EngineHandle;
use engine_core::Engine;
use trace::{print_entry, print_totals};
use trace_lines::{NoText, Text};
use world_calls::Record;

/// How many bytes have room for the line of any record with its line feed, and before it for the first line of a trace.
pub const LONGEST_TAKEN: usize = 720;

/// What of a trace was put into a place.
#[derive(Clone, Copy, Debug, PartialEq, Eq)]
pub struct PutLines {
    /// How many bytes.
    pub written: usize,
    /// The record from which to go on.
    pub next: u64,
}

// Puts a text after so many bytes of a place, where it finds room: how many bytes stand there then.
pub(crate) fn put_behind(text: &[u8], place: &mut [u8], written: usize) -> Option<usize>
    requires { written ≤ length place.old }
    ensures put { IfSome result (λ count. (count ≡ written + length text.now) × (count ≤ length place.new) × (take count place.new ≡ take written place.old ++ text.now)) }
    ensures behind { IfSome result (λ count. drop count place.new ≡ drop count place.old) }
    ensures same { IfNone result (place.new ≡ place.old) }
    ensures none { IfNone result (length place.old < written + length text.now) }
    ensures size { length place.new ≡ length place.old }
{
    if place.len() - written < text.len() {
        return None;
    }
    let count = written + text.len();
    place[written..count].copy_from_slice(text);
    Some(count)
}

// The line of a record, with its line feed. Before it there is room for the first line of a trace, of 13 bytes.
fn line(entry: &Record) -> Option<Text>
    ensures text { IfSome result (λ text. Some text ≡ with_newline (line_of entry.now)) }
    ensures none { IfNone result (line_of entry.now ≡ None) }
    ensures short { IfSome result (λ text. length text + 13 ≤ LONGEST_TAKEN) }
{
    let mut text = Text::none();
    match print_entry(entry, &mut text) {
        Ok(()) => {
            text.push(b'\n');
            Some(text)
        }
        Err(NoText) => None,
    }
}

/// The record of that number, which was not handed on.
pub(crate) fn entry(engine: &Engine, number: u64) -> &Record
    requires kept { engine.now.taken ≤ number }
    requires there { number < length engine.now.history }
    ensures { result.now ≡ slice_index_or engine.now.history number result.now }
{
    &engine.records()[(number - engine.taken()) as usize]
}

// Whether the line of record 0 finds room in a place after so many bytes, if there is such a record.
#[tactic(auto, using(crate::proofs::Lines::finds_some, crate::proofs::Lines::finds_none))]
fn finds_room(engine: &Engine, place: &[u8], written: usize) -> bool
    requires { engine.now.taken ≡ 0 }
    ensures room { result ≡ true → 0 < length engine.now.history → FindsNoRoom line_of engine.now.history 0 place.now written → ⊥ }
    ensures none { result ≡ false → (0 < length engine.now.history) × FindsNoRoom line_of engine.now.history 0 place.now written }
    ensures short { result ≡ false → length place.now + 13 < written + LONGEST_TAKEN }
{
    if engine.recorded() == 0 {
        return true;
    }
    match line(entry(engine, 0)) {
        Some(line) => written <= place.len() && line.len() <= place.len() - written,
        None => true,
    }
}

impl EngineHandle {
    /// Puts whole lines of the trace into a place, as many as find room: those of the records from this number on, and before
    /// that of record 0 the first line of a trace, unless the engine follows another one. If the record of this number was handed on,
    /// or the line of the first of these records finds no room, nothing is put, and the place is as it was. A place of LONGEST_TAKEN bytes
    /// has room for one line at least. What stands after the lines that were put stays as it was.
    #[tactic(auto, using(crate::proofs::Handing::few_front))]
    pub fn put_lines(&self, from: u64, place: &mut [u8], put: &mut PutLines) -> CallResult
        ensures room { put.new.written ≤ length place.new }
        ensures lines { PutsLines line_of result (front_of self.now.setup) self.now.history self.now.taken from place.old place.new put.new.written put.new.next }
        ensures some { LONGEST_TAKEN ≤ length place.old → result ≢ CallResult.NoRoom }
    {
        put_from(&self.engine, self.front(), from, place, put)
    }

    /// Puts whole lines of the records that were not handed on, as many as find room, and hands those records on: it forgets them.
    /// Before the line of record 0 stands the first line of a trace, unless the engine follows another one. With no record left nothing
    /// is put; else a place of LONGEST_TAKEN bytes has room for one line at least. What stands after the lines that were put stays as it
    /// was.
    pub fn take_lines(&mut self, place: &mut [u8], put: &mut PutLines) -> CallResult
        ensures room { put.new.written ≤ length place.new }
        ensures lines { TakesLines result self.old self.new place.old place.new put.new.written put.new.next }
        ensures some { LONGEST_TAKEN ≤ length place.old → result ≢ CallResult.NoRoom }
    {
        let from = self.engine.taken();
        put.written = 0;
        put.next = from;
        if from >= self.engine.recorded() {
            return CallResult::Done;
        }
        let result = self.put_lines(from, place, put);
        self.engine.hand_on((put.next - from) as usize);
        self.lines.clear();
        self.lines.shrink_to_fit();
        result
    }

    /// Puts the last line of a trace into a place: the sums so far. What stands after it stays as it was.
    #[tactic(auto, using(crate::proofs::Lines::put_alone))]
    pub fn put_end(&self, place: &mut [u8], put: &mut PutLines) -> CallResult
        ensures room { put.new.written ≤ length place.new }
        ensures line { PutsSums result (totals_in self.now.history self.now.world) place.old place.new put.new.written }
    {
        put.written = 0;
        let mut line = Text::none();
        print_totals(self.engine.totals(), &mut line);
        match put_behind(line.as_slice(), place, 0) {
            Some(count) => {
                put.written = count;
                CallResult::Done
            }
            None => CallResult::NoRoom,
        }
    }
}

// The same of an engine, with what stands before the line of record 0.
fn put_from(
    engine: &Engine,
    first: &str,
    from: u64,
    place: &mut [u8],
    put: &mut PutLines,
) -> CallResult
    ensures room { put.new.written ≤ length place.new }
    ensures lines { PutsLines line_of result first.now engine.now.history engine.now.taken from place.old place.new put.new.written put.new.next }
    ensures short { result ≡ CallResult.NoRoom → length place.old + 13 < length first.now + LONGEST_TAKEN }
{
    put.written = 0;
    put.next = from;
    if from < engine.taken() {
        return CallResult::Taken;
    }
    if from == 0 {
        let first = first.as_bytes();
        if !finds_room(engine, place, first.len()) {
            return CallResult::NoRoom;
        }
        match put_behind(first, place, 0) {
            Some(count) => put.written = count,
            None => return CallResult::NoRoom,
        }
    }
    put_records(engine, place, put)
}

// Puts the lines of the records from the next on, as many as find room. If the first of them does not, nothing is put.
#[tactic(auto, using(crate::proofs::Lines::adds_none, crate::proofs::Lines::adds_one))]
fn put_records(engine: &Engine, place: &mut [u8], put: &mut PutLines) -> CallResult
    requires room { put.old.written ≤ length place.old }
    requires kept { engine.now.taken ≤ put.old.next }
    ensures room { put.new.written ≤ length place.new }
    ensures lines { result ≢ CallResult.NoRoom → AddsLines line_of engine.now.history (take put.old.written place.old) put.old.next (take put.new.written place.new) put.new.next }
    ensures within { IsWithin engine.now.history put.old.next put.new.next }
    ensures behind { (put.old.written ≤ put.new.written) × (drop put.new.written place.new ≡ drop put.new.written place.old) }
    ensures same { result ≡ CallResult.NoRoom → place.new ≡ place.old }
    ensures none { result ≡ CallResult.NoRoom → (put.new.written ≡ put.old.written) × (put.new.next ≡ put.old.next) × (put.old.next < length engine.now.history) × FindsNoRoom line_of engine.now.history put.old.next place.new put.old.written }
    ensures full { result ≡ CallResult.Done → FindsNoRoom line_of engine.now.history put.new.next place.new put.new.written }
    ensures some { result ≡ CallResult.Done → put.old.next < length engine.now.history → put.old.next < put.new.next }
    ensures others { result ≢ CallResult.NoRoom → result ≢ CallResult.Done → (result ≡ CallResult.NoText) × HasNoLine line_of engine.now.history put.new.next }
    ensures short { result ≡ CallResult.NoRoom → length place.old + 13 < put.old.written + LONGEST_TAKEN }
{
    let all = engine.recorded();
    let from = put.next;
    for number in from..all {
        let Some(line) = line(entry(engine, number)) else {
            return CallResult::NoText;
        };
        match put_behind(line.as_slice(), place, put.written) {
            Some(count) => put.written = count,
            None if number == from => return CallResult::NoRoom,
            None => return CallResult::Done,
        }
        put.next = number + 1;
    }
    CallResult::Done
}
