// What is decided of the codes of a sense key: the text of each decision once, and for each code the number of its decision. It relies on `rows`
// for how many codes there are.

ghost use Rattle.std.specs.Prelude.{◌≡◌, ◌≢◌, ◌<◌, ℕ, [], IfOk, MatchBool, OnOk, Some, length, map, slice_get, string_bytes};
ghost use Rattle.show_decision.specs.Numbered.{AreFound, IsNumbered, IsPushed, text_at};

use crate::rows::CODES;
use std::alloc::{AllocError, Global};
use std::collections::BTreeMap;

/// The decisions of the first codes of a key.
#[derive(Drop)]
pub(crate) struct Decisions {
    pub(crate) numbers: Vec<usize>,
    pub(crate) texts: Vec<String>,
    // Under each text its number: that of the last decision is tried first.
    pub(crate) places: BTreeMap<String, usize>,
    last: usize,
}

impl Decisions {
    /// Those of no code, with room for all.
    pub(crate) fn new(alloc: Global) -> Result<Self, AllocError>
        ensures numbers { IfOk result (λ it. it.numbers.items ≡ []) }
        ensures texts { IfOk result (λ it. it.texts.items ≡ []) }
        ensures found { IfOk result (λ it. AreFound it.places (map string_bytes it.texts.items)) }
    {
        Ok(Decisions {
            numbers: Vec::with_capacity(alloc, CODES)?,
            texts: Vec::new(alloc),
            places: BTreeMap::new(alloc),
            last: 0,
        })
    }

    /// Adds that of the next code.
    pub(crate) fn push(&mut self, text: String) -> Result<(), AllocError>
        requires { AreFound self.old.places (map string_bytes self.old.texts.items) }
        ensures found { OnOk result (AreFound self.new.places (map string_bytes self.new.texts.items)) }
        ensures pushed { OnOk result (IsPushed self.old.numbers.items (map string_bytes self.old.texts.items) (string_bytes text) self.new.numbers.items (map string_bytes self.new.texts.items)) }
    {
        let number = self.number_of(text)?;
        self.numbers.push(number)?;
        Ok(())
    }

    // The number of a decision: that which it has, or the next one.
    fn number_of(&mut self, text: String) -> Result<usize, AllocError>
        requires { AreFound self.old.places (map string_bytes self.old.texts.items) }
        ensures found { OnOk result (AreFound self.new.places (map string_bytes self.new.texts.items)) }
        ensures numbered { IfOk result (IsNumbered (map string_bytes self.old.texts.items) (string_bytes text) (map string_bytes self.new.texts.items)) }
        ensures others { self.new.numbers ≡ self.old.numbers }
    {
        if self.is_at(self.last, text.as_str()) {
            return Ok(self.last);
        }
        let place = self.place_of(text.as_str());
        if self.is_at(place, text.as_str()) {
            self.last = place;
            return Ok(place);
        }
        self.add(text)
    }

    // Whether that text has the number.
    fn is_at(&self, number: usize, text: &str) -> bool
        ensures { MatchBool result (slice_get (map string_bytes self.now.texts.items) number ≡ Some text.now) (slice_get (map string_bytes self.now.texts.items) number ≡ Some text.now → ⊥) }
    {
        match self.texts.get(number) {
            Some(known) => known.as_str() == text,
            None => false,
        }
    }

    // Where the text stands, if it is there.
    fn place_of(&self, text: &str) -> usize
        requires { AreFound self.now.places (map string_bytes self.now.texts.items) }
        ensures { (number : ℕ) → number < length self.now.texts.items → text_at (map string_bytes self.now.texts.items) number ≡ text.now → result ≡ number }
    {
        match self.places.get(text) {
            Some(place) => *place,
            None => self.texts.len(),
        }
    }

    // Adds a text that is not there.
    fn add(&mut self, text: String) -> Result<usize, AllocError>
        requires found { AreFound self.old.places (map string_bytes self.old.texts.items) }
        requires new { (number : ℕ) → number < length self.old.texts.items → text_at (map string_bytes self.old.texts.items) number ≢ string_bytes text }
        ensures found { OnOk result (AreFound self.new.places (map string_bytes self.new.texts.items)) }
        ensures numbered { IfOk result (IsNumbered (map string_bytes self.old.texts.items) (string_bytes text) (map string_bytes self.new.texts.items)) }
        ensures others { self.new.numbers ≡ self.old.numbers }
    {
        let number = self.texts.len();
        self.texts.push(text.clone()?)?;
        let _ = self.places.insert(text, number)?;
        self.last = number;
        Ok(number)
    }

    /// The text of that number.
    pub(crate) fn text(&self, number: usize) -> &str
        ensures { result.now ≡ text_at (map string_bytes self.now.texts.items) number }
    {
        match self.texts.get(number) {
            Some(text) => text.as_str(),
            None => "",
        }
    }
}
