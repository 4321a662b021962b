// A page of JSON: objects and lists of numbers and strings. It relies on `cli_text_page` for the page.
//
//     let mut json = Json::new(alloc);
//     json.begin();
//     json.number("queue", 0);
//     json.begin_at("status");
//     json.word("name", "busy");
//     json.end();
//     json.end();
//     json.line();
//     json.write_to(out)
//
// As on a page, no call that puts something has a result. A key and a word are the program's own, of ASCII without quotation marks.

use cli_text_page::{Page, is_shown};
use std::alloc::Global;
use std::fmt::Display;
use std::io;
use std::io::Write;

/// JSON in memory. If memory is refused for a piece, the page is torn from then on, as a `Page` is.
#[derive(Drop)]
pub struct Json {
    page: Page,
    // whether something stands before, in the same object or list
    has_before: bool,
}

impl Json {
    /// Nothing.
    pub fn new(alloc: Global) -> Self {
        Json {
            page: Page::new(alloc),
            has_before: false,
        }
    }

    /// Begins an object that has no key: a line, or one of a list.
    pub fn begin(&mut self) {
        self.part();
        self.page.text("{");
        self.has_before = false;
    }

    /// Begins an object of a list in a line of its own.
    pub fn begin_line(&mut self) {
        self.part();
        self.page.text("\n{");
        self.has_before = false;
    }

    /// Begins an object under a key.
    pub fn begin_at(&mut self, key: &str) {
        self.key(key);
        self.page.text("{");
        self.has_before = false;
    }

    /// Ends an object.
    pub fn end(&mut self) {
        self.page.text("}");
        self.has_before = true;
    }

    /// Begins a list under a key.
    pub fn begin_list(&mut self, key: &str) {
        self.key(key);
        self.page.text("[");
        self.has_before = false;
    }

    /// Ends a list.
    pub fn end_list(&mut self) {
        self.page.text("]");
        self.has_before = true;
    }

    /// Ends a line.
    pub fn line(&mut self) {
        self.page.text("\n");
        self.has_before = false;
    }

    /// Puts a number that is below 2 ^ 53, so that every reader of JSON has it exactly.
    pub fn number(&mut self, key: &str, number: u64) {
        self.key(key);
        self.page.number(number);
    }

    /// Puts a number of 64 bits: its decimal digits as a string, since a reader of JSON may keep 53 bits of a number.
    pub fn digits(&mut self, key: &str, number: u64) {
        self.key(key);
        self.page.text("\"");
        self.page.number(number);
        self.page.text("\"");
    }

    /// Puts whether something is so.
    pub fn flag(&mut self, key: &str, is_so: bool) {
        self.key(key);
        self.page.text(if is_so { "true" } else { "false" });
    }

    /// Puts that there is no such thing.
    pub fn null(&mut self, key: &str) {
        self.key(key);
        self.page.text("null");
    }

    /// Puts a word of the program's own; null for an empty one.
    pub fn word(&mut self, key: &str, word: &str) {
        self.key(key);
        if word.is_empty() {
            self.page.text("null");
        } else {
            self.page.text("\"");
            self.page.text(word);
            self.page.text("\"");
        }
    }

    /// Puts the text of a value of the program's own, as of a code, which is of ASCII without quotation marks.
    pub fn shown<T: Display>(&mut self, key: &str, value: &T) {
        self.key(key);
        self.page.text("\"");
        self.page.shown(value);
        self.page.text("\"");
    }

    /// Puts bytes as digits of base 16, two for each.
    pub fn bytes(&mut self, key: &str, bytes: &[u8]) {
        self.key(key);
        self.page.text("\"");
        for byte in bytes {
            self.page.byte(*byte);
        }
        self.page.text("\"");
    }

    /// Puts a number below 16 as a string of one digit of base 16.
    pub fn digit(&mut self, key: &str, digit: u8) {
        self.key(key);
        self.page.text("\"");
        self.page.ascii(if digit < 10 {
            b'0' + digit
        } else {
            b'a' + (digit & 0x0f).saturating_sub(10)
        });
        self.page.text("\"");
    }

    /// Puts bytes as a string of their characters, in which what is no printable ASCII is a dot.
    pub fn ascii(&mut self, key: &str, bytes: &[u8]) {
        self.key(key);
        self.page.text("\"");
        for byte in bytes {
            let is_marked = *byte == b'"' || *byte == b'\\';
            self.page.text(if is_marked { "\\" } else { "" });
            self.page.ascii(*byte);
        }
        self.page.text("\"");
    }

    /// Puts a text that came from outside as a string. What a terminal would obey, and what is not shown as it is anywhere else, is an escape
    /// of JSON.
    pub fn foreign(&mut self, key: &str, text: &str) {
        self.key(key);
        self.page.text("\"");
        for character in text.chars() {
            self.character(character);
        }
        self.page.text("\"");
    }

    /// Lends the page for the inside of a string under a key, of the program's own words.
    pub fn begin_words(&mut self, key: &str) -> &mut Page {
        self.key(key);
        self.page.text("\"");
        &mut self.page
    }

    /// Ends that string.
    pub fn end_words(&mut self) {
        self.page.text("\"");
    }

    /// Writes what stands there, and empties it. It fails as a page does.
    pub fn write_to<W: Write>(&mut self, out: &mut W) -> io::Result<()> {
        self.page.write_to(out)
    }

    // Parts the next value from what stands before.
    fn part(&mut self) {
        self.page.text(if self.has_before { "," } else { "" });
        self.has_before = true;
    }

    fn key(&mut self, key: &str) {
        self.page.text(if self.has_before { ",\"" } else { "\"" });
        self.has_before = true;
        self.page.text(key);
        self.page.text("\":");
    }

    // Puts a character of a string.
    fn character(&mut self, character: char) {
        if character == '"' || character == '\\' {
            self.page.text("\\");
        }
        if is_shown(character) {
            self.page.foreign_character(character);
        } else {
            self.escape(u32::from(character));
        }
    }

    // Puts the escape of a character by its code, which is that of a pair of surrogates from 2 ^ 16 on.
    fn escape(&mut self, code: u32) {
        if code < 0x1_0000 {
            self.unit(code);
        } else {
            let above = code - 0x1_0000;
            self.unit(0xd800 + above / 0x400);
            self.unit(0xdc00 + above % 0x400);
        }
    }

    // Puts the escape of a unit of 16 bits.
    fn unit(&mut self, unit: u32) {
        self.page.text("\\u");
        self.page
            .byte(u8::try_from(unit / 0x100).unwrap_or(u8::MAX));
        self.page
            .byte(u8::try_from(unit % 0x100).unwrap_or(u8::MAX));
    }
}
