// A page of text. It relies on `itoa` for decimal digits, and on `foreign` for how a text from outside is shown.

ghost use Rattle.std.specs.Prelude.{◌≡◌, ◌↔◌, ◌-◌, ◌++◌, [], true, false, IfErr, IfSome, MatchResult, OnOk, codes, encode_utf8, length, replicate, string_bytes, string_len};
ghost use Rattle.std.specs.Fmt.{decimal, digits, signed_decimal};
ghost use Rattle.std.specs.IoError.{error_kind};
ghost use Rattle.std.specs.Io.KnownBytes.{Appends};
ghost use Rattle.cli_text_page.specs.Escaping.{escaped, shown_as};

use crate::foreign::{ForeignCharacter, ForeignText};
use itoa::Buffer;
use std::alloc::{AllocError, Global};
use std::fmt::Display;
use std::io;
use std::io::{ErrorKind, Write};

/// Text for people, in memory. If memory is refused for a piece, the page is torn from then on: what stands on it is handed to nobody,
/// and whoever asks for it gets that error.
#[derive(Drop)]
pub struct Page {
    text: String,
    is_torn: bool,
}

impl Page {
    ghost use Rattle.cli_text_page.specs.Page.{Adds, Puts, byte_digits, printable};

    /// An empty page.
    pub fn new(alloc: Global) -> Self
        ensures { (result.is_torn ≡ false) × (string_bytes result.text ≡ []) }
    {
        Page {
            text: String::new(alloc),
            is_torn: false,
        }
    }

    /// Puts the program's own words after what is there.
    pub fn text(&mut self, text: &str)
        ensures { Puts self.old text.now self.new }
    {
        if self.text.push_str(text).is_err() {
            self.is_torn = true;
        }
    }

    /// Puts what is shown for a text that came from outside: from a manifest, a trace or the command line.
    pub fn foreign(&mut self, text: &str)
        ensures { Puts self.old (escaped text.now) self.new }
    {
        self.shown(&ForeignText(text));
    }

    /// Puts what is shown for one character of such a text.
    pub fn foreign_character(&mut self, character: char)
        ensures { Puts self.old (shown_as character) self.new }
    {
        self.shown(&ForeignCharacter(character));
    }

    /// Puts a number.
    pub fn number(&mut self, number: u64)
        ensures { Puts self.old (decimal number) self.new }
    {
        let mut digits = Buffer::new();
        self.text(digits.format(number));
    }

    /// Puts a number that may be negative.
    pub fn signed(&mut self, number: i64)
        ensures { Puts self.old (signed_decimal number) self.new }
    {
        let mut digits = Buffer::new();
        self.text(digits.format(number));
    }

    /// Puts a byte as two digits of base 16.
    pub fn byte(&mut self, byte: u8)
        ensures { Puts self.old (byte_digits byte) self.new }
    {
        if write!(self.text, "{byte:02x}").is_err() {
            self.is_torn = true;
        }
    }

    /// Puts a number with blanks before it, so that it is so wide at least.
    #[tactic(auto, using(crate::proofs::Putting::puts_both))]
    pub fn aligned(&mut self, number: u64, width: usize)
        ensures { Puts self.old (replicate (width - length (decimal number)) 32 ++ decimal number) self.new }
    {
        let mut digits = Buffer::new();
        let digits = digits.format(number);
        self.blanks(width.saturating_sub(digits.len()));
        self.text(digits);
    }

    /// Puts a word as a number of base 16, with `0x` before it.
    pub fn word(&mut self, word: u64)
        ensures { Puts self.old (codes "0x" ++ digits 16 false word) self.new }
    {
        if write!(self.text, "0x{word:x}").is_err() {
            self.is_torn = true;
        }
    }

    /// Puts the text of a value of the program's own, as of a code or a fault.
    pub fn shown<T: Display>(&mut self, value: &T)
        ensures { IfSome (T.output value.now) (λ text. Puts self.old text self.new) }
    {
        if write!(self.text, "{value}").is_err() {
            self.is_torn = true;
        }
    }

    /// Puts a byte as the character that it is; a dot, if it is none of the printable ones of ASCII.
    pub fn ascii(&mut self, byte: u8)
        ensures { Puts self.old (encode_utf8 (printable byte)) self.new }
    {
        let byte = if (b' '..=b'~').contains(&byte) {
            byte
        } else {
            b'.'
        };
        if self.text.push(char::from(byte)).is_err() {
            self.is_torn = true;
        }
    }

    /// Puts a pattern of the program's own words. Each `{}` in it stands for the next of the numbers.
    #[tactic(auto, using(crate::proofs::Putting::adds_none, crate::proofs::Putting::adds_one))]
    pub fn fill(&mut self, pattern: &str, numbers: &[u64])
        ensures { Adds self.old self.new }
    {
        let mut numbers = numbers.iter();
        for (place, words) in pattern.split("{}").enumerate() {
            if place > 0 {
                if let Some(number) = numbers.next() {
                    self.number(*number);
                }
            }
            self.text(words);
        }
    }

    /// Puts so many blanks.
    #[tactic(auto, using(crate::proofs::Putting::puts_none, crate::proofs::Putting::puts_blank))]
    pub fn blanks(&mut self, count: usize)
        ensures { Puts self.old (replicate count 32) self.new }
    {
        for _blank in 0..count {
            self.text(" ");
        }
    }

    /// How many bytes stand on it.
    pub fn len(&self) -> usize
        ensures { result ≡ string_len self.now.text }
    {
        self.text.len()
    }

    /// Whether none do.
    pub fn is_empty(&self) -> bool
        ensures { result ≡ true ↔ (string_bytes self.now.text ≡ []) }
    {
        self.text.is_empty()
    }

    /// Writes what stands on it, and empties it. It fails if the page is torn, as an error for want of memory, without writing; or if
    /// the writer fails.
    pub fn write_to<W: Write>(&mut self, out: &mut W) -> io::Result<()>
        ensures written { OnOk result ((self.old.is_torn ≡ false) × Appends (W.contents out.old) (W.contents out.new) (string_bytes self.old.text)) }
        ensures emptied { self.old.is_torn ≡ false → (self.new.is_torn ≡ false) × (string_bytes self.new.text ≡ []) }
        ensures torn { IfErr result (λ error. self.old.is_torn ≡ true → (error_kind error ≡ ErrorKind.OutOfMemory) × (out.new ≡ out.old) × (self.new ≡ self.old)) }
    {
        if self.is_torn {
            return Err(io::Error::from(AllocError));
        }
        let written = out.write_all(self.text.as_bytes());
        self.text.clear();
        written
    }

    /// What stands on it, unless it is torn.
    pub fn finish(self) -> Result<String, AllocError>
        ensures { MatchResult result (λ text. (self.is_torn ≡ false) × (text ≡ self.text)) (λ _. self.is_torn ≡ true) }
    {
        if self.is_torn {
            Err(AllocError)
        } else {
            Ok(self.text)
        }
    }
}
