// The kinds of lines, and the word of each. It relies on nothing.

ghost use Rattle.std.specs.Prelude.{◌≡◌, ◌≤◌, bytes_eq, length};
ghost use Rattle.carried_lines.specs.CarriedText.{kind_text};
ghost use Rattle.carried_lines.specs.LineReading.{kind_named};

/// What a line says.
#[derive(Clone, Copy)]
pub enum Kind {
    Numbers,
    Clock,
    Openings,
    Word,
    Ccb,
    Freeze,
}

impl Kind {
    /// The word with which a line of this kind begins.
    pub fn word(self) -> &'static str
        ensures word { result.now ≡ kind_text self }
        ensures short { length result.now ≤ 8 }
    {
        match self {
            Kind::Numbers => "numbers",
            Kind::Clock => "clock",
            Kind::Openings => "openings",
            Kind::Word => "word",
            Kind::Ccb => "ccb",
            Kind::Freeze => "freeze",
        }
    }

    /// The kind of this word.
    pub fn named(word: &str) -> Option<Self>
        ensures { result ≡ kind_named word.now }
    {
        if Kind::Numbers.is_named(word) {
            Some(Kind::Numbers)
        } else if Kind::Clock.is_named(word) {
            Some(Kind::Clock)
        } else if Kind::Openings.is_named(word) {
            Some(Kind::Openings)
        } else if Kind::Word.is_named(word) {
            Some(Kind::Word)
        } else if Kind::Ccb.is_named(word) {
            Some(Kind::Ccb)
        } else if Kind::Freeze.is_named(word) {
            Some(Kind::Freeze)
        } else {
            None
        }
    }

    fn is_named(self, word: &str) -> bool
        ensures { result ≡ bytes_eq (kind_text self) word.now }
    {
        self.word() == word
    }
}
