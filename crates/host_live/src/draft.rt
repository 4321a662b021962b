// A line while it comes, of which no more is kept than a line may have. It relies on `trace_lines` for the place where it is kept.

ghost use Rattle.std.specs.Prelude.{◌≡◌, ◌≢◌, ◌++◌, ℕ, [], List, true, false, MatchOption};
ghost use Rattle.std.specs.List.{list_all};
ghost use Rattle.host_live.specs.Drafts.{IsDraftOf};
ghost use Rattle.host_live.specs.LinesCome.{IsText, is_no_nul};

use std::marker::Model;
use trace_lines::Text;

/// How many bytes a line may have, without its line feed.
pub const MOST_BYTES: usize = 1024;

/// A line as far as it came, or that it is too long.
#[derive(Drop)]
pub(crate) struct Draft {
    text: Text,
    is_long: bool,
}

impl Model for Draft {
    ghost use Rattle.host_live.specs.Drafts.{DraftState};

    ghost Value = { DraftState };

    ghost use Rattle.std.specs.Prelude.{◌≤◌, length};
    ghost use Rattle.host_live.specs.declared.draft.TheConstants.{MOST_BYTES};

    ghost view = { λ d. record { bytes = d.text; is_long = d.is_long } };

    ghost invariant = { λ d. length d.text ≤ MOST_BYTES };
}

impl Draft {
    /// No bytes.
    pub(crate) fn none() -> Self
        ensures { result ≡ record { bytes = []; is_long = false } }
    {
        Draft {
            text: Text::none(),
            is_long: false,
        }
    }

    /// Whether no bytes came.
    pub(crate) fn is_empty(&self) -> bool
        ensures empty { result ≡ true → (line : List ℕ) → IsDraftOf line self.now → line ≡ [] }
        ensures some { result ≡ false → (line : List ℕ) → IsDraftOf line self.now → line ≢ [] }
    {
        self.text.len() == 0 && !self.is_long
    }

    /// Adds bytes. Of a line that is too long they are let go.
    pub(crate) fn add(&mut self, bytes: &[u8])
        ensures { (line : List ℕ) → IsDraftOf line self.old → IsDraftOf (line ++ bytes.now) self.new }
    {
        if bytes.len() > MOST_BYTES - self.text.len() {
            self.is_long = true;
        }
        if !self.is_long {
            self.text.put(bytes);
        }
    }

    /// Begins anew.
    pub(crate) fn clear(&mut self)
        ensures { self.new ≡ record { bytes = []; is_long = false } }
    {
        self.text.clear();
        self.is_long = false;
    }

    /// The line, if it is not too long, is UTF-8, and has no NUL byte.
    pub(crate) fn text(&self) -> Option<&str>
        ensures { (line : List ℕ) → IsDraftOf line self.now → MatchOption result (IsText line → ⊥) (λ text. (text.now ≡ line) × IsText line) }
    {
        if self.is_long || !has_no_nul(self.text.as_slice()) {
            return None;
        }
        match str::from_utf8(self.text.as_slice()) {
            Ok(text) => Some(text),
            Err(_) => None,
        }
    }
}

// No byte is 0.
fn has_no_nul(bytes: &[u8]) -> bool
    ensures { result ≡ list_all is_no_nul bytes.now }
{
    bytes.iter().all(|byte| is_no_nul(*byte))
}

fn is_no_nul(byte: u8) -> bool
    ensures { result ≡ is_no_nul byte }
{
    byte != 0
}
