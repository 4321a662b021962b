// The tokens of guests' freezes, where nobody else keeps them: found by number. It relies on `freeze_ledger` for tokens, and on
// `cam_numbered_slots` for the search.

ghost use Rattle.std.specs.Prelude.{◌≡◌, ◌<◌, ◌≤◌, Contains, IsSome, IsTrue, false, None, IfSome, IfNone, length, vec_capacity};
ghost use Rattle.std.specs.List.{insert};
ghost use Rattle.freeze_ledger.specs.Freezes.{entry_of, without};
ghost use Rattle.engine_core.specs.ByNumber.{AreTokens};

use cam_numbered_slots::{Numbered, place_for};
use freeze_ledger::FreezeToken;
use std::marker::Model;

/// The right of a guest to give a freeze back. Where it is dropped, as with its engine, the freeze is forfeited.
pub struct GuestToken(FreezeToken);

impl Model for GuestToken {
    ghost use Rattle.freeze_ledger.specs.declared.freeze.Freeze.{Freeze};

    ghost Value = { Freeze };

    ghost view = { λ token. token.0 };
}

impl Drop for GuestToken {
    fn drop(self) {
        let GuestToken(token) = self;
        token.forfeit();
    }
}

impl Numbered for GuestToken {
    ghost number_of = { λ token. token.number };

    fn number(&self) -> u32 {
        self.0.number()
    }
}

impl GuestToken {
    /// The token, which may be dropped from now on.
    pub fn new(token: FreezeToken) -> Self
        ensures { result ≡ token }
    {
        GuestToken(token)
    }

    /// The token itself.
    pub fn into_token(self) -> FreezeToken
        ensures { result ≡ self }
    {
        let GuestToken(token) = self;
        token
    }
}

/// Whether the token of the freeze of that number is there. It asks for tokens of rising numbers.
pub(crate) fn has_token(tokens: &[GuestToken], freeze: u32) -> bool
    requires { AreTokens tokens.now }
    ensures there { IsTrue result → IsSome (entry_of freeze tokens.now) }
    ensures none { result ≡ false → entry_of freeze tokens.now ≡ None }
{
    let place = place_for(tokens, freeze);
    place < tokens.len() && tokens[place].number() == freeze
}

/// Takes out the token of the freeze of that number, with the place at which it stood; `None`, which changes nothing, exactly
/// where it is not there. It asks for tokens of rising numbers.
pub fn take_token(tokens: &mut Vec<GuestToken>, freeze: u32) -> Option<(usize, FreezeToken)>
    requires { AreTokens tokens.old.items }
    ensures taken { IfSome result (λ its. Contains tokens.old.items its.1 × (its.1.number ≡ freeze) × (tokens.new.items ≡ without freeze tokens.old.items)) }
    ensures back { IfSome result (λ its. (its.0 ≤ length tokens.new.items) × (insert tokens.new.items its.0 its.1 ≡ tokens.old.items)) }
    ensures room { IfSome result (λ _. length tokens.new.items < vec_capacity tokens.new) }
    ensures none { IfNone result ((tokens.new.items ≡ tokens.old.items) × (entry_of freeze tokens.old.items ≡ None)) }
{
    let place = place_for(tokens, freeze);
    if place < tokens.len() && tokens[place].number() == freeze {
        Some((place, tokens.remove(place).into_token()))
    } else {
        None
    }
}

/// Puts a token at a place, for which there is room.
pub fn put_token(tokens: &mut Vec<GuestToken>, place: usize, token: FreezeToken)
    requires place { place ≤ length tokens.old.items }
    requires room { length tokens.old.items < vec_capacity tokens.old }
    ensures { tokens.new.items ≡ insert tokens.old.items place token }
{
    if tokens.insert(place, GuestToken::new(token)).is_err() {
        unreachable!();
    }
}
