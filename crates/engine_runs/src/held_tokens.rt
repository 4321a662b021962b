// The rights of one run to give its freezes back: a list of at most eight, which takes no memory. It relies on
// `freeze_ledger` for tokens, on `bpf_semantics` for how many there may be, and on `arrayvec` for the list.

ghost use Rattle.std.specs.Prelude.{◌≡◌, ℕ, ◌<◌, ◌≢◌, ◌++◌, [], ◌∷◌, List, length, Some, None, IfSome, IfNone, slice_index_or};
ghost use Rattle.std.specs.Option.{option_to_list};
ghost use Rattle.freeze_ledger.specs.declared.freeze.Freeze.{Freeze};
ghost use Rattle.freeze_ledger.specs.Freezes.{without};
ghost use Rattle.engine_runs.specs.RunsState.{told, tokens_of};
ghost use Rattle.engine_runs.specs.Tokens.{AreTokensWith};

use arrayvec::ArrayVec;
use bpf_semantics::MAX_HELD;
use freeze_ledger::FreezeToken;
use std::marker::Model;

/// The tokens of a run, in the order of their numbers. Each place that is used has one.
pub(crate) type HeldTokens = ArrayVec<Option<HeldToken>, MAX_HELD>;

/// The right of a run to give a freeze back. Where it is dropped, as with its engine, the freeze is forfeited.
pub(crate) struct HeldToken(FreezeToken);

impl Model for HeldToken {
    ghost use Rattle.freeze_ledger.specs.declared.freeze.Freeze.{Freeze};

    ghost Value = { Freeze };

    ghost view = { λ held. held.0 };
}

impl Drop for HeldToken {
    fn drop(self) {
        let HeldToken(token) = self;
        token.forfeit();
    }
}

impl HeldToken {
    fn new(token: FreezeToken) -> Self
        ensures { result ≡ token }
    {
        HeldToken(token)
    }

    // The number of the freeze.
    fn number(&self) -> u32
        ensures { result ≡ self.now.number }
    {
        self.0.number()
    }

    /// The token itself.
    pub(crate) fn into_token(self) -> FreezeToken
        ensures { result ≡ self }
    {
        let HeldToken(token) = self;
        token
    }
}

// The number of a token's freeze: 0 where there is none.
fn number_told(token: &Option<HeldToken>) -> u32
    ensures { result ≡ told token.now }
{
    match token {
        Some(token) => token.number(),
        None => 0,
    }
}

/// Adds the right to give a freeze back, for which there is room: the number of the freeze.
pub(crate) fn hold(tokens: &mut HeldTokens, token: FreezeToken) -> u32
    requires { length tokens.old.items < MAX_HELD }
    ensures number { result ≡ token.number }
    ensures tokens { tokens.new.items ≡ tokens.old.items ++ Some token ∷ [] }
{
    let number = token.number();
    tokens.push(Some(HeldToken::new(token)));
    number
}

/// What a run that starts may give back, in place of what stands there: the freeze that was taken for it, or nothing. It answers the
/// number that the run is told, 0 where there is none.
pub(crate) fn taken_at_start(tokens: &mut HeldTokens, token: Option<FreezeToken>) -> u32
    ensures number { result ≡ told token }
    ensures tokens { tokens.new.items ≡ tokens_of (option_to_list token) }
{
    tokens.clear();
    match token {
        Some(token) => hold(tokens, token),
        None => 0,
    }
}

/// Takes out the right to give that freeze back, which is there.
pub(crate) fn let_go(tokens: &mut HeldTokens, freeze: u32) -> FreezeToken
    requires { (freezes : List Freeze) × AreTokensWith tokens.old.items freezes freeze }
    ensures { (freezes : List Freeze) (it : AreTokensWith tokens.old.items freezes freeze) →
        (result ≡ it.entry) × (tokens.new.items ≡ tokens_of (without freeze freezes)) }
{
    let at = place_of_token(tokens.as_slice(), freeze).unwrap();
    let Some(held) = tokens.remove(at) else {
        unreachable!()
    };
    held.into_token()
}

// Where the token of that freeze stands, if it is there.
fn place_of_token(tokens: &[Option<HeldToken>], freeze: u32) -> Option<usize>
    ensures within { IfSome result (λ place. place < length tokens.now) }
    ensures found { IfSome result (λ place. told (slice_index_or tokens.now place None) ≡ freeze) }
    ensures none { IfNone result ((k : ℕ) → k < length tokens.now → told (slice_index_or tokens.now k None) ≢ freeze) }
{
    for (place, token) in tokens.iter().enumerate() {
        if number_told(token) == freeze {
            return Some(place);
        }
    }
    None
}
