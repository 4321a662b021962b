// Sense data of a key and a code. It relies on `base` for the bytes.

ghost use Rattle.std.specs.Prelude.{◌≡◌, ◌≤◌, MatchBool, length, slice_index};
ghost use Rattle.base.specs.ShortBytes.{most_bytes};
ghost use Rattle.show_decision.specs.Sense.{IsKnown, sense_bytes};

use base::ShortBytes;

/// The response codes of formats that are known: fixed, and of descriptors, each of a current error and of a deferred one.
pub(crate) fn is_known(response: u8) -> bool
    ensures { MatchBool result (IsKnown response) (IsKnown response → ⊥) }
{
    let form = response & 0x7f;
    if form < 0x70 {
        return false;
    }
    if form > 0x73 {
        return false;
    }
    true
}

/// The response code with which sense data begins; 0 if there is none.
pub(crate) fn response_of(sense: &[u8]) -> u8
    ensures { result ≡ slice_index sense.now 0 }
{
    if sense.is_empty() { 0 } else { sense[0] }
}

/// Sense data of that response code which reports just that key and code: of the fixed format 18 bytes, of descriptors 8, with none of them.
pub(crate) fn sense_of(response: u8, key: u8, asc: u8, ascq: u8) -> ShortBytes
    ensures { result ≡ sense_bytes response key asc ascq }
{
    if response & 0x7f < 0x72 {
        short(&[
            response, 0, key, 0, 0, 0, 0, 10, 0, 0, 0, 0, asc, ascq, 0, 0, 0, 0,
        ])
    } else {
        short(&[response, key, asc, ascq, 0, 0, 0, 0])
    }
}

// These bytes, which are few.
fn short(bytes: &[u8]) -> ShortBytes
    requires { length bytes.now ≤ most_bytes }
    ensures { result ≡ bytes.now }
{
    match ShortBytes::new(bytes) {
        Some(bytes) => bytes,
        None => unreachable!(),
    }
}
