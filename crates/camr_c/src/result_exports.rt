// The texts of results. It relies on `host_embedding` for them.

ghost use Rattle.std.specs.Prelude.{◌≡◌, ◌<◌, ◌≤◌, MatchBool, true, false, length};
ghost use Rattle.camr_c.specs.Exports.{TextOf};
ghost use Rattle.host_embedding.specs.declared.call_result.TheConstants.{RESULTS};

use host_embedding::{CallResult, put_front};

/// Puts the front of a result's text, as much as finds room: whether there is a result of that number.
#[unsafe(no_mangle)]
pub extern "C" fn camr_raw_result_text(number: u32, place: &mut [u8], written: &mut usize) -> bool
    ensures known { MatchBool result (number < RESULTS) (RESULTS ≤ number) }
    ensures text { written.new ≤ length place.new }
    ensures told { result ≡ true → TextOf number place.old place.new written.new }
    ensures none { result ≡ false → (written.new ≡ 0) × (place.new ≡ place.old) }
{
    match CallResult::numbered(number) {
        Some(result) => {
            // The proof knows that its number is one of few once it is asked for.
            let _number = result.number();
            *written = put_front(result.text().as_bytes(), place);
            true
        }
        None => {
            *written = 0;
            false
        }
    }
}
