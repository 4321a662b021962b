// Texts that are put into a place of a host's. It relies on no other crate.

ghost use Rattle.std.specs.Prelude.{◌≡◌, ◌≤◌, drop, length, min, take};

/// Puts the front of a text into a place, as much as finds room: how many bytes that are.
pub fn put_front(text: &[u8], place: &mut [u8]) -> usize
    ensures count { result ≡ min (length text.now) (length place.old) }
    ensures text { take result place.new ≡ take result text.now }
    ensures behind { drop result place.new ≡ drop result place.old }
    ensures same { length place.new ≡ length place.old }
{
    let count = text.len().min(place.len());
    place[..count].copy_from_slice(&text[..count]);
    count
}
