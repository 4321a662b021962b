// What a name in the folder of a journal is. It relies on nothing.

ghost use Rattle.std.specs.Prelude.{◌≡◌, ◌≤◌, ◌==◌, ◌||◌, nat_eq, length, true};
ghost use Rattle.std.specs.List.{ends_with};
ghost use Rattle.host_journal.specs.Names.{are_digits, is_number, kind_of, kind_of_numbers, number_before, number_in, value_from};

/// The file that an engine holds while it has the journal.
const LOCK: &[u8] = b"lock";

/// How a name ends while its file is being written.
const NEW: &[u8] = b".new";

const SEGMENT: &[u8] = b".trace";

const MANIFEST: &[u8] = b".toml";

/// How many digits a number has at least.
const LEAST: usize = 6;

/// How many it has at most.
const MOST: usize = 18;

/// What a name is.
#[derive(Clone, Copy, Debug, PartialEq, Eq)]
pub(crate) enum NameKind {
    /// A segment of that number.
    Segment(u64),
    /// The manifest of that number.
    Manifest(u64),
    /// The file of the lock, or one that was not yet whole.
    Ignored,
    Foreign,
}

/// What the name is.
pub(crate) fn kind_of(name: &[u8]) -> NameKind
    ensures { result ≡ kind_of name.now }
{
    if name == LOCK || name.ends_with(NEW) {
        return NameKind::Ignored;
    }
    match (number_before(SEGMENT, name), number_before(MANIFEST, name)) {
        (Some(number), _) => NameKind::Segment(number),
        (None, Some(number)) => NameKind::Manifest(number),
        (None, None) => NameKind::Foreign,
    }
}

// The number that stands before that end of a name.
fn number_before(end: &[u8], name: &[u8]) -> Option<u64>
    ensures { result ≡ number_before end.now name.now }
{
    if !name.ends_with(end) {
        return None;
    }
    number_in(&name[..name.len() - end.len()])
}

// The number that is spelled so: six digits, or more if it needs more, and none of them is a zero that it does not need.
fn number_in(digits: &[u8]) -> Option<u64>
    ensures { result ≡ number_in digits.now }
{
    if !is_number(digits) {
        return None;
    }
    let value = value_of(digits);
    if value == 0 { None } else { Some(value) }
}

fn is_number(digits: &[u8]) -> bool
    ensures { result ≡ is_number digits.now }
{
    digits.len() >= LEAST
        && digits.len() <= MOST
        && are_digits(digits)
        && (digits.len() == LEAST || digits[0] != b'0')
}

fn are_digits(digits: &[u8]) -> bool
    ensures { result ≡ are_digits digits.now }
{
    digits.iter().all(|digit| digit.is_ascii_digit())
}

// The value of so few digits.
fn value_of(digits: &[u8]) -> u64
    requires few { length digits.now ≤ 18 }
    requires each { are_digits digits.now ≡ true }
    ensures { result ≡ value_from 0 digits.now }
{
    let mut value = 0;
    for digit in digits {
        value = 10 * value + (*digit - b'0') as u64;
    }
    value
}
