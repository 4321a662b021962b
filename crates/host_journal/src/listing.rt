// Which segments a journal has, by the names in its folder. It relies on `names` for what a name is.

ghost use Rattle.std.specs.Prelude.{◌≡◌, ◌≤◌, ℕ, ◌↔◌, ◌++◌, [], map, IfOk, IsTrue, MatchOption, OnOk, string_bytes};
ghost use Rattle.host_journal.specs.Listings.{AreWhole, Collects, IsGreatest, IsLeast, IsWhole, Lists, ListsNumbers, are_from, are_own, count_above, is_foreign, manifest_in, segment_in};

use crate::names::{NameKind, kind_of};
use std::alloc::{AllocError, Global};

/// What the names in a folder are.
#[derive(Clone, Copy, Debug, PartialEq, Eq)]
pub(crate) enum Listing {
    /// Not those of a journal.
    Foreign,
    /// Those of a journal without a segment.
    Empty,
    /// Those of a journal of the segments from that number to that one.
    Segments { first: u64, last: u64 },
}

/// The numbers of the segments and of the manifests.
#[derive(Drop)]
pub(crate) struct Numbers {
    segments: Vec<u64>,
    manifests: Vec<u64>,
}

/// What the names in a folder are.
pub(crate) fn listing_of(alloc: Global, names: &[String]) -> Result<Listing, AllocError>
    ensures { IfOk result (Lists (map string_bytes names.now)) }
{
    match numbers_of(alloc, names)? {
        Some(numbers) => Ok(listed(&numbers)),
        None => Ok(Listing::Foreign),
    }
}

// The numbers in these names, if each is one of a journal.
fn numbers_of(alloc: Global, names: &[String]) -> Result<Option<Numbers>, AllocError>
    ensures { IfOk result (Collects (map string_bytes names.now)) }
{
    let mut numbers = Numbers {
        segments: Vec::new(alloc),
        manifests: Vec::new(alloc),
    };
    for name in names {
        let kind = kind_of(name.as_bytes());
        if is_foreign(kind) {
            return Ok(None);
        }
        add(&mut numbers, kind)?;
    }
    Ok(Some(numbers))
}

fn is_foreign(kind: NameKind) -> bool
    ensures { result ≡ is_foreign kind }
{
    matches!(kind, NameKind::Foreign)
}

// Adds the number of a name.
fn add(numbers: &mut Numbers, kind: NameKind) -> Result<(), AllocError>
    ensures segments { OnOk result (numbers.new.segments.items ≡ numbers.old.segments.items ++ segment_in kind) }
    ensures manifests { OnOk result (numbers.new.manifests.items ≡ numbers.old.manifests.items ++ manifest_in kind) }
{
    match kind {
        NameKind::Segment(number) => numbers.segments.push(number)?,
        NameKind::Manifest(number) => numbers.manifests.push(number)?,
        NameKind::Ignored | NameKind::Foreign => {}
    }
    Ok(())
}

// What these numbers are.
fn listed(numbers: &Numbers) -> Listing
    ensures { ListsNumbers numbers.now.segments.items numbers.now.manifests.items result }
{
    match ends(numbers.segments.as_slice()) {
        Some((first, last)) => listed_between(numbers, first, last),
        None => listed_without(numbers),
    }
}

// What these numbers are, if the segments' are from that one to that one.
fn listed_between(numbers: &Numbers, first: u64, last: u64) -> Listing
    requires least { IsLeast numbers.now.segments.items first }
    requires greatest { IsGreatest numbers.now.segments.items last }
    requires some { first ≤ last }
    ensures { ListsNumbers numbers.now.segments.items numbers.now.manifests.items result }
{
    if !are_whole(numbers, first, last) {
        return Listing::Foreign;
    }
    if !are_own(numbers.manifests.as_slice(), first, last) {
        return Listing::Foreign;
    }
    Listing::Segments { first, last }
}

// What these numbers are, if there is no segment's.
fn listed_without(numbers: &Numbers) -> Listing
    requires { numbers.now.segments.items ≡ [] }
    ensures { ListsNumbers numbers.now.segments.items numbers.now.manifests.items result }
{
    if numbers.manifests.len() > 1 {
        return Listing::Foreign;
    }
    Listing::Empty
}

// The least and the greatest of the numbers.
fn ends(numbers: &[u64]) -> Option<(u64, u64)>
    ensures { MatchOption result (numbers.now ≡ []) (λ ends. IsLeast numbers.now ends.0 × IsGreatest numbers.now ends.1 × (ends.0 ≤ ends.1)) }
{
    match (least(numbers), greatest(numbers)) {
        (Some(least), Some(greatest)) => Some((least, greatest)),
        _ => None,
    }
}

fn least(numbers: &[u64]) -> Option<u64>
    ensures { MatchOption result (numbers.now ≡ []) (IsLeast numbers.now) }
{
    numbers.iter().copied().min()
}

fn greatest(numbers: &[u64]) -> Option<u64>
    ensures { MatchOption result (numbers.now ≡ []) (IsGreatest numbers.now) }
{
    numbers.iter().copied().max()
}

// Whether there is a segment of each number from that one to that one, with its manifest.
fn are_whole(numbers: &Numbers, first: u64, last: u64) -> bool
    requires { first ≤ last }
    ensures { IsTrue result ↔ AreWhole numbers.now.segments.items numbers.now.manifests.items first last }
{
    for number in first..last {
        if !is_whole(numbers, number) {
            return false;
        }
    }
    is_whole(numbers, last)
}

// Whether there is a segment of that number, with its manifest.
fn is_whole(numbers: &Numbers, number: u64) -> bool
    ensures { IsTrue result ↔ IsWhole numbers.now.segments.items numbers.now.manifests.items number }
{
    numbers.segments.as_slice().contains(&number) && numbers.manifests.as_slice().contains(&number)
}

// Whether no manifest is below the first segment, and one at most above the last.
fn are_own(manifests: &[u64], first: u64, last: u64) -> bool
    ensures { result ≡ are_own manifests.now first last }
{
    are_from(manifests, first) && count_above(manifests, last) <= 1
}

fn are_from(numbers: &[u64], first: u64) -> bool
    ensures { result ≡ are_from first numbers.now }
{
    numbers.iter().all(|number| *number >= first)
}

fn count_above(numbers: &[u64], last: u64) -> usize
    ensures { result ≡ count_above last numbers.now }
{
    numbers.iter().filter(|number| **number > last).count()
}
