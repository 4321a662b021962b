// How many of a history's records its host made, and how many are of completions. It relies on `world_calls` for records.

ghost use Rattle.std.specs.Prelude.{◌≡◌, ◌+◌, ◌≤◌, true, length};
ghost use Rattle.host_scenario.specs.Asked.{by_host, is_by_host, is_hosts};
ghost use Rattle.workers.specs.Recorded.{completion_in, completions_of};

use base_chunked_list::ChunkedList;
use world_calls::{Call, Record};

/// How many steps a host carried out, how many calls it made, and how many completions it put into its inbox.
#[derive(Clone, Copy)]
pub(crate) struct Counts {
    pub(crate) steps: usize,
    pub(crate) calls: usize,
    pub(crate) completions: usize,
}

impl Counts {
    /// Whether these records are as many, where so many of the completions are left.
    pub(crate) fn are_of(self, records: &ChunkedList<Record>, left: usize) -> bool
        ensures calls { result ≡ true → length (by_host records.now.items) ≡ self.calls }
        ensures completions { result ≡ true → length (completions_of records.now.items) + left ≡ self.completions }
    {
        count_by_host(records) == self.calls
            && left <= self.completions
            && count_completions(records) == self.completions - left
    }
}

// How many of these workers do not make.
fn count_by_host(records: &ChunkedList<Record>) -> usize
    ensures { result ≡ length (by_host records.now.items) }
{
    let mut count = 0;
    for place in 0..records.len() {
        if is_by_host(&records[place]) {
            count += 1;
        }
    }
    count
}

/// Whether workers do not make such a record.
pub(crate) fn is_by_host(made: &Record) -> bool
    ensures { result ≡ is_by_host made.now }
{
    match made {
        Record::Called { call, .. } => is_hosts(call),
        Record::Advance { .. } => false,
    }
}

/// Whether workers do not make such a call.
pub(crate) fn is_hosts(call: &Call) -> bool
    ensures { result ≡ is_hosts call.now }
{
    !matches!(call, Call::Complete { .. } | Call::Park { .. })
}

// How many of these tell a completion.
fn count_completions(records: &ChunkedList<Record>) -> usize
    ensures { result ≡ length (completions_of records.now.items) }
{
    let mut count = 0;
    for place in 0..records.len() {
        count += completions_in(&records[place]);
    }
    count
}

/// One for a completion, and none for another record.
pub(crate) fn completions_in(made: &Record) -> usize
    ensures many { result ≡ length (completion_in made.now) }
    ensures few { result ≤ 1 }
{
    match made {
        Record::Called {
            call: Call::Complete { .. },
            ..
        } => 1,
        _ => 0,
    }
}
