// One chain a place: its entries in the order of their numbers, by links that stand under the keys of the entries. Its calls
// take no memory and walk nowhere.

ghost use Rattle.std.specs.Prelude.{◌≡◌, ◌<◌, ℕ, length, replicate, Some, IfOk, slice_set};
ghost use Rattle.freeze_ledger.specs.Links.{no_link, no_ends, link_at, ends_at, led_on, led_back, appended, left, ends_with, ends_without, IsWithin};

use std::alloc::{AllocError, Global};

/// The keys of the entries before and after one, of its place.
#[derive(Clone, Copy)]
pub(crate) struct Link {
    pub(crate) earlier: Option<usize>,
    pub(crate) later: Option<usize>,
}

/// The keys of a place's first and last entry.
#[derive(Clone, Copy)]
pub(crate) struct Ends {
    pub(crate) first: Option<usize>,
    pub(crate) last: Option<usize>,
}

/// The chains of all places: a link under each key that there may be, and the ends of each place.
#[derive(Drop)]
pub(crate) struct Chains {
    links: Vec<Link>,
    ends: Vec<Ends>,
}

impl Chains {
    /// The chains of so many places over so many keys, all empty.
    pub(crate) fn with_room(alloc: Global, places: usize, keys: usize) -> Result<Self, AllocError>
        ensures links { IfOk result (λ chains. chains.links.items ≡ replicate keys no_link) }
        ensures ends { IfOk result (λ chains. chains.ends.items ≡ replicate places no_ends) }
    {
        let links = vec![in alloc; Link {
            earlier: None,
            later: None
        }; keys]?;
        let ends = vec![in alloc; Ends {
            first: None,
            last: None
        }; places]?;
        Ok(Chains { links, ends })
    }

    /// Puts the entry of this key after all others of its place.
    pub(crate) fn append(&mut self, at: usize, key: usize)
        requires place { at < length self.old.ends.items }
        requires key { key < length self.old.links.items }
        requires last { IsWithin self.old.links.items (ends_at self.old.ends.items at).last }
        ensures links { self.new.links.items ≡ appended self.old.links.items (ends_at self.old.ends.items at) key }
        ensures ends { self.new.ends.items ≡ slice_set self.old.ends.items at (ends_with (ends_at self.old.ends.items at) key) }
    {
        let ends = self.ends[at];
        self.links[key] = Link {
            earlier: ends.last,
            later: None,
        };
        lead_on(&mut self.links, ends.last, Some(key));
        self.ends[at] = with_last(ends, key);
    }

    /// Takes the entry of this key out of the chain of its place: the one before leads to the one after.
    pub(crate) fn remove(&mut self, at: usize, key: usize)
        requires place { at < length self.old.ends.items }
        requires key { key < length self.old.links.items }
        requires earlier { IsWithin self.old.links.items (link_at self.old.links.items key).earlier }
        requires later { IsWithin self.old.links.items (link_at self.old.links.items key).later }
        ensures links { self.new.links.items ≡ left self.old.links.items (link_at self.old.links.items key) }
        ensures ends { self.new.ends.items ≡ slice_set self.old.ends.items at (ends_without (ends_at self.old.ends.items at) (link_at self.old.links.items key)) }
    {
        let link = self.links[key];
        let ends = self.ends[at];
        lead_on(&mut self.links, link.earlier, link.later);
        lead_back(&mut self.links, link.later, link.earlier);
        self.ends[at] = without(ends, link);
    }

    /// The key of the first entry of a place.
    pub(crate) fn first(&self, at: usize) -> Option<usize>
        requires { at < length self.now.ends.items }
        ensures { result ≡ (ends_at self.now.ends.items at).first }
    {
        self.ends[at].first
    }

    /// The links of all keys.
    pub(crate) fn links(&self) -> &[Link]
        ensures { result.now ≡ self.now.links.items }
    {
        &self.links
    }
}

// Lets the link of one entry, if there is one, lead on to another.
fn lead_on(links: &mut [Link], from: Option<usize>, to: Option<usize>)
    requires { IsWithin links.old from }
    ensures { links.new ≡ led_on links.old from to }
{
    if let Some(key) = from {
        let link = links[key];
        links[key] = Link { later: to, ..link };
    }
}

// And back.
fn lead_back(links: &mut [Link], from: Option<usize>, to: Option<usize>)
    requires { IsWithin links.old from }
    ensures { links.new ≡ led_back links.old from to }
{
    if let Some(key) = from {
        let link = links[key];
        links[key] = Link {
            earlier: to,
            ..link
        };
    }
}

// The ends of a chain once this key came last.
fn with_last(ends: Ends, key: usize) -> Ends
    ensures { result ≡ ends_with ends key }
{
    let first = match ends.last {
        None => Some(key),
        Some(_) => ends.first,
    };
    Ends {
        first,
        last: Some(key),
    }
}

// And once one with these links is gone.
fn without(ends: Ends, link: Link) -> Ends
    ensures { result ≡ ends_without ends link }
{
    let first = match link.earlier {
        None => link.later,
        Some(_) => ends.first,
    };
    let last = match link.later {
        None => link.earlier,
        Some(_) => ends.last,
    };
    Ends { first, last }
}
