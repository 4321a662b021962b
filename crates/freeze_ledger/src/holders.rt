// The holders of one place's freezes, one after another along its chain. It relies on `chains` for the links.

ghost use Rattle.std.specs.Prelude.{◌≡◌};
ghost use Rattle.freeze_ledger.specs.Links.{link_at};

use crate::chains::Link;
use crate::freeze::{Freeze, Holder};
use slab::Slab;
use std::marker::Model;

/// The number and the holder of each freeze of one place, by rising number, seen as the list of those
/// that are left.
#[derive(Drop)]
pub struct Holders<'a> {
    pub(crate) slots: &'a Slab<Freeze>,
    pub(crate) links: &'a [Link],
    pub(crate) at: Option<usize>,
    pub(crate) left: u32,
}

impl<'a> Model for Holders<'a> {
    ghost use Rattle.std.specs.Prelude.{ℕ, List};
    ghost use Rattle.freeze_ledger.specs.declared.freeze.Holder.{Holder};

    ghost Value = { List (ℕ × Holder) };

    ghost use Rattle.freeze_ledger.specs.Links.{walk};

    ghost view = { λ h. walk h.left h.slots.now.slots h.links.now h.at };
}

impl<'a> Iterator for Holders<'a> {
    ghost use Rattle.std.specs.Iterator.{YieldsFirst, item_count};

    type Item = (u32, Holder);

    ghost next_gives = { YieldsFirst (λ rest. rest) };

    ghost remaining = { item_count (λ rest. rest) };

    fn next(&mut self) -> Option<(u32, Holder)> {
        if self.left == 0 {
            return None;
        }
        let key = self.at?;
        match self.slots.get(key) {
            None => None,
            Some(freeze) => {
                self.left -= 1;
                self.at = later(self.links, key);
                Some((freeze.number, freeze.holder))
            }
        }
    }
}

// The key after this one.
fn later(links: &[Link], key: usize) -> Option<usize>
    ensures { result ≡ (link_at links.now key).later }
{
    match links.get(key) {
        Some(link) => link.later,
        None => None,
    }
}
