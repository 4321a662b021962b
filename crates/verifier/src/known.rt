// What is known at one place, in memory of its own: to lead it on is to move eight bytes, and the memory is used again for a
// place to come. It relies on `check_description` for what is known.

ghost use Rattle.std.specs.Prelude.{◌≡◌, ◌≤◌, [], IfOk, vec_capacity};

use bpf_insn::Insn;
use check_description::Description;
use std::alloc::{AllocError, Global};
use std::marker::Model;

/// How many places that are needed no more are kept for places to come. As many ways are open at a time in most programs; where
/// more are, their memory is given back.
const MAX_SPARE: usize = 64;

/// How many tables are kept: as many functions are open at a time.
const MAX_TABLES: usize = 8;

/// What is known of each machine that comes to a place.
#[derive(Drop)]
pub struct Known {
    pub description: Box<Description>,
}

impl Model for Known {
    ghost use Rattle.check_description.specs.declared.description.Description.{Description};

    ghost Value = { Description };

    ghost view = { λ known. known.description.value };
}

impl Known {
    /// The same, with room for the number that the instruction may store.
    pub fn with_room(mut self, insn: Insn) -> Result<Self, AllocError>
        ensures { IfOk result (λ it. it ≡ self) }
    {
        if let Insn::Store { .. } = insn {
            self.description.make_room()?;
        }
        Ok(self)
    }
}

/// Memory of places and of tables that are needed no more, for those to come.
#[derive(Drop)]
pub struct Spare {
    places: Vec<Known>,
    tables: Vec<Vec<Option<Known>>>,
}

impl Spare {
    pub fn new(alloc: Global) -> Result<Self, AllocError> {
        Ok(Spare {
            places: Vec::with_capacity(alloc, MAX_SPARE)?,
            tables: Vec::with_capacity(alloc, MAX_TABLES)?,
        })
    }

    /// A place of which that is known.
    pub fn copy_of(&mut self, description: &Description) -> Result<Known, AllocError>
        ensures { IfOk result (λ it. it ≡ description.now) }
    {
        match self.places.pop() {
            Some(mut known) => {
                *known.description = description.try_copy()?;
                Ok(known)
            }
            None => Ok(Known {
                description: Box::new(*self.places.allocator(), description.try_copy()?)?,
            }),
        }
    }

    /// A place is needed no more.
    pub fn keep(&mut self, known: Known) {
        if self.places.len() < self.places.capacity() {
            self.places.push_reserved(known);
        }
    }

    /// An empty table with room for so many places.
    pub fn table(&mut self, len: usize) -> Result<Vec<Option<Known>>, AllocError>
        ensures { IfOk result (λ table. (table.items ≡ []) × (len ≤ vec_capacity table)) }
    {
        match self.tables.pop() {
            Some(mut table) => {
                table.clear();
                table.reserve(len)?;
                Ok(table)
            }
            None => Vec::with_capacity(*self.tables.allocator(), len),
        }
    }

    /// A table is needed no more.
    pub fn keep_table(&mut self, table: Vec<Option<Known>>) {
        if self.tables.len() < self.tables.capacity() {
            self.tables.push_reserved(table);
        }
    }
}
