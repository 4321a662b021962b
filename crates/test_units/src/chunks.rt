// A list of several chunks, with ample memory and with one allocation refused.

ghost use Rattle.std.specs.Prelude.{◌+◌, ◌≤◌, length, OnOk};

use base_chunked_list::ChunkedList;
use std::alloc::{AllocError, Global};

/// More than two chunks.
const MANY: u32 = 3000;

fn with_room(alloc: Global) -> Result<ChunkedList<u32>, AllocError> {
    match ChunkedList::with_room(alloc) {
        Ok(list) => Ok(list),
        Err(AllocError) => ChunkedList::with_room(alloc),
    }
}

// Makes room for one more, and whether the list is as before if memory is refused: then the same call succeeds the second time.
fn reserve(list: &mut ChunkedList<u32>) -> Result<bool, AllocError>
    ensures { OnOk result (length list.new.items + 1 ≤ list.new.capacity) }
{
    let before = list.len();
    if list.reserve(1).is_ok() {
        return Ok(true);
    }
    let is_as_before = list.len() == before;
    list.reserve(1)?;
    Ok(is_as_before)
}

// Each value stands at its place.
fn stands(list: &ChunkedList<u32>) -> bool {
    let mut next = 0u32;
    for value in list.iter() {
        if *value != next {
            return false;
        }
        next = next.wrapping_add(1);
    }
    next == MANY
}

/// Pushes more than two chunks of values.
pub fn pushed(alloc: Global) -> Result<bool, AllocError> {
    let mut list = with_room(alloc)?;
    let mut holds = list.is_empty();
    for value in 0..MANY {
        holds = reserve(&mut list)? && holds;
        list.push_reserved(value);
    }
    Ok(holds && list.len() == MANY as usize && list[1024] == 1024 && stands(&list))
}
