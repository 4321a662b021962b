// Want of memory, after which the same call answers.

use base::OrMemory;
use bpf_decode::decode;
use std::alloc::{AllocError, Global};

/// `mov64 r0, -1; exit`.
const TEXT: [u8; 16] = [
    0xb7, 0x00, 0x00, 0x00, 0xff, 0xff, 0xff, 0xff, //
    0x95, 0x00, 0x00, 0x00, 0x00, 0x00, 0x00, 0x00,
];

pub fn goes_on_after_want_of_memory(alloc: Global) -> Result<bool, AllocError> {
    let decoded = match decode(alloc, &TEXT) {
        Err(OrMemory::OutOfMemory) => decode(alloc, &TEXT),
        decoded => decoded,
    };
    match decoded {
        Ok(program) => Ok(program.len() == 2),
        Err(_) => Ok(false),
    }
}
