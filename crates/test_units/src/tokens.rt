// Where the tokens of a text stand.

use base::OrMemory;
use bpf_asm::{Token, tokens};
use std::alloc::{AllocError, Global};

/// Two lines, with a comment after the first.
const TEXT: &str = "ja +2 # on\nexit";

/// The tokens of the text, worked out by hand.
const TOKENS: [Token; 4] = [
    Token { start: 0, end: 2 },
    Token { start: 3, end: 4 },
    Token { start: 4, end: 5 },
    Token { start: 11, end: 15 },
];

pub fn tells_where_each_token_stands(alloc: Global) -> Result<bool, AllocError> {
    let found = match tokens(alloc, TEXT) {
        Err(OrMemory::OutOfMemory) => tokens(alloc, TEXT),
        found => found,
    };
    match found {
        Ok(found) => Ok(found.as_slice() == TOKENS.as_slice()),
        Err(_) => Ok(false),
    }
}
