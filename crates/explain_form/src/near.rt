// The names that are near to a word which is none. It relies on `strsim` for how far apart two words are, and on `keys` for the keys.

use crate::keys::{KEYS, Key};
use cli_text_page::Page;
use manifest_form::Plan;
use std::alloc::{AllocError, Global};
use strsim::levenshtein;

/// How far a name may be from one that is meant, in letters that differ.
const NEAR: usize = 3;

/// How many bytes a name has at most that is compared with others: no longer one is near any.
const LONGEST: usize = 160;

/// The key of a table that is nearest to a word, if one is near.
pub fn nearest_key(
    alloc: Global,
    table: &str,
    word: &str,
    version: u8,
) -> Result<Option<&'static Key>, AllocError> {
    let mut nearest = KEYS.len();
    let mut least = NEAR + 1;
    for (place, key) in KEYS.iter().enumerate() {
        if key.table == table && key.may_stand(version) && word.len() <= LONGEST {
            let distance = levenshtein(alloc, word, key.name)?;
            if distance < least {
                least = distance;
                nearest = place;
            }
        }
    }
    Ok(KEYS.get(nearest))
}

/// The program whose name is nearest to a word; nothing if none is near.
pub fn nearest_program<'a>(
    alloc: Global,
    plan: &Plan<'a>,
    word: &str,
) -> Result<&'a str, AllocError> {
    let mut nearest = "";
    let mut least = NEAR + 1;
    if word.len() > LONGEST {
        return Ok(nearest);
    }
    for program in &plan.programs {
        let distance = levenshtein(alloc, word, program.name)?;
        if distance < least {
            least = distance;
            nearest = program.name;
        }
    }
    Ok(nearest)
}

/// Puts that a name is near, if one is, and ends the line.
pub fn put_near(page: &mut Page, name: &str) {
    if !name.is_empty() {
        page.text("; `");
        page.foreign(name);
        page.text("` is near");
    }
    page.text("\n");
}
