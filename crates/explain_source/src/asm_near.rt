// The mnemonic that is near a word which is none. It relies on `bpf_insn` for the mnemonics of operations and of conditions, and on
// `strsim` for which one is near.

use bpf_insn::{ALU_OPS, CONDITIONS, Width};
use cli_text_page::Page;
use explain_layout::excerpt::put_foreign;
use std::alloc::{AllocError, Global};
use strsim::levenshtein;

/// How far a word may be from a mnemonic that is meant, in letters that differ, and how many bytes it has at most.
const NEAR: usize = 2;

const LONGEST: usize = 24;

/// The mnemonics beside those of operations and of conditions.
const OTHERS: [&str; 36] = [
    "ja",
    "ja32",
    "call",
    "exit",
    "lddw",
    "ldxb",
    "ldxh",
    "ldxw",
    "ldxdw",
    "ldxsb",
    "ldxsh",
    "ldxsw",
    "stb",
    "sth",
    "stw",
    "stdw",
    "stxb",
    "stxh",
    "stxw",
    "stxdw",
    "neg64",
    "neg32",
    "le16",
    "le32",
    "le64",
    "be16",
    "be32",
    "be64",
    "swap16",
    "swap32",
    "swap64",
    "movsx32_8",
    "movsx32_16",
    "movsx64_8",
    "movsx64_16",
    "movsx64_32",
];

/// Puts which mnemonic is near the word with which a line begins, if one is, and answers whether one is.
pub fn put_near(alloc: Global, page: &mut Page, word: &str) -> Result<bool, AllocError> {
    if word.is_empty() || word.len() > LONGEST {
        return Ok(false);
    }
    let name = nearest(alloc, word)?;
    if name.is_empty() {
        return Ok(false);
    }
    page.text("  = here: there is no mnemonic `");
    put_foreign(page, word);
    page.text("`; `");
    page.text(name);
    page.text(
        "` is near\n  = to mend it: begin the line with a mnemonic, or write a label alone, with `:` after it\n",
    );
    Ok(true)
}

// The mnemonic that is nearest to a word, or nothing if none is near.
fn nearest(alloc: Global, word: &str) -> Result<&'static str, AllocError> {
    let mut nearest = Closest {
        name: "",
        least: NEAR + 1,
    };
    for width in [Width::Bits64, Width::Bits32] {
        for op in &ALU_OPS {
            nearest.see(alloc, word, op.name(width))?;
        }
        for condition in &CONDITIONS {
            nearest.see(alloc, word, condition.name(width))?;
        }
    }
    for name in &OTHERS {
        nearest.see(alloc, word, name)?;
    }
    Ok(nearest.name)
}

// The nearest name so far, and in how many letters it differs.
#[derive(Clone, Copy)]
struct Closest {
    name: &'static str,
    least: usize,
}

impl Closest {
    fn see(&mut self, alloc: Global, word: &str, name: &'static str) -> Result<(), AllocError> {
        let distance = levenshtein(alloc, word, name)?;
        if distance < self.least {
            self.least = distance;
            self.name = name;
        }
        Ok(())
    }
}
