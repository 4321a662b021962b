// The page on which a program writes text for people. It relies on nothing of this repository.
//
//     let mut page = Page::new(alloc);
//     page.text("program ");
//     page.foreign(program.name);
//     page.fill("\n  runs          {}, ended {}\n", &[runs, ended]);
//     page.write_to(out)
//
// No call that puts something on a page has a result, so that whoever writes has no `?` on each line: a page on which a piece found no
// memory says so when it is written to a writer or handed over. One pattern for several lines costs the prover least; docs/PROVING.md
// has the figures.
#![tactic(auto)]

mod foreign;
mod page;

pub use foreign::{ForeignCharacter, ForeignText, escaped, is_shown};
pub use page::Page;
