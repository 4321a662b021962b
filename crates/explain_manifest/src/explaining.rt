// The verdict on a manifest, with what there is to say of it.

ghost use Rattle.std.specs.Prelude.{IfOk, MatchResult, map};
ghost use Rattle.manifest.specs.Meaning.{HasFault, Means};
ghost use Rattle.manifest.specs.Seen.{named_seen};

use crate::{accepting, refusing};
use base::OrMemory;
use cli_text_page::Page;
use manifest::{Manifest, ManifestFault};
use std::alloc::{AllocError, Global};

/// A verdict, and what there is to say beside it: lines of text.
#[derive(Drop)]
pub struct Explanation {
    pub verdict: Result<Manifest, ManifestFault>,
    pub text: String,
}

/// Reads a manifest, a path and its text, and verifies its programs as `manifest::read` does, and says what there is to say of the
/// verdict. The path is that which is shown.
pub fn explain(alloc: Global, path: &str, text: &str) -> Result<Explanation, AllocError>
    ensures { IfOk result (λ told. MatchResult told.verdict (λ manifest. Means text.now manifest.config (map named_seen manifest.programs.items)) (HasFault text.now)) }
{
    match manifest::read(alloc, text) {
        Ok(manifest) => {
            let mut page = Page::new(alloc);
            accepting::print(alloc, text, &manifest, &mut page)?;
            let told = page.finish()?;
            Ok(Explanation {
                verdict: Ok(manifest),
                text: told,
            })
        }
        Err(OrMemory::OutOfMemory) => Err(AllocError),
        Err(OrMemory::Fault(fault)) => {
            let mut page = Page::new(alloc);
            refusing::print(alloc, path, text, &fault, &mut page)?;
            let told = page.finish()?;
            Ok(Explanation {
                verdict: Err(fault),
                text: told,
            })
        }
    }
}
