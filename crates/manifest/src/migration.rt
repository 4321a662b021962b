// A manifest of a lower version as a text of a later one. It relies on `manifest_form` for its table, and on `toml` for the text.

ghost use Rattle.std.specs.Prelude.{◌≡◌, None, true, IfOk, string_bytes};
ghost use Rattle.toml.specs.View.{view};
ghost use Rattle.manifest_form.specs.Entries.{version_of};
ghost use Rattle.manifest_form.specs.Faults.{form_fault};
ghost use Rattle.manifest_form.specs.Migration.{comes_after};
ghost use Rattle.manifest.specs.Migration.{PrintsLater};

use manifest_form::migrated;
use std::alloc::{AllocError, Global};
use toml::Value;
use toml::ser::Error;
use world_calls::Version;

/// The text of a manifest's document in a later version. Comments and layout are not kept.
pub fn print(alloc: Global, manifest: &Value, to: Version) -> Result<String, AllocError>
    requires lawful { form_fault (view manifest.now) ≡ None }
    requires later { comes_after (version_of (view manifest.now)) to ≡ true }
    ensures { IfOk result (λ text. PrintsLater (view manifest.now) to (string_bytes text)) }
{
    let table = migrated(alloc, manifest, to)?;
    match toml::table_to_string(alloc, &table) {
        Ok(text) => Ok(text),
        Err(Error::OutOfMemory) => Err(AllocError),
        Err(Error::DateInvalid) => unreachable!(),
    }
}
