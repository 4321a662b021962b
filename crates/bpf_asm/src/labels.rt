// Where the labels of a text are defined.

ghost use Rattle.std.specs.Prelude.{◌≡◌, ℕ, List, IfOk, OnOk};
ghost use Rattle.bpf_asm.specs.Lexemes.{lines};
ghost use Rattle.bpf_asm.specs.Labels.{label_at, first_of, defined_as};
ghost use Rattle.bpf_asm.specs.Assembly.{defined_in};

use crate::lexeme::first_line;
use crate::statement::{label_of, slots_of};
use std::alloc::{AllocError, Global};
use std::collections::BTreeMap;

/// The line of a label's first definition, from 1, and the slot of the next instruction.
#[derive(Clone, Copy, Debug)]
pub struct Label {
    pub line: usize,
    pub slot: usize,
}

/// The labels by their names.
pub type Labels<'a> = BTreeMap<&'a [u8], Label>;

// Defines a label, if it is not defined yet.
#[tactic(auto, unfolding(crate::specs::Labels::label_at))]
fn define<'a>(labels: &mut Labels<'a>, name: &'a [u8], label: Label) -> Result<(), AllocError>
    ensures { OnOk result ((other : List ℕ) → label_at labels.new other ≡ first_of (label_at labels.old other) (defined_as name.now label other)) }
{
    if !labels.contains_key(name) {
        labels.insert(name, label)?;
    }
    Ok(())
}

/// The labels of a text, each where it is defined first.
pub fn labels_of(alloc: Global, text: &[u8]) -> Result<Labels<'_>, AllocError>
    ensures { IfOk result (λ labels. (name : List ℕ) → label_at labels name ≡ defined_in 1 0 (lines text.now) name) }
{
    let mut labels = BTreeMap::new(alloc);
    let (mut rest, mut line, mut slot) = (text, 1, 0);
    while !rest.is_empty() {
        let (first, after) = first_line(rest);
        if let Some(name) = label_of(first) {
            define(&mut labels, name, Label { line, slot })?;
        }
        slot += slots_of(first);
        line += 1;
        rest = after;
    }
    Ok(labels)
}
