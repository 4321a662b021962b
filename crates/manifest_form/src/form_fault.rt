// The faults of a manifest's form, of which the lowest is told.

ghost use Rattle.std.specs.Prelude.{◌≡◌, Some};
ghost use Rattle.manifest_form.specs.Faults.{lower};

/// What is wrong with the form of an entry, the lowest first.
#[derive(Clone, Copy, Debug, PartialEq, Eq)]
pub enum FormFault {
    /// A key is unknown, or one is missing.
    Key,
    /// A value is of another type or form.
    Form,
    /// A number is out of its range.
    Range,
}

/// Keeps the lower of the faults.
pub fn note(lowest: &mut Option<FormFault>, fault: FormFault)
    ensures { lowest.new ≡ lower lowest.old (Some fault) }
{
    let replaces = match *lowest {
        None => true,
        Some(FormFault::Key) => false,
        Some(FormFault::Form) => fault == FormFault::Key,
        Some(FormFault::Range) => true,
    };
    if replaces {
        *lowest = Some(fault);
    }
}
