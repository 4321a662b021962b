// The law of stores, as the contract of a function without arguments.

ghost use Rattle.stack_domain.specs.Stores.{WrittenStays};

/// A store at any offset of a live frame keeps what is known, since written bytes stay written.
pub fn written_stays()
    ensures { WrittenStays }
{}
