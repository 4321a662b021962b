// Where a host written in C holds a run: a pointer to its block, which no one but this library follows. It relies on `raw_box`.

ghost use Rattle.std.specs.Prelude.{Option};
ghost use Rattle.host_embedding.specs.declared.run_handle.RunHandle.{RunHandle as Value};

use crate::raw_box::RawBox;
use host_embedding::RunHandle;
use std::alloc::Global;
use std::marker::Model;

/// A run, or none. What stands in the pointer means nothing where there is none.
#[repr(C)]
pub struct RunSlot {
    at: *mut u8,
    pub ghost held: { Option Value },
}

impl Model for RunSlot {
    ghost use Rattle.host_embedding.specs.contracts.run_handle.RunHandle.{the_row};
    ghost use Rattle.camr_c.specs.Holding.{holds};

    ghost also_owns = { λ slot. holds the_row slot.at slot.held };
}

impl RunSlot {
    ghost use Rattle.std.specs.Prelude.{◌≡◌, IsSome, None, Some};
    ghost use types.Logic.{sem};
    ghost use Rattle.camr_c.specs.Lending.{lends_run};

    /// Puts a run here. What was here is left as it is.
    pub(crate) fn fill(&mut self, boxed: RawBox<RunHandle, Global>)
        ensures { self.new.held ≡ Some boxed.value }
    {
        let RawBox { at, alloc: _ } = boxed;
        self.at = at as *mut u8;
    }

    /// Takes it out.
    pub(crate) fn empty(&mut self, alloc: Global) -> RawBox<RunHandle, Global>
        requires { IsSome self.old.held }
        ensures value { self.old.held ≡ Some result.value }
        ensures emptied { self.new ≡ record self.old { held = None } }
    {
        RawBox {
            at: self.at as *mut RunHandle,
            alloc,
        }
    }

    /// Lends it.
    pub(crate) fn held(&mut self) -> &mut RunHandle
        requires { IsSome self.old.held }
        ensures* writes_back { sem 𝓛 (lends_run self.entry result) }
        ensures value { self.old.held ≡ Some result.now }
    {
        unsafe { &mut *(self.at as *mut RunHandle) }
    }
}
