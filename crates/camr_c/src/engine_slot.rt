// Where a host written in C holds an engine: a pointer to its block, which no one but this library follows. It relies on `raw_box`.

ghost use Rattle.std.specs.Prelude.{Option};
ghost use Rattle.host_embedding.specs.declared.hosted_engine.HostedEngine.{HostedEngine as Value};

use crate::raw_box::RawBox;
use host_embedding::HostedEngine;
use std::alloc::Global;
use std::marker::Model;

/// An engine, or none. What stands in the pointer means nothing where there is none.
#[repr(C)]
pub struct EngineSlot {
    at: *mut u8,
    pub ghost held: { Option Value },
}

impl Model for EngineSlot {
    ghost use Rattle.host_embedding.specs.contracts.hosted_engine.HostedEngine.{the_row};
    ghost use Rattle.camr_c.specs.Holding.{holds};

    ghost also_owns = { λ slot. holds the_row slot.at slot.held };
}

impl EngineSlot {
    ghost use Rattle.std.specs.Prelude.{◌≡◌, IsSome, None, Some};
    ghost use types.Logic.{sem};
    ghost use Rattle.camr_c.specs.Lending.{lends_engine};

    /// Puts an engine here. What was here is left as it is.
    pub(crate) fn fill(&mut self, boxed: RawBox<HostedEngine, Global>)
        ensures { self.new.held ≡ Some boxed.value }
    {
        let RawBox { at, alloc: _ } = boxed;
        self.at = at as *mut u8;
    }

    /// Takes it out.
    pub(crate) fn empty(&mut self, alloc: Global) -> RawBox<HostedEngine, Global>
        requires { IsSome self.old.held }
        ensures value { self.old.held ≡ Some result.value }
        ensures emptied { self.new ≡ record self.old { held = None } }
    {
        RawBox {
            at: self.at as *mut HostedEngine,
            alloc,
        }
    }

    /// Lends it.
    pub(crate) fn held(&mut self) -> &mut HostedEngine
        requires { IsSome self.old.held }
        ensures* writes_back { sem 𝓛 (lends_engine self.entry result) }
        ensures value { self.old.held ≡ Some result.now }
    {
        unsafe { &mut *(self.at as *mut HostedEngine) }
    }
}
