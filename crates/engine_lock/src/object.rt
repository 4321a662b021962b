// Which shared engine a value belongs to. It relies on the ledger of the standard library, whose shares count calls.

ghost use Rattle.std.specs.Prelude.{◌≡◌, IfOk, IfErr};
ghost use Rattle.engine_config.specs.Configured.{AreProgramsOf};
ghost use Rattle.engine_lock.specs.declared.object.TheConstants.{MAX_CALLERS};

use crate::locked::Locked;
use crate::shared::Shared;
use bpf_accepted::Accepted;
use engine_core::Engine;
use monitor::Origin;
use std::alloc::{AllocError, Global};
use std::marker::Brand;
use std::sync::ledger::{Blank, Ledger};
use std::sync::{Arc, Mutex};

/// How many callers may be given out.
pub const MAX_CALLERS: u64 = 64;

/// One shared engine, by what it was made of: its setup, the history with which it began, the cell that shows its sums, and the
/// ledger of its calls. Each call of a program that shares one picks it; all that belongs to it bears it in its type.
pub trait Object: Ledger + Origin {}

impl Object for Brand {}

/// An engine that is to be shared, and has no name yet.
pub struct Opened {
    engine: Engine,
    calls: Blank,
    programs: Vec<Arc<Accepted>>,
    monitor: monitor::Opened,
    pub ghost parts: { calls.parts ≡ MAX_CALLERS },
    ghost its: { AreProgramsOf engine.setup programs.items },
    ghost untaken: { engine.taken ≡ 0 },
}

impl Opened {
    /// The engine, with no caller given out. It takes memory for a handle on each queue's program, and for the
    /// monitor; where that is refused the engine comes back. It asks for one of which no record was handed on, since what is shared
    /// keeps its whole history.
    pub fn new(alloc: Global, engine: Engine) -> Result<Self, (AllocError, Engine)>
        requires untaken { engine.taken ≡ 0 }
        ensures opened { IfOk result (λ opened. opened.engine ≡ engine) }
        ensures back { IfErr result (λ fault. fault.1 ≡ engine) }
    {
        let programs = match engine.programs(alloc) {
            Ok(programs) => programs,
            Err(fault) => return Err((fault, engine)),
        };
        match monitor::Opened::new(alloc) {
            Ok(monitor) => Ok(Opened {
                engine,
                calls: Blank::new(MAX_CALLERS),
                programs,
                monitor,
            }),
            Err(fault) => Err((fault, engine)),
        }
    }

    /// The engine under its name.
    pub fn named<B: Object>(self) -> Shared<B>
        requires setup { self.engine.setup ≡ B.setup }
        requires begun { self.engine.history ≡ B.begun }
        requires name { (self.calls.name ≡ B.name) × (self.calls.parts ≡ B.parts) }
        requires table { self.monitor ≡ B.table }
    {
        let Opened {
            engine,
            calls,
            programs,
            monitor,
        } = self;
        // The proof knows that its history is a run once it tells its sums.
        let _totals = engine.totals();
        let (book, rest) = calls.open::<B>();
        let (monitor, keeper) = monitor.named::<B>();
        Shared {
            lock: Mutex::new(Locked::new(engine, book, rest, keeper)),
            programs,
            monitor,
        }
    }
}
