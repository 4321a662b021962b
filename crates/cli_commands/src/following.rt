// What is told of a live engine beside its trace, and whether another engine follows it. It relies on `host_journal` for the segment that
// follows, and on `metering` for what is counted.

ghost use Rattle.std.specs.Prelude.{◌≡◌, Err, IfErr, IfOk, IfSome, MatchOption, false, true};
ghost use Rattle.host_journal.specs.Follows.{bytes_of};
ghost use Rattle.cli_commands.specs.Following.{IsDecidedBy, IsFollowing, IsKept, IsNextOf, IsNoneBy, IsToldWhy, MayRefuse, numbering_of, unfollowed_of};
ghost use Rattle.cli_commands.specs.Readings.{held, not_given, unreadable};
ghost use Rattle.cli_commands.specs.declared.following.ManifestUnread.TheVariants.{Failed};

use crate::fault::Fault;
use crate::metering::{MetricsFile, write_counted};
use base::OrMemory;
use engine_config::Config;
use engine_core::{CcbState, LiveCcb, NumberedEngine};
use engine_succession::Numbering;
use host_journal::{Begun, JournalError, JournalFault, NextManifest, follow};
use host_live::{LineFault, Moment, Reports, Succession, Unfollowed};
use host_metrics::Metrics;
use std::alloc::{AllocError, Global};
use std::io::Write;
use std::marker::{Brand, PhantomData};
use world_calls::{CarriedLine, Notice, Totals};

/// Why a manifest was not read again.
#[derive(Clone, Copy, Debug, PartialEq, Eq)]
pub enum ManifestUnread {
    /// Its file cannot be read.
    Failed,
    OutOfMemory,
}

/// The manifest that is given, whose file may have changed since. Contracts see what it may hold whenever it is read.
pub trait GivenManifest {
    ghost use Rattle.cli_commands.specs.Readings.{Reading};

    ghost may_read: { Reading → Type 0 };

    /// Reads its bytes again; `None` if none is given.
    fn read_again(&mut self, alloc: Global) -> Result<Option<Vec<u8>>, ManifestUnread>
        ensures read { IfOk result (λ it. MatchOption it (may_read not_given) (λ bytes. may_read (held bytes.items))) }
        ensures failed { result ≡ Err Failed → may_read unreadable };
}

/// A segment that is to be made, or a trace that is to be begun: its number, its manifest, what that says, and the lines of what its engine
/// takes over, if it follows another one.
#[derive(Drop)]
pub(crate) struct Next {
    pub(crate) number: u64,
    pub(crate) bytes: Vec<u8>,
    pub(crate) config: Config,
    pub(crate) carried: Option<Vec<CarriedLine>>,
}

/// The number of the segment that is served, and the bytes of its manifest. Whoever serves it passes `Brand` to a function over this, and picks
/// them there.
pub(crate) trait InForce {
    ghost use Rattle.std.specs.Prelude.{ℕ, List};

    ghost number: { ℕ };

    ghost own: { List ℕ };
}

impl InForce for Brand {
    ghost use Rattle.std.specs.Prelude.{[]};

    ghost number = { 0 };

    ghost own = { [] };
}

/// A writer that is told what is no part of the trace, and what an engine that follows begins with, once it is decided that one does.
pub(crate) struct Desk<'e, 'g, 'p, 'o, M: GivenManifest + MetricsFile, E: Write, F: InForce> {
    pub(crate) alloc: Global,
    pub(crate) err: &'e mut E,
    pub(crate) given: &'g mut M,
    // the path of the manifest that is given
    pub(crate) path: &'p str,
    pub(crate) own: &'o [u8],
    pub(crate) number: u64,
    pub(crate) next: Option<Next>,
    pub(crate) of: PhantomData<F>,
    ghost number_is: { number ≡ F.number },
    ghost own_is: { own.now ≡ F.own },
}

impl<M: GivenManifest + MetricsFile, E: Write, F: InForce> Reports
    for Desk<'_, '_, '_, '_, M, E, F> {
    ghost use Rattle.cli_commands.specs.Following.{IsFollowing, MayRefuse};

    ghost has_decided = { λ desk how engine. IsFollowing M.may_read F.number F.own how engine desk.next };

    ghost may_refuse = { MayRefuse M.may_read F.number F.own };

    ghost use Rattle.std.specs.Prelude.{⊤};

    ghost may_count = { λ metrics engine. ⊤ };

    ghost has_counted = { λ desk when metrics engine. ⊤ };

    fn refused(&mut self, fault: LineFault, line: usize) {
        let _ = match fault {
            LineFault::Form => writeln!(self.err, "camr: N1 at {line}"),
            LineFault::NotHeld => writeln!(self.err, "camr: N2 at {line}"),
            LineFault::RunLive => writeln!(self.err, "camr: N3 at {line}"),
            LineFault::DoesNotFit => writeln!(self.err, "camr: N4 at {line}"),
            LineFault::Manifest => Ok(()),
        };
    }

    fn sums(&mut self, totals: Totals) {
        let _ = writeln!(self.err, "camr: {}", Notice::Sums(totals));
    }

    fn ccb(&mut self, live: &LiveCcb) {
        let state = match live.state() {
            CcbState::Waiting => "waiting",
            CcbState::Active => "active",
            CcbState::InRecovery => "in recovery",
        };
        let ccb = live.ccb();
        let _ = writeln!(
            self.err,
            "camr: ccb {} queue {} {state}",
            ccb.number.0, ccb.queue.0
        );
    }

    fn help(&mut self) {
        for request in REQUESTS {
            let _ = writeln!(self.err, "camr: {request}");
        }
    }

    fn counted(&mut self, when: Moment, metrics: &Metrics, engine: &NumberedEngine<'_>) {
        write_counted(self.alloc, self.given, when, metrics, engine, self.err);
    }

    fn follow(
        &mut self,
        how: Succession,
        engine: &NumberedEngine<'_>,
    ) -> Result<Option<Unfollowed>, AllocError> {
        if how.is_reloaded {
            self.reload(how, engine)
        } else {
            self.rotate(how, engine)
        }
    }
}

/// The requests, a line each.
const REQUESTS: [&str; 18] = [
    "submit Q PRIORITY RETRIES",
    "dispatch Q",
    "complete C STATUS SCSI SENSE",
    "gfreeze Q G",
    "cfreeze C G",
    "grelease F",
    "clock T",
    "park R",
    "resume R",
    "step R",
    "drive R",
    "drain",
    "totals",
    "ccbs",
    "rotate [fresh]",
    "reload [fresh]",
    "help",
    "quit",
];

impl<M: GivenManifest + MetricsFile, E: Write, F: InForce> Desk<'_, '_, '_, '_, M, E, F> {
    // With the manifest in force.
    fn rotate(
        &mut self,
        how: Succession,
        engine: &NumberedEngine<'_>,
    ) -> Result<Option<Unfollowed>, AllocError>
        requires { how.is_reloaded ≡ false }
        ensures decided { IfOk result (λ why. IsDecidedBy why (IsFollowing M.may_read F.number F.own how engine.now self.new.next)) }
        ensures refused { IfOk result (λ it. IfSome it (MayRefuse M.may_read F.number F.own how engine.now)) }
    {
        let bytes = copied(self.alloc, self.own)?;
        let next = next_of(self.alloc, self.number, engine, how, bytes);
        self.decide(next)
    }

    // With the manifest that is given, which is read again.
    fn reload(
        &mut self,
        how: Succession,
        engine: &NumberedEngine<'_>,
    ) -> Result<Option<Unfollowed>, AllocError>
        requires { how.is_reloaded ≡ true }
        ensures decided { IfOk result (λ why. IsDecidedBy why (IsFollowing M.may_read F.number F.own how engine.now self.new.next)) }
        ensures refused { IfOk result (λ it. IfSome it (MayRefuse M.may_read F.number F.own how engine.now)) }
    {
        match self.given.read_again(self.alloc) {
            Ok(read) => self.follow_read(how, engine, read),
            Err(ManifestUnread::Failed) => {
                let _ = Fault::File(self.path).report(self.err);
                Ok(Some(Unfollowed::Manifest))
            }
            Err(ManifestUnread::OutOfMemory) => Err(AllocError),
        }
    }

    // With what was read of the manifest that is given, if one is.
    fn follow_read(
        &mut self,
        how: Succession,
        engine: &NumberedEngine<'_>,
        read: Option<Vec<u8>>,
    ) -> Result<Option<Unfollowed>, AllocError>
        requires reloaded { how.is_reloaded ≡ true }
        requires read { MatchOption read (M.may_read not_given) (λ bytes. M.may_read (held bytes.items)) }
        ensures decided { IfOk result (λ why. IsDecidedBy why (IsFollowing M.may_read F.number F.own how engine.now self.new.next)) }
        ensures refused { IfOk result (λ it. IfSome it (MayRefuse M.may_read F.number F.own how engine.now)) }
    {
        match read {
            Some(bytes) => {
                let next = next_of(self.alloc, self.number, engine, how, bytes);
                self.decide(next)
            }
            None => Ok(Some(Unfollowed::NoManifest)),
        }
    }

    // Keeps what is to follow, or reports why nothing does.
    fn decide(&mut self, next: Result<Next, JournalError>) -> Result<Option<Unfollowed>, AllocError>
        ensures decided { IfOk result (λ why. IsDecidedBy why (IsKept next self.new.next)) }
        ensures refused { IfOk result (λ it. IfSome it (IsToldWhy next)) }
    {
        match next {
            Ok(next) => {
                self.next = Some(next);
                Ok(None)
            }
            Err(OrMemory::OutOfMemory) => Err(AllocError),
            Err(OrMemory::Fault(fault)) => Ok(Some(self.unfollowed(&fault))),
        }
    }

    // Reports what is wrong with a manifest.
    fn unfollowed(&mut self, fault: &JournalFault) -> Unfollowed
        ensures { result ≡ unfollowed_of fault.now }
    {
        let _ = match fault {
            JournalFault::DoesNotFit => return Unfollowed::DoesNotFit,
            JournalFault::Given(fault) | JournalFault::Manifest(_, fault) => {
                writeln!(self.err, "camr: {fault}")
            }
            _ => writeln!(self.err, "camr: {}", Fault::File(self.path)),
        };
        Unfollowed::Manifest
    }
}

/// The same bytes.
pub(crate) fn copied(alloc: Global, bytes: &[u8]) -> Result<Vec<u8>, AllocError>
    ensures { IfOk result (λ copy. copy.items ≡ bytes.now) }
{
    let mut copy = Vec::with_capacity(alloc, bytes.len())?;
    copy.extend_from_slice(bytes)?;
    Ok(copy)
}

// How what follows is numbered.
fn numbering_of(how: Succession) -> Numbering
    ensures { result ≡ numbering_of how }
{
    if how.is_fresh {
        Numbering::Fresh
    } else {
        Numbering::Same
    }
}

// What the engine that follows begins with, by these bytes of a manifest; or why none follows.
fn next_of(
    alloc: Global,
    number: u64,
    engine: &NumberedEngine<'_>,
    how: Succession,
    bytes: Vec<u8>,
) -> Result<Next, JournalError>
    ensures next { IfOk result (IsNextOf number how engine.now) }
    ensures bytes { IfOk result (λ next. next.bytes.items ≡ bytes.items) }
    ensures refused { IfErr result (IsNoneBy number engine.now bytes.items) }
{
    let manifest = manifest_of(how, bytes.as_slice());
    match follow(alloc, number, engine, manifest, numbering_of(how)) {
        Ok(begun) => {
            let Begun {
                number,
                config,
                manifest: _,
                carried,
            } = begun;
            Ok(Next {
                number,
                bytes,
                config,
                carried,
            })
        }
        Err(error) => Err(error),
    }
}

// These bytes, of the manifest that is given, or of the one in force.
fn manifest_of(how: Succession, bytes: &[u8]) -> NextManifest<'_>
    ensures { bytes_of result ≡ bytes.now }
{
    if how.is_reloaded {
        NextManifest::Given(bytes)
    } else {
        NextManifest::Same(bytes)
    }
}
