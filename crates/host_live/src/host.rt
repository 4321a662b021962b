// The host of a live engine: it carries requests out. It relies on `printed_engine` for the engine.

ghost use Rattle.std.specs.Prelude.{◌≡◌, ℕ, List, [], Some, IsErr, MatchOption, false};
ghost use Rattle.host_live.specs.Growth.{GrowsAs, GrowsBy};
ghost use Rattle.engine_core.specs.ByNumber.{NumberedState, is_of_parking};
ghost use Rattle.host_live.specs.LinesCome.{IsText};
ghost use Rattle.host_live.specs.Metering.{HasCounted};
ghost use Rattle.host_live.specs.Turns.{Acts, ActsHere, ActsOn, IsNotHeld, IsOfClock, IsReading, ReadThen, ReadsDue, DrivesStarted, Turned, is_of_steps, record_of_answer, run_to_drive};
ghost use Rattle.host_live.specs.declared.manner.Manner.{Manner as TheManner};
ghost use Rattle.host_live.specs.declared.request.Request.TheVariants as asks;
ghost use Rattle.host_live.specs.declared.request.Succession.{Succession as TheSuccession};

use crate::manner::Manner;
use crate::outlet::Outlet;
use crate::printed_engine::PrintedEngine;
use crate::reports::{LineFault, Moment, Reports};
use crate::request::{Request, Succession, asked_by};
use crate::served::{HostFault, Served};
use crate::telling::Told;
use host_metrics::Metrics;
use scenario::is_skipped;
use std::alloc::{AllocError, Global};
use world_calls::{Call, CallAnswer};

/// The greatest clock reading, in milliseconds, that an engine takes.
const LAST_READING: u64 = 1 << 62;

/// An engine, and what its lines are carried out by.
#[derive(Drop)]
pub(crate) struct Host<'a> {
    alloc: Global,
    pub(crate) engine: PrintedEngine<'a>,
    // The clock read more than an engine takes: it was told so once, and time stands still.
    is_over: bool,
    // A timer was due since it was told last what was counted.
    has_timer_gone: bool,
}

// Whether nobody can ask for it but a host of runs that stay out.
fn is_of_steps(request: &Request) -> bool
    ensures { result ≡ is_of_steps request.now }
{
    match request {
        Request::Call(call) => is_call_of_steps(call),
        Request::Step(_) | Request::Drive(_) => true,
        Request::Drain
        | Request::Totals
        | Request::Ccbs
        | Request::Succeed(_)
        | Request::Quit
        | Request::Help => false,
    }
}

fn is_call_of_steps(call: &Call) -> bool
    ensures { result ≡ is_of_parking call.now }
{
    matches!(call, Call::Park { .. } | Call::Resume { .. })
}

// The run that a call started, if it is driven at once.
fn run_to_drive(manner: Manner, answer: CallAnswer) -> Option<u32>
    ensures { result ≡ run_to_drive manner answer }
{
    match answer {
        CallAnswer::Started { run, .. } => { if manner.is_stepped { None } else { Some(run) } }
        _ => None,
    }
}

// Reports the line of that number, if it was not carried out.
fn report_refused<N: Reports>(served: Served, number: usize, reports: &mut N) {
    if let Served::Refused(fault) = served {
        reports.refused(fault, number);
    }
}

impl<'a> Host<'a> {
    /// The host of an engine of which no line asked anything yet.
    pub(crate) fn new(alloc: Global, engine: PrintedEngine<'a>) -> Self
        ensures { result.engine ≡ engine.entry }
    {
        Host {
            alloc,
            engine,
            is_over: false,
            has_timer_gone: false,
        }
    }

    /// Carries the line of that number out, which stands without its line feed; none is one that cannot be a line. A clock reading that
    /// is given is taken first, but before a line that is not carried out only if a timer is due. Such a line is reported, and that is no
    /// fault. It returns what became of the line.
    pub(crate) fn serve_line<N: Reports, S: Outlet>(
        &mut self,
        manner: Manner,
        line: Option<&str>,
        number: usize,
        now: Option<u64>,
        reports: &mut N,
        out: &mut S,
    ) -> Result<Served, HostFault>
        requires clocked { IsOfClock manner now }
        ensures grown { (came : List ℕ) → MatchOption line.entry (IsText came → ⊥) (λ text. (text.now ≡ came) × IsText came) → GrowsAs (Turned manner came result self.new.engine.engine) self.old.engine (S.bytes out.old) (S.failures out.old) self.new.engine (S.bytes out.new) (S.failures out.new) }
        ensures counted { HasCounted self.old.engine.engine self.old.engine.metrics self.new.engine.engine self.new.engine.metrics }
        ensures answers { S.answers out.new ≡ S.answers out.old }
    {
        match line {
            Some(line) => self.serve_text(manner, line, number, now, reports, out),
            None => self.serve_asked(manner, None, number, now, reports, out),
        }
    }

    // Carries out what a line asks for that can be one.
    fn serve_text<N: Reports, S: Outlet>(
        &mut self,
        manner: Manner,
        line: &str,
        number: usize,
        now: Option<u64>,
        reports: &mut N,
        out: &mut S,
    ) -> Result<Served, HostFault>
        requires clocked { IsOfClock manner now }
        ensures grown { IsText line.now → GrowsAs (Turned manner line.now result self.new.engine.engine) self.old.engine (S.bytes out.old) (S.failures out.old) self.new.engine (S.bytes out.new) (S.failures out.new) }
        ensures counted { HasCounted self.old.engine.engine self.old.engine.metrics self.new.engine.engine self.new.engine.metrics }
        ensures answers { S.answers out.new ≡ S.answers out.old }
    {
        if is_skipped(line) {
            return Ok(Served::Skipped);
        }
        match asked_by(self.alloc, self.engine.version(), line, manner.is_told) {
            Ok(request) => self.serve_asked(manner, request, number, now, reports, out),
            Err(AllocError) => self.serve_refused(now, out),
        }
    }

    // Memory was refused for what a line asks for: the reading is still taken.
    fn serve_refused<S: Outlet>(
        &mut self,
        now: Option<u64>,
        out: &mut S,
    ) -> Result<Served, HostFault>
        ensures stops { IsErr result }
        ensures grown { GrowsAs (IsReading now) self.old.engine (S.bytes out.old) (S.failures out.old) self.new.engine (S.bytes out.new) (S.failures out.new) }
        ensures answers { S.answers out.new ≡ S.answers out.old }
    {
        match self.read(now, out) {
            Ok(()) => Err(HostFault::OutOfMemory),
            Err(fault) => Err(fault),
        }
    }

    /// Carries out what the line of that number asks for, or reports why not; none is no request.
    pub(crate) fn serve_asked<N: Reports, S: Outlet>(
        &mut self,
        manner: Manner,
        request: Option<Request>,
        number: usize,
        now: Option<u64>,
        reports: &mut N,
        out: &mut S,
    ) -> Result<Served, HostFault>
        ensures grown { GrowsAs (ReadThen now (ActsOn manner request result self.new.engine.engine)) self.old.engine (S.bytes out.old) (S.failures out.old) self.new.engine (S.bytes out.new) (S.failures out.new) }
        ensures answers { S.answers out.new ≡ S.answers out.old }
    {
        match self.read_due(now, out) {
            Ok(rest) => self.serve_rest(manner, request, number, rest, reports, out),
            Err(fault) => Err(fault),
        }
    }

    // The same, where that is left to be read.
    fn serve_rest<N: Reports, S: Outlet>(
        &mut self,
        manner: Manner,
        request: Option<Request>,
        number: usize,
        now: Option<u64>,
        reports: &mut N,
        out: &mut S,
    ) -> Result<Served, HostFault>
        ensures grown { GrowsAs (ReadThen now (ActsOn manner request result self.new.engine.engine)) self.old.engine (S.bytes out.old) (S.failures out.old) self.new.engine (S.bytes out.new) (S.failures out.new) }
        ensures answers { S.answers out.new ≡ S.answers out.old }
    {
        match self.carry_out(manner, request, now, reports, out) {
            Ok(served) => {
                report_refused(served, number, reports);
                Ok(served)
            }
            Err(fault) => Err(fault),
        }
    }

    // Takes the reading, if a timer is due then. What is left to be read.
    fn read_due<S: Outlet>(
        &mut self,
        now: Option<u64>,
        out: &mut S,
    ) -> Result<Option<u64>, HostFault>
        ensures grown { GrowsAs (ReadsDue now result) self.old.engine (S.bytes out.old) (S.failures out.old) self.new.engine (S.bytes out.new) (S.failures out.new) }
        ensures answers { S.answers out.new ≡ S.answers out.old }
    {
        if self.is_due(now) {
            match self.read(now, out) {
                Ok(()) => Ok(None),
                Err(fault) => Err(fault),
            }
        } else {
            Ok(now)
        }
    }

    /// What the engine's clock reads, in milliseconds.
    pub(crate) fn clock(&self) -> u64 {
        self.engine.clock()
    }

    /// When the next timer is due, in milliseconds of the clock; none where time stands still.
    pub(crate) fn next_due(&self) -> Option<u64> {
        if self.is_over {
            return None;
        }
        self.engine.next_due()
    }

    // Whether a timer is due at that reading.
    fn is_due(&self, now: Option<u64>) -> bool {
        match (now, self.next_due()) {
            (Some(reading), Some(due)) => due <= reading,
            _ => false,
        }
    }

    /// Takes the reading, if there is one.
    pub(crate) fn read<S: Outlet>(&mut self, now: Option<u64>, out: &mut S) -> Result<(), HostFault>
        ensures grown { GrowsAs (IsReading now) self.old.engine (S.bytes out.old) (S.failures out.old) self.new.engine (S.bytes out.new) (S.failures out.new) }
        ensures answers { S.answers out.new ≡ S.answers out.old }
    {
        match now {
            Some(reading) => self.read_clock(reading, out),
            None => Ok(()),
        }
    }

    /// Takes a clock reading, in milliseconds.
    pub(crate) fn read_clock<S: Outlet>(
        &mut self,
        reading: u64,
        out: &mut S,
    ) -> Result<(), HostFault>
        ensures grown { GrowsAs (IsReading (Some reading)) self.old.engine (S.bytes out.old) (S.failures out.old) self.new.engine (S.bytes out.new) (S.failures out.new) }
        ensures answers { S.answers out.new ≡ S.answers out.old }
    {
        if self.is_over {
            return Ok(());
        }
        self.is_over = reading > LAST_READING;
        match self.answered(Call::Clock { reading }, out) {
            Ok(_) => Ok(()),
            Err(fault) => Err(fault),
        }
    }

    // Carries a request out, if it is one here.
    fn carry_out<N: Reports, S: Outlet>(
        &mut self,
        manner: Manner,
        request: Option<Request>,
        now: Option<u64>,
        reports: &mut N,
        out: &mut S,
    ) -> Result<Served, HostFault>
        ensures grown { GrowsAs (ReadThen now (ActsOn manner request result self.new.engine.engine)) self.old.engine (S.bytes out.old) (S.failures out.old) self.new.engine (S.bytes out.new) (S.failures out.new) }
        ensures answers { S.answers out.new ≡ S.answers out.old }
    {
        match request {
            Some(request) => self.act_here(manner, request, now, reports, out),
            None => Ok(Served::Refused(LineFault::Form)),
        }
    }

    // Carries a request out, but one of steps only where runs stay out.
    fn act_here<N: Reports, S: Outlet>(
        &mut self,
        manner: Manner,
        request: Request,
        now: Option<u64>,
        reports: &mut N,
        out: &mut S,
    ) -> Result<Served, HostFault>
        ensures grown { GrowsAs (ReadThen now (ActsHere manner request result self.new.engine.engine)) self.old.engine (S.bytes out.old) (S.failures out.old) self.new.engine (S.bytes out.new) (S.failures out.new) }
        ensures answers { S.answers out.new ≡ S.answers out.old }
    {
        if !manner.is_stepped && is_of_steps(&request) {
            return Ok(Served::Refused(LineFault::Form));
        }
        self.act(manner, request, now, reports, out)
    }

    // Carries a request out.
    fn act<N: Reports, S: Outlet>(
        &mut self,
        manner: Manner,
        request: Request,
        now: Option<u64>,
        reports: &mut N,
        out: &mut S,
    ) -> Result<Served, HostFault>
        ensures grown { GrowsAs (ReadThen now (Acts manner request result self.new.engine.engine)) self.old.engine (S.bytes out.old) (S.failures out.old) self.new.engine (S.bytes out.new) (S.failures out.new) }
        ensures answers { S.answers out.new ≡ S.answers out.old }
    {
        match request {
            Request::Call(call) => self.call(manner, call, now, out),
            Request::Step(run) => self.step(run, now, out),
            Request::Drive(run) => self.drive(run, now, out),
            Request::Drain => self.tell(Told::Nothing, Served::Done, now, reports, out),
            Request::Totals => self.tell(Told::Totals, Served::Done, now, reports, out),
            Request::Ccbs => self.tell(Told::Ccbs, Served::Done, now, reports, out),
            Request::Help => self.tell(Told::Requests, Served::Done, now, reports, out),
            Request::Quit => self.tell(Told::Nothing, Served::Quit, now, reports, out),
            Request::Succeed(how) => self.succeed(how, now, out),
        }
    }

    // Another engine is asked for, after the reading, unless a run is live.
    fn succeed<S: Outlet>(
        &mut self,
        how: Succession,
        now: Option<u64>,
        out: &mut S,
    ) -> Result<Served, HostFault>
        ensures grown { GrowsAs (ReadThen now (λ acts. (manner : TheManner) → Acts manner (asks.Succeed how) result self.new.engine.engine acts)) self.old.engine (S.bytes out.old) (S.failures out.old) self.new.engine (S.bytes out.new) (S.failures out.new) }
        ensures answers { S.answers out.new ≡ S.answers out.old }
    {
        if self.engine.has_run() {
            return Ok(Served::Refused(LineFault::RunLive));
        }
        match self.read(now, out) {
            Ok(()) => self.succeed_here(how),
            Err(fault) => Err(fault),
        }
    }

    // The same after the reading, which starts no run.
    fn succeed_here(&self, how: Succession) -> Result<Served, HostFault>
        ensures { (manner : TheManner) → Acts manner (asks.Succeed how) result self.now.engine.engine [] }
    {
        if self.engine.has_run() {
            Err(HostFault::InternalError)
        } else {
            Ok(Served::Asked(how))
        }
    }

    // Carries a call out, after the reading.
    fn call<S: Outlet>(
        &mut self,
        manner: Manner,
        call: Call,
        now: Option<u64>,
        out: &mut S,
    ) -> Result<Served, HostFault>
        ensures grown { GrowsAs (ReadThen now (Acts manner (asks.Call call) result self.new.engine.engine)) self.old.engine (S.bytes out.old) (S.failures out.old) self.new.engine (S.bytes out.new) (S.failures out.new) }
        ensures answers { S.answers out.new ≡ S.answers out.old }
    {
        if !self.is_held(&call) {
            return Ok(Served::Refused(LineFault::NotHeld));
        }
        match self.read(now, out) {
            Ok(()) => self.call_here(manner, call, out),
            Err(fault) => Err(fault),
        }
    }

    // Carries a call out. A run that it starts is driven to its end, unless runs stay out.
    fn call_here<S: Outlet>(
        &mut self,
        manner: Manner,
        call: Call,
        out: &mut S,
    ) -> Result<Served, HostFault>
        ensures grown { GrowsAs (Acts manner (asks.Call call) result self.new.engine.engine) self.old.engine (S.bytes out.old) (S.failures out.old) self.new.engine (S.bytes out.new) (S.failures out.new) }
        ensures answers { S.answers out.new ≡ S.answers out.old }
    {
        match self.answered(call, out) {
            Ok(answer) => self.drive_started(manner, answer, out),
            Err(fault) => Err(fault),
        }
    }

    // Drives the run that a call started to its end, unless runs stay out.
    fn drive_started<S: Outlet>(
        &mut self,
        manner: Manner,
        answer: CallAnswer,
        out: &mut S,
    ) -> Result<Served, HostFault>
        ensures grown { GrowsAs (DrivesStarted manner answer result self.new.engine.engine) self.old.engine (S.bytes out.old) (S.failures out.old) self.new.engine (S.bytes out.new) (S.failures out.new) }
        ensures answers { S.answers out.new ≡ S.answers out.old }
    {
        match run_to_drive(manner, answer) {
            Some(run) => self.drive_here(run, out),
            None => Ok(Served::Done),
        }
    }

    // Whether the run is out that a call parks, or a guest holds the freeze that it gives back.
    fn is_held(&self, call: &Call) -> bool
        ensures { result ≡ false → IsNotHeld call.now self.now.engine.engine }
    {
        match call {
            Call::Park { run } => self.engine.is_out(*run),
            Call::GuestRelease { freeze } => self.engine.is_guests(*freeze),
            _ => true,
        }
    }

    /// Takes a clock reading, in milliseconds, since a timer is due.
    pub(crate) fn read_due_timer<S: Outlet>(
        &mut self,
        reading: u64,
        out: &mut S,
    ) -> Result<(), HostFault>
        ensures grown { GrowsAs (IsReading (Some reading)) self.old.engine (S.bytes out.old) (S.failures out.old) self.new.engine (S.bytes out.new) (S.failures out.new) }
        ensures answers { S.answers out.new ≡ S.answers out.old }
    {
        self.has_timer_gone = true;
        self.read_clock(reading, out)
    }

    /// Reports what was counted, since the engine is about to wait.
    pub(crate) fn report_waiting<N: Reports>(&mut self, reports: &mut N)
        requires { N.may_count self.old.engine.metrics self.old.engine.engine }
        ensures { self.new.engine ≡ self.old.engine }
    {
        let when = if self.has_timer_gone {
            Moment::Timer
        } else {
            Moment::Waits
        };
        self.has_timer_gone = false;
        self.report_counted(when, reports);
    }

    /// Reports what was counted.
    pub(crate) fn report_counted<N: Reports>(&self, when: Moment, reports: &mut N)
        requires { N.may_count self.now.engine.metrics self.now.engine.engine }
        ensures decided { (how : TheSuccession) (state : NumberedState) → N.has_decided reports.old how state → N.has_decided reports.new how state }
        ensures counted { N.has_counted reports.new when self.now.engine.metrics self.now.engine.engine }
    {
        reports.counted(when, self.engine.metrics(), self.engine.engine());
    }

    /// Hands over what was counted. Nothing more is counted here.
    pub(crate) fn hand_over(&mut self, metrics: &mut Metrics)
        ensures handed { metrics.new ≡ self.old.engine.metrics }
        ensures engine { self.new.engine.engine ≡ self.old.engine.engine }
        ensures printed { self.new.engine.printed ≡ self.old.engine.printed }
    {
        self.engine.hand_over(self.alloc, metrics);
    }

    /// The engine, of which nobody asks anything any more.
    pub(crate) fn into_engine(self) -> PrintedEngine<'a>
        ensures { result ≡ self.entry.engine }
    {
        let Host {
            alloc: _,
            engine,
            is_over: _,
            has_timer_gone: _,
        } = self;
        engine
    }

    // What a call is answered. A refusal is recorded and no fault.
    fn answered<S: Outlet>(&mut self, call: Call, out: &mut S) -> Result<CallAnswer, HostFault>
        ensures grown { GrowsBy (record_of_answer call result) self.old.engine (S.bytes out.old) (S.failures out.old) self.new.engine (S.bytes out.new) (S.failures out.new) }
        ensures answers { S.answers out.new ≡ S.answers out.old }
    {
        match self.engine.call(call, out) {
            Ok(Some(answer)) => Ok(answer),
            Ok(None) => Err(HostFault::InternalError),
            Err(AllocError) => Err(HostFault::OutOfMemory),
        }
    }
}
