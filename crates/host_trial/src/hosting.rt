// A host in virtual time. At each moment it takes what devices report, lets the runs that start go on to their ends, submits what its devices are to get,
// and starts what may start. It relies on `recorded` for the engine, on `drives` for devices, and on `answers` for what they are at work on.

ghost use Rattle.std.specs.Prelude.{◌≡◌, []};
ghost use Rattle.ccb.specs.declared.cam_status.CamStatus.TheVariants.{RequestCompleted};

use crate::answers::{Draws, Schedule, Started};
use crate::drives::Drive;
use crate::ending::Halt;
use crate::recorded::Recorded;
use crate::rules::Start;
use ccb::{CamStatus, CcbId, Completion, Place, QueueId};
use engine_core::QueueInfo;
use std::alloc::{AllocError, Global};
use world_calls::{Call, CallAnswer, CompletionRecord};

/// The most CCBs of a queue.
const MOST: u64 = 256;

/// A host, its engine and its devices.
#[derive(Drop)]
pub(crate) struct Hosting<'a> {
    pub(crate) alloc: Global,
    pub(crate) host: Recorded<'a>,
    pub(crate) drives: Vec<Drive<'a>>,
    pub(crate) schedule: Schedule,
    pub(crate) seed: u64,
    /// How many requests each device gets.
    pub(crate) requests: u64,
    /// When it stops at the latest.
    pub(crate) until: u64,
}

impl<'a> Hosting<'a> {
    /// Goes on for so many moments, or until nothing happens any more; and returns why it went no further.
    pub(crate) fn go_on(&mut self, moments: u64) -> Result<Halt, AllocError>
        ensures { self.new.host.engine.setup ≡ self.old.host.engine.setup }
    {
        for _moment in 0..moments {
            self.start_all()?;
            let goes = self.pass()?;
            if !goes {
                return Ok(self.halt());
            }
        }
        Ok(Halt::Limit)
    }

    // Why nothing was taken at the next moment: there is none, or it is too late.
    fn halt(&self) -> Halt {
        match self.next() {
            Some(_) => Halt::Until,
            None => Halt::Over,
        }
    }

    // Goes on to the next moment at which something happens, and takes it; or returns that there is none.
    fn pass(&mut self) -> Result<bool, AllocError>
        ensures { self.new.host.engine.setup ≡ self.old.host.engine.setup }
    {
        match self.next() {
            Some(moment) if moment <= self.until => {
                self.read_clock(moment)?;
                self.complete_all(moment)?;
                Ok(true)
            }
            _ => Ok(false),
        }
    }

    // When something happens next: a device is done, or a timer is due.
    fn next(&self) -> Option<u64> {
        match (self.schedule.next(), self.host.engine().next_due()) {
            (Some(done), Some(due)) => Some(done.min(due)),
            (Some(done), None) => Some(done),
            (None, due) => due,
        }
    }

    // The clock reads that moment, unless it does already.
    fn read_clock(&mut self, moment: u64) -> Result<(), AllocError>
        ensures { self.new.host.engine.setup ≡ self.old.host.engine.setup }
    {
        if moment > self.host.engine().clock() {
            let _ = self.host.call(Call::Clock { reading: moment })?;
        }
        Ok(())
    }

    // Takes what is done at that moment.
    fn complete_all(&mut self, moment: u64) -> Result<(), AllocError>
        ensures { self.new.host.engine.setup ≡ self.old.host.engine.setup }
    {
        for _one in 0..MOST * 64 {
            match self.schedule.take_due(moment) {
                Some(started) => self.complete(started)?,
                None => return Ok(()),
            }
        }
        Ok(())
    }

    // Reports what the device made of a CCB, and lets the run that starts go on to its end.
    fn complete(&mut self, started: Started) -> Result<(), AllocError>
        ensures { self.new.host.engine.setup ≡ self.old.host.engine.setup }
    {
        let completion = self.completion(started);
        let completion = CompletionRecord::new(self.alloc, &completion)?;
        match self.host.call(Call::Complete { completion })? {
            Some(CallAnswer::Started { run, .. }) => self.host.drive(run),
            _ => Ok(()),
        }
    }

    // What the device made of a CCB.
    fn completion(&self, started: Started) -> Completion {
        match self.failed(started) {
            Some(template) => of_ccb(template, started.ccb),
            None => done(started.ccb),
        }
    }

    fn failed(&self, started: Started) -> Option<&Completion> {
        let drive = self.drives.get(started.drive)?;
        let rule = drive.rules.get(started.failure?)?;
        Some(&rule.failure.completion)
    }

    // Submits what each device is to get, and starts what may start.
    fn start_all(&mut self) -> Result<(), AllocError>
        ensures { self.new.host.engine.setup ≡ self.old.host.engine.setup }
    {
        for place in 0..self.drives.len() {
            self.submit_all(place)?;
            self.start_of(place)?;
        }
        Ok(())
    }

    // Submits requests to a device until it has as many as it is to have.
    fn submit_all(&mut self, place: usize) -> Result<(), AllocError>
        ensures { self.new.host.engine.setup ≡ self.old.host.engine.setup }
    {
        let class = class_in(&self.host);
        for _one in 0..MOST {
            let Some(drive) = self.drives.get_mut(place) else {
                return Ok(());
            };
            let info = info_of(&self.host, drive.queue);
            let held = u64::from(info.active).saturating_add(u64::from(info.waiting));
            if held >= drive.device.depth || drive.submitted >= self.requests {
                return Ok(());
            }
            let call = submission(drive, class);
            match self.host.call(call)? {
                Some(CallAnswer::Ccb(_)) => drive.submitted = drive.submitted.saturating_add(1),
                _ => return Ok(()),
            }
        }
        Ok(())
    }

    // Starts the CCBs of a device that may start.
    fn start_of(&mut self, place: usize) -> Result<(), AllocError>
        ensures { self.new.host.engine.setup ≡ self.old.host.engine.setup }
    {
        for _one in 0..MOST {
            let Some(drive) = self.drives.get(place) else {
                return Ok(());
            };
            let queue = drive.queue;
            if !may_start(&self.host, queue) {
                return Ok(());
            }
            match self.host.call(Call::Dispatch { queue })? {
                Some(CallAnswer::Ccb(ccb)) => self.start(place, ccb, 0)?,
                Some(CallAnswer::Advised(ccb, advice)) => self.start(place, ccb, advice)?,
                _ => return Ok(()),
            }
        }
        Ok(())
    }

    // A CCB was started, with that advice: the device is at work on it.
    fn start(&mut self, place: usize, ccb: CcbId, advice: u32) -> Result<(), AllocError>
        ensures { self.new.host.engine.setup ≡ self.old.host.engine.setup }
    {
        let Some(drive) = self.drives.get_mut(place) else {
            return Ok(());
        };
        let now = self.host.engine().clock();
        let tries = tries_of(&self.host, ccb);
        let info = info_of(&self.host, drive.queue);
        let address = Draws::of(self.seed, ccb, 0).below(drive.device.addresses);
        let start = Start {
            now,
            address,
            tries,
            active: u64::from(info.active),
            advice: u64::from(advice),
        };
        let reaction = drive.start(
            start,
            &mut Draws::of(self.seed, ccb, tries.saturating_add(1)),
        );
        self.schedule.add(Started {
            due: now.saturating_add(reaction.time),
            ccb,
            drive: place,
            failure: reaction.failure,
        })
    }
}

// The next request of a device.
fn submission(drive: &Drive<'_>, class: Option<u32>) -> Call {
    Call::Submit {
        queue: drive.queue,
        priority: 0,
        retries: drive.device.retries,
        class,
    }
}

// The class of each request: 0, if CCBs have a class.
fn class_in(host: &Recorded<'_>) -> Option<u32> {
    if host.engine().config().has_classes() {
        Some(0)
    } else {
        None
    }
}

// What a queue has; nothing if there is no such queue.
fn info_of(host: &Recorded<'_>, queue: QueueId) -> QueueInfo {
    match host.engine().queue_info(queue) {
        Some(info) => info,
        None => QueueInfo {
            frozen: 0,
            active: 0,
            waiting: 0,
            openings: 0,
        },
    }
}

// Whether a CCB of that queue may start.
fn may_start(host: &Recorded<'_>, queue: QueueId) -> bool {
    let info = info_of(host, queue);
    if info.frozen == 0 && info.waiting > 0 && info.active < info.openings {
        !is_held(host, queue)
    } else {
        false
    }
}

// Whether the controller of a queue is frozen.
fn is_held(host: &Recorded<'_>, queue: QueueId) -> bool {
    let engine = host.engine();
    let controller = Place::Controller(engine.config().controller(queue));
    match engine.holders(controller) {
        Some(mut holders) => holders.next().is_some(),
        None => false,
    }
}

// How often a CCB was started before this start.
fn tries_of(host: &Recorded<'_>, ccb: CcbId) -> u64 {
    match host.engine().ccb(ccb) {
        Some(live) => u64::from(live.ccb().attempts.saturating_sub(1)),
        None => 0,
    }
}

// The same completion for this CCB.
fn of_ccb(template: &Completion, ccb: CcbId) -> Completion
    ensures { result ≡ record template.now { ccb = ccb } }
{
    let sense = template.sense();
    match Completion::new(ccb, template.status(), template.scsi(), sense.as_slice()) {
        Some(completion) => completion,
        None => unreachable!(),
    }
}

// That this CCB is done, and all is well.
fn done(ccb: CcbId) -> Completion
    ensures { result ≡ record { ccb = ccb; status = RequestCompleted; scsi = 0; sense = [] } }
{
    match Completion::new(ccb, CamStatus::RequestCompleted, 0, &[]) {
        Some(completion) => completion,
        None => unreachable!(),
    }
}
