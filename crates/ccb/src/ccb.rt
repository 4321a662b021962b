// A CCB as the transport keeps it from its submission to its end, and what each step of its life
// changes. It relies on the status codes, the flags and the place for sense bytes.
ghost use Rattle.std.specs.Prelude.{◌≡◌};
ghost use Rattle.ccb.specs.Ccb.{advised, completed, flags_of, requeued, started, status_word_of, submitted};

use crate::cam_status::CamStatus;
use crate::ccb_flags::CcbFlags;
use crate::completion::Completion;
use crate::{CcbId, QueueId};
use base::ShortBytes;
use bitflags::Flags;

/// A CAM Control Block (ANSI X3.232): one command for one device queue. Until its first completion,
/// and again once it is requeued, its status says that it is in progress and nothing has come.
#[derive(Clone, Copy, Debug, PartialEq, Eq)]
pub struct Ccb {
    /// Its number, from 1.
    pub number: CcbId,
    /// The device queue that it was submitted to.
    pub queue: QueueId,
    /// The CCB of the lowest priority number starts first.
    pub priority: u32,
    /// How often the CCB may still be tried again.
    pub retries: u32,
    /// What the host said that the command is, say its SCSI opcode; 0 if it said nothing.
    pub class: u32,
    /// How often it was started, up to the largest u32.
    pub attempts: u32,
    /// What its policy advised the host to do before its next start; 0 if it advised nothing.
    pub advice: u32,
    /// What the last completion said, or that the CCB is in progress.
    pub status: CamStatus,
    /// The SCSI status byte of the last completion, or 0.
    pub scsi: u8,
    /// The sense bytes of the last completion, or none.
    pub sense: ShortBytes,
    /// Whether a freeze of the queue was taken for the last completion.
    pub freeze_taken: bool,
}

impl Ccb {
    /// A CCB that is submitted, and was not started yet.
    pub fn new(number: CcbId, queue: QueueId, priority: u32, retries: u32, class: u32) -> Self
        ensures { result ≡ submitted number queue priority retries class }
    {
        Ccb {
            number,
            queue,
            priority,
            retries,
            class,
            attempts: 0,
            advice: 0,
            status: CamStatus::RequestInProgress,
            scsi: 0,
            sense: ShortBytes::none(),
            freeze_taken: false,
        }
    }

    /// Counts a start. The count stays at the largest u32 once it is there. What was advised for this start is advised no more.
    pub fn start(&mut self)
        ensures { self.new ≡ started self.old }
    {
        self.attempts = self.attempts.saturating_add(1);
        self.advice = 0;
    }

    /// Advises the host to do something before the next start, in place of what was advised before.
    pub fn advise(&mut self, word: u32)
        ensures { self.new ≡ advised self.old word }
    {
        self.advice = word;
    }

    /// Takes over what a completion brought, and whether a freeze of the queue was taken for it.
    pub fn complete(&mut self, completion: &Completion, freeze_taken: bool)
        ensures { self.new ≡ completed self.old completion.now freeze_taken }
    {
        self.status = completion.status();
        self.scsi = completion.scsi();
        self.sense = completion.sense();
        self.freeze_taken = freeze_taken;
    }

    /// Makes the CCB wait again: so many retries are used up, as far as there are that many, and what
    /// the completion brought is gone. Number, queue, priority, class, attempts and advice stay.
    pub fn requeue(&mut self, used: u32)
        ensures { self.new ≡ requeued self.old used }
    {
        self.retries = self.retries.saturating_sub(used);
        self.status = CamStatus::RequestInProgress;
        self.scsi = 0;
        self.sense = ShortBytes::none();
        self.freeze_taken = false;
    }

    /// The flags of the status word: DEV_QFRZN where a freeze was taken, AUTOSNS_VALID where sense
    /// bytes came.
    pub fn flags(&self) -> CcbFlags
        ensures { result.0 ≡ flags_of self.now }
    {
        let mut flags = CcbFlags::empty();
        if self.freeze_taken {
            flags.insert(CcbFlags::DEV_QFRZN);
        }
        if !self.sense.is_empty() {
            flags.insert(CcbFlags::AUTOSNS_VALID);
        }
        flags
    }

    /// The status word: the code of the CAM status, with the flags above it.
    pub fn status_word(&self) -> u32
        ensures { result ≡ status_word_of self.now }
    {
        u32::from(self.status.code() | self.flags().bits())
    }
}
