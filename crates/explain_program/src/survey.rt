// What a pass over a program that is accepted shows: how much of a frame is written, which tables are used, what no path does, and each
// helper call. It relies on `explain_path` for the checks, on `retries` for CCBs that have none left, and on `kinds` for words.

use crate::arguments::helper_of;
use crate::kinds::{put_held, put_registers};
use crate::listing::{Listing, put_source};
use crate::retries::{Loads, does};
use crate::steps::mattering;
use base::OrMemory;
use bpf_insn::{Insn, Program, Reg};
use check_description::Description;
use check_register_kinds::{FreezeName, Kind, Region};
use cli_text_page::Page;
use explain_path::{Log, Sketch};
use helpers::{Helper, HelperEffect, HelperLimits};
use std::alloc::{AllocError, Global};
use verifier::{Witness, verify_before};

/// How many bytes a frame has.
const FRAME_BYTES: u16 = 512;

/// How many tables there may be.
const TABLES: u64 = 16;

/// How many helper calls are told of a program at most.
const MOST_CALLS: u64 = 512;

/// What a pass showed so far.
#[derive(Drop)]
pub struct Survey<'a> {
    program: &'a Program,
    listing: &'a Listing,
    log: Log,
    // how many bytes of a frame are written at most
    written: u16,
    // by tables, a bit for each that is read, or written
    tables_read: u64,
    tables_written: u64,
    acts: Acts,
    loads: Loads,
    // the lines of the helper calls, and how many there are
    calls: Page,
    count: u64,
}

// What helper calls do, by how many checks do so: requeue or finish the CCB, give the start's freeze back at once, or leave it or another
// freeze to a timer; and the range of the times that timers are asked for.
#[derive(Clone, Copy)]
struct Acts {
    requeues: u64,
    finishes: u64,
    releases: u64,
    hands_over: u64,
    timers: u64,
    least: u64,
    most: u64,
}

impl Acts {
    // None yet.
    fn none() -> Self {
        Acts {
            requeues: 0,
            finishes: 0,
            releases: 0,
            hands_over: 0,
            timers: 0,
            least: u64::MAX,
            most: 0,
        }
    }

    // Sees a check of an instruction.
    fn see(&mut self, insn: Insn, known: &Sketch) {
        let is_start = match known.kind(Reg::R1) {
            Kind::Freeze(name) => name.is_same(FreezeName::Start),
            _ => false,
        };
        let is_timer = does(insn, HelperEffect::HandOver);
        self.requeues = more(self.requeues, does(insn, HelperEffect::Requeue));
        self.finishes = more(self.finishes, does(insn, HelperEffect::Finish));
        self.releases = more(
            self.releases,
            is_start && does(insn, HelperEffect::GiveBack),
        );
        self.hands_over = more(self.hands_over, is_start && is_timer);
        self.timers = more(self.timers, is_timer);
        if is_timer {
            self.see_time(known.kind(Reg::R2));
        }
    }

    // Sees a time that a timer is asked for.
    fn see_time(&mut self, time: Kind) {
        let (least, most) = match time {
            Kind::Number(number) => (number.least(), number.most()),
            _ => (0, u64::MAX),
        };
        self.least = self.least.min(least);
        self.most = self.most.max(most);
    }

    // Puts what no path does, and the range of times.
    fn put(&self, page: &mut Page) {
        if self.finishes == 0 && self.requeues > 0 {
            page.text("  no path finishes the CCB\n");
        }
        if self.releases == 0 && self.hands_over > 0 {
            page.text(
                "  no path gives the start's freeze back at once: it may be left to a timer on every path\n",
            );
        }
        if self.timers > 0 && self.least == self.most {
            page.fill("  a timer is asked for {} ms\n", &[self.least]);
        } else if self.timers > 0 {
            page.fill(
                "  a timer is asked for {} ms at least and {} ms at most\n",
                &[self.least, self.most],
            );
        }
    }
}

// One more, if that is so.
fn more(count: u64, is_so: bool) -> u64 {
    if is_so {
        count.saturating_add(1)
    } else {
        count
    }
}

impl<'a> Survey<'a> {
    // Nothing yet.
    fn new(alloc: Global, program: &'a Program, listing: &'a Listing, loads: Loads) -> Self {
        Survey {
            program,
            listing,
            log: Log::new(alloc),
            written: 0,
            tables_read: 0,
            tables_written: 0,
            acts: Acts::none(),
            loads,
            calls: Page::new(alloc),
            count: 0,
        }
    }

    /// Puts all of it. The program runs with these limits.
    pub fn put(
        self,
        alloc: Global,
        limits: &HelperLimits,
        page: &mut Page,
    ) -> Result<(), AllocError> {
        self.put_sums(page);
        self.put_requeues(alloc, limits, page)?;
        self.acts.put(page);
        let left_out = self.count.saturating_sub(MOST_CALLS);
        page.text(self.calls.finish()?.as_str());
        if left_out > 0 {
            page.fill("  .. {} calls more\n", &[left_out]);
        }
        Ok(())
    }

    // Puts how much of a frame is written, and which tables are used.
    fn put_sums(&self, page: &mut Page) {
        page.fill(
            "  {} of {} bytes of a frame are written\n",
            &[u64::from(self.written), u64::from(FRAME_BYTES)],
        );
        for table in 0..TABLES {
            put_table(page, table, self.tables_read, self.tables_written);
        }
    }

    // Puts whether a CCB without retries may be requeued, if any is.
    fn put_requeues(
        &self,
        alloc: Global,
        limits: &HelperLimits,
        page: &mut Page,
    ) -> Result<(), AllocError> {
        if self.acts.requeues == 0 {
            return Ok(());
        }
        let may_requeue = self.loads.may_requeue(alloc, self.program, limits)?;
        page.text(match (may_requeue, self.loads.are_none()) {
            (false, _) => "  a CCB that has no retries left is not requeued\n",
            (true, true) => {
                "  a CCB that has no retries left may be requeued: the retries are not read\n"
            }
            (true, false) => "  a CCB that has no retries left may be requeued\n",
        });
        Ok(())
    }

    // Sees a check of an instruction.
    fn see(&mut self, slot: usize, insn: Insn, known: &Sketch) {
        self.acts.see(insn, known);
        self.loads.see(slot, insn, known);
        self.written = self.written.max(written(known, insn));
        if let Some(helper) = helper_of(insn) {
            self.see_table(helper, known);
            if self.count < MOST_CALLS {
                self.put_call(slot, insn, helper, known);
            }
            self.count = self.count.saturating_add(1);
        }
    }

    // Sees which table a helper reads or writes.
    fn see_table(&mut self, helper: Helper, known: &Sketch) {
        let table = match known.kind(Reg::R1).known() {
            Some(number) if number < TABLES => 1u64.wrapping_shl(number as u32),
            _ => 0,
        };
        if matches!(helper, Helper::TableGet | Helper::TableAdd) {
            self.tables_read |= table;
        }
        if matches!(helper, Helper::TablePut | Helper::TableAdd) {
            self.tables_written |= table;
        }
    }

    // Puts a helper call, with what is known there of its arguments and of freezes.
    fn put_call(&mut self, slot: usize, insn: Insn, helper: Helper, known: &Sketch) {
        let page = &mut self.calls;
        page.fill("  slot {}", &[slot as u64]);
        if let Some(written) = self.listing.at(slot) {
            page.fill(", line {}", &[written.standing.line as u64]);
            put_source(page, ", ", written);
        }
        page.text(": ");
        page.text(helper.signature());
        page.text(": ");
        let registers = mattering(insn);
        if registers.count() > 0 {
            put_registers(page, &self.log, known, registers);
            page.text("; ");
        }
        put_held(page, &self.log, &known.held);
        page.text("\n");
    }
}

impl Witness for Survey<'_> {
    fn checks(&mut self, number: u32, slot: usize, known: &Description) {
        self.log.checks(number, slot, known);
        if let Some(insn) = self.program.fetch(slot) {
            self.see(slot, insn, &Sketch::of(known));
        }
    }

    fn leads(&mut self, number: u32, slot: usize, known: &Description) {
        self.log.leads(number, slot, known);
    }

    fn leaves(&mut self, number: u32, slot: usize, known: &Description) {
        self.log.leaves(number, slot, known);
    }
}

/// What the verifier's pass shows of a program that is accepted.
pub fn survey_of<'a>(
    alloc: Global,
    program: &'a Program,
    listing: &'a Listing,
    limits: &HelperLimits,
) -> Result<Survey<'a>, AllocError> {
    let loads = Loads::none(alloc, program.len())?;
    let (survey, judged) = verify_before(
        alloc,
        program,
        limits,
        Survey::new(alloc, program, listing, loads),
    );
    match judged {
        Err(OrMemory::OutOfMemory) => Err(AllocError),
        _ if survey.log.lacks_memory() => Err(AllocError),
        _ => Ok(survey),
    }
}

// Puts whether a table is read or written.
fn put_table(page: &mut Page, table: u64, read: u64, written: u64) {
    let bit = match u32::try_from(table) {
        Ok(place) => 1u64.wrapping_shl(place),
        Err(_) => 0,
    };
    let pattern = match (read & bit != 0, written & bit != 0) {
        (true, false) => "  table {} is read\n",
        (false, true) => "  table {} is written\n",
        (true, true) => "  table {} is read and written\n",
        (false, false) => return,
    };
    page.fill(pattern, &[table]);
}

// How far below the end of a frame an instruction may write.
fn written(known: &Sketch, insn: Insn) -> u16 {
    let (base, offset) = match insn {
        Insn::Store { dst, offset, .. } => (known.kind(dst), offset),
        _ => match helper_of(insn) {
            Some(Helper::QueueInfo) => (known.kind(Reg::R1), 0),
            _ => return 0,
        },
    };
    match base {
        Kind::Address(Region::Frame(_), offsets) => {
            FRAME_BYTES.saturating_sub(offsets.least.saturating_add_signed(offset))
        }
        _ => 0,
    }
}
