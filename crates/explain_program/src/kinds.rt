// What is known of a register, of freezes and of stack bytes, in words. It relies on `check_register_kinds` for what is known, and on
// `explain_path` for where a freeze was taken.

use bpf_insn::Reg;
use check_register_kinds::{Certainty, FreezeName, Held, HeldFreeze, Kind, Offsets, Region};
use cli_text_page::Page;
use explain_path::{Log, Registers, Sketch};
use scalar_domain::Scalar;

/// What distinguishes the signed order of words from the unsigned one.
const SIGN: u64 = 1 << 63;

/// How many bytes a frame has: R10 points after them.
const FRAME_BYTES: u16 = 512;

/// How many freezes are named one by one at most.
const FEW: usize = 2;

/// What a register's words depend on beside its kind: how many functions are open, and which freezes are held.
#[derive(Clone, Copy)]
pub struct Around {
    pub depth: usize,
    pub held: Option<Held>,
}

impl Around {
    /// That of a place of which all is known.
    pub fn of(known: &Sketch) -> Self {
        Around {
            depth: known.stack.depth(),
            held: Some(known.held),
        }
    }

    // How sure it is that a freeze is held.
    fn certainty(&self, name: FreezeName) -> Option<Certainty> {
        match self.held {
            Some(held) => held.certainty(name),
            None => None,
        }
    }
}

/// Puts what is known of a register.
pub fn put_kind(page: &mut Page, log: &Log, around: &Around, kind: Kind) {
    match kind {
        Kind::Unwritten => page.text("unwritten, or of several kinds"),
        Kind::Number(scalar) => put_number(page, scalar),
        Kind::Address(region, offsets) => put_address(page, around, region, offsets),
        Kind::Freeze(name) => put_copy(page, log, around, name),
    }
}

/// Puts which numbers these are.
pub fn put_number(page: &mut Page, scalar: Scalar) {
    let (least, most) = (scalar.least(), scalar.most());
    if least == most {
        put_word(page, least);
        return;
    }
    if least == 0 && most == u64::MAX {
        put_signed(page, scalar);
    } else {
        page.fill("{} to {}", &[least, most]);
        if most >= SIGN && !has_any_sign(scalar) {
            page.text(" (signed ");
            put_signed_ends(page, scalar);
            page.text(")");
        }
    }
    put_bits(page, scalar);
}

// Puts a word; one whose sign bit is set as a negative number too.
fn put_word(page: &mut Page, word: u64) {
    page.number(word);
    if word >= SIGN {
        page.text(" (signed ");
        page.signed(word.cast_signed());
        page.text(")");
    }
}

// Puts the signed range, where that says anything.
fn put_signed(page: &mut Page, scalar: Scalar) {
    let (least, most) = (scalar.signed.least, scalar.signed.most);
    if least == 0 && most == u64::MAX {
        page.text("any number");
        return;
    }
    put_signed_ends(page, scalar);
    page.text(", signed");
}

// Whether the signed range says nothing.
fn has_any_sign(scalar: Scalar) -> bool {
    scalar.signed.least == 0 && scalar.signed.most == u64::MAX
}

// Puts the least and the greatest number of the signed range.
fn put_signed_ends(page: &mut Page, scalar: Scalar) {
    page.signed(scalar.signed.least.wrapping_sub(SIGN).cast_signed());
    page.text(" to ");
    page.signed(scalar.signed.most.wrapping_sub(SIGN).cast_signed());
}

// Puts what the bits are that are known, by a mask, where the range does not say so: those that are alike in all numbers of it are
// left out.
fn put_bits(page: &mut Page, scalar: Scalar) {
    let fixed = !(scalar.bits.must ^ scalar.bits.may);
    let differing = scalar.least() ^ scalar.most();
    let below = match differing.leading_zeros() {
        0 => u64::MAX,
        zeros => 1u64
            .wrapping_shl(64u32.saturating_sub(zeros))
            .wrapping_sub(1),
    };
    let told = fixed & below;
    if told != 0 {
        let set = scalar.bits.must & told;
        page.text(", bits ");
        page.word(told);
        page.text(" are ");
        page.word(set);
    }
}

// Puts where an address lies.
fn put_address(page: &mut Page, around: &Around, region: Region, offsets: Offsets) {
    match region {
        Region::Context => {
            page.fill("address context+{}", &[u64::from(offsets.least)]);
            if offsets.least != offsets.most {
                page.fill(" to context+{}", &[u64::from(offsets.most)]);
            }
        }
        Region::Frame(frame) => put_stack_address(page, around, frame, offsets),
    }
}

fn put_stack_address(page: &mut Page, around: &Around, frame: u8, offsets: Offsets) {
    page.text("address ");
    put_place(page, offsets.least);
    if offsets.least != offsets.most {
        page.text(" to ");
        put_place(page, offsets.most);
    }
    if usize::from(frame) + 1 < around.depth {
        page.fill(" of frame {}, a caller's", &[u64::from(frame)]);
    }
}

/// Puts an offset in a frame, as a policy has it: from R10.
pub fn put_place(page: &mut Page, offset: u16) {
    page.text("r10");
    if offset != FRAME_BYTES {
        page.fill("-{}", &[u64::from(FRAME_BYTES.saturating_sub(offset))]);
    }
}

// Puts which freeze it is a copy of.
fn put_copy(page: &mut Page, log: &Log, around: &Around, name: FreezeName) {
    put_name(page, log, name);
    match around.certainty(name) {
        Some(Certainty::Sure) => {}
        Some(Certainty::Open) => page.text(", or 0"),
        None => page.text(", which is held no more"),
    }
}

/// Puts the name of a freeze: where it was taken.
pub fn put_name(page: &mut Page, log: &Log, name: FreezeName) {
    match name {
        FreezeName::Start => page.text("the start's freeze"),
        FreezeName::Call(number) => match log.sightings().get(number as usize) {
            Some(sighting) => page.fill("the freeze taken at slot {}", &[sighting.slot as u64]),
            None => page.text("a freeze"),
        },
    }
}

/// Puts which freezes are held, and which of them may be none.
pub fn put_held(page: &mut Page, log: &Log, held: &Held) {
    let held = held.as_slice();
    if held.is_empty() {
        page.text("the run holds no freeze");
        return;
    }
    page.text("the run holds ");
    if held.len() > FEW {
        put_many(page, log, held);
        return;
    }
    for (place, freeze) in held.iter().enumerate() {
        if place > 0 {
            page.text(" and ");
        }
        put_freeze(page, log, *freeze);
    }
}

// Puts freezes that are more than a few: how many they are, whether they may be 0, and then by what each was taken.
fn put_many(page: &mut Page, log: &Log, held: &[HeldFreeze]) {
    let open = held
        .iter()
        .filter(|freeze| freeze.certainty == Certainty::Open)
        .count();
    page.fill("{} freezes", &[held.len() as u64]);
    if open == held.len() {
        page.text(", each of which may be 0");
    } else if open > 0 {
        page.fill(", of which {} may be 0", &[open as u64]);
    }
    page.text(": ");
    let mut before = "that of slot ";
    for freeze in held {
        match freeze.name {
            FreezeName::Start => {
                page.text("the start's");
                before = if held.len() > 2 {
                    " and those of slots "
                } else {
                    " and that of slot "
                };
            }
            FreezeName::Call(number) => {
                page.text(before);
                put_slot_of(page, log, number);
                before = ", ";
            }
        }
    }
}

// Puts the slot at which a freeze was taken.
fn put_slot_of(page: &mut Page, log: &Log, number: u32) {
    let slot = match log.sightings().get(number as usize) {
        Some(sighting) => sighting.slot,
        None => 0,
    };
    page.number(slot as u64);
}

fn put_freeze(page: &mut Page, log: &Log, freeze: HeldFreeze) {
    match freeze.name {
        FreezeName::Start => page.text("the start's freeze"),
        FreezeName::Call(number) => match log.sightings().get(number as usize) {
            Some(sighting) => page.fill("the freeze of slot {}", &[sighting.slot as u64]),
            None => page.text("a freeze"),
        },
    }
    page.text(match freeze.certainty {
        Certainty::Sure => "",
        Certainty::Open => ", which may be 0",
    });
}

/// Puts what is known of these registers, in their order.
pub fn put_registers(page: &mut Page, log: &Log, known: &Sketch, registers: Registers) {
    let around = Around::of(known);
    let mut first = true;
    for number in 0u8..11 {
        let Some(reg) = Reg::from_number(number) else {
            continue;
        };
        if registers.has(reg) {
            page.text(if first { "" } else { "; " });
            first = false;
            put_register(page, log, &around, reg, known.kind(reg));
        }
    }
}

/// Puts what a register holds.
pub fn put_register(page: &mut Page, log: &Log, around: &Around, reg: Reg, kind: Kind) {
    if reg == Reg::R10 {
        page.text("r10 = frame pointer");
        return;
    }
    page.fill("r{} = ", &[u64::from(reg.number())]);
    put_kind(page, log, around, kind);
}
