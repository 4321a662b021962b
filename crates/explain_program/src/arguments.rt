// Helper calls in words: what a helper asks of its arguments, and what is known of them. It relies on `helpers` for the table.

use crate::kinds::{Around, put_register};
use bpf_insn::{Callee, Insn, Reg};
use check_register_kinds::{Certainty, Kind, Region};
use cli_text_page::Page;
use explain_path::{Log, Sketch};
use helpers::{ArgKind, Helper, HelperLimits};

/// How many bytes a frame has.
const FRAME_BYTES: u64 = 512;

/// How many bytes helper 10 takes at most.
const MOST_TRACED: u64 = 64;

/// The helper that an instruction calls, if it calls one.
pub fn helper_of(insn: Insn) -> Option<Helper> {
    match insn {
        Insn::Call(Callee::Helper(number)) => Helper::with_number(number),
        _ => None,
    }
}

/// The arguments that a helper takes, each with what is asked of it.
pub fn asked(helper: Helper) -> [(Reg, Option<ArgKind>); 3] {
    let asks = helper.asks();
    [
        (Reg::R1, asks.first),
        (Reg::R2, asks.second),
        (Reg::R3, asks.third),
    ]
}

/// Puts what is known of each argument, and what is required of it if that is not so.
pub fn put_breach(
    page: &mut Page,
    log: &Log,
    known: &Sketch,
    limits: &HelperLimits,
    helper: Helper,
) {
    page.fill("helper {}, ", &[u64::from(helper.number())]);
    page.text(helper.signature());
    let mut before = ": ";
    for (reg, asked) in asked(helper) {
        let Some(asked) = asked else {
            continue;
        };
        if !is_judged(limits, known, asked) {
            continue;
        }
        page.text(before);
        before = "; ";
        put_register(page, log, &Around::of(known), reg, known.kind(reg));
        put_verdict(page, limits, known, reg, asked);
    }
}

// Whether an argument can be judged: the index of a word cannot, if the table is not one known number.
fn is_judged(limits: &HelperLimits, known: &Sketch, asked: ArgKind) -> bool {
    asked != ArgKind::Index || range(limits, known, asked).is_some()
}

// Puts whether an argument is as required, and what is required of it if it is not.
fn put_verdict(page: &mut Page, limits: &HelperLimits, known: &Sketch, reg: Reg, asked: ArgKind) {
    if is_fit(known, limits, asked, known.kind(reg)) {
        page.text(", as required");
    } else if asked == ArgKind::Table && limits.table_lengths.as_slice().is_empty() {
        page.text(", but the manifest has no table");
    } else {
        page.text(", but ");
        put_asked(page, limits, known, asked);
        page.text(" is required");
    }
}

/// Puts how the first argument is mended that is not as it has to be, and answers whether there is one.
pub fn put_mending(page: &mut Page, known: &Sketch, limits: &HelperLimits, helper: Helper) -> bool {
    for (reg, asked) in asked(helper) {
        if let Some(asked) = asked {
            if !is_fit(known, limits, asked, known.kind(reg)) {
                page.text("  = to mend it: ");
                put_advice(page, limits, known, helper, reg, asked);
                page.text("\n");
                return true;
            }
        }
    }
    false
}

// Puts how an argument of a helper is mended.
fn put_advice(
    page: &mut Page,
    limits: &HelperLimits,
    known: &Sketch,
    helper: Helper,
    reg: Reg,
    asked: ArgKind,
) {
    match asked {
        ArgKind::HeldFreeze => page.text(match known.kind(reg) {
            Kind::Freeze(_) => {
                "test the freeze for 0 before this call, and go around the call if it is 0: `jeq r1, 0, T`"
            }
            _ => {
                "give back a freeze that the run holds: that of the start, which comes in r2, or what helper 1 or 13 answered"
            }
        }),
        ArgKind::Room { bytes } => page.fill(
            "let r1 point to {} bytes of the stack, as by `mov64 r1, r10` and `add64 r1, -{}`",
            &[bytes, bytes],
        ),
        ArgKind::Bytes => page.text(
            "let r1 point to bytes of the stack, as by `mov64 r1, r10` and `add64 r1, -8`, and let r2 be at most the number of bytes from there to r10",
        ),
        ArgKind::Table if limits.table_lengths.as_slice().is_empty() => page.text(
            "add a [[table]] with its `length` to the manifest; tables are numbered from 0",
        ),
        ArgKind::Table if known.kind(reg).known().is_none() => page.text(
            "put the table's number into r1 as a constant right before the call, as by `mov64 r1, 0`",
        ),
        ArgKind::Within { .. } => match helper {
            Helper::Requeue => page.text(
                "put 1 into r1 for a failure that uses up a retry, or 0 for one that does not",
            ),
            Helper::Advise => page.text(
                "put a word of advice from 0 to 4294967295 into r1; `mov32 r1, r1` keeps the lower half of a number alone",
            ),
            Helper::ReleaseAfter => page.text(
                "let r2 be a time from 1 to 600000 ms on each path; to give the freeze back at once, call 2",
            ),
            _ => put_bound(page, limits, known, reg, asked),
        },
        _ => put_bound(page, limits, known, reg, asked),
    }
}

// Puts that a register is to be bounded.
fn put_bound(page: &mut Page, limits: &HelperLimits, known: &Sketch, reg: Reg, asked: ArgKind) {
    let kind = known.kind(reg);
    let is_fixed = !kind.is_number() || kind.known().is_some();
    let reg = u64::from(reg.number());
    match range(limits, known, asked) {
        Some((least, most)) if least == most => page.fill("put {} into r{}", &[least, reg]),
        Some((least, most)) if is_fixed => page.fill(
            "put a number from {} to {} into r{}",
            &[least, most, reg],
        ),
        Some((0, most)) => page.fill(
            "bound r{} before this call: go elsewhere by `jgt r{}, {}, T` if it is more",
            &[reg, reg, most],
        ),
        Some((least, most)) => page.fill(
            "bound r{} from both ends before this call: go elsewhere by `jlt r{}, {}, T` and `jgt r{}, {}, T`",
            &[reg, reg, least, reg, most],
        ),
        None => page.fill("put a number into r{} before this call", &[reg]),
    }
}

// Puts what an argument has to be.
fn put_asked(page: &mut Page, limits: &HelperLimits, known: &Sketch, asked: ArgKind) {
    match asked {
        ArgKind::HeldFreeze => page.text("a freeze that the run holds and that is surely not 0"),
        ArgKind::Word => page.text("a number"),
        ArgKind::Room { bytes } => page.fill("the address of {} bytes of the stack", &[bytes]),
        ArgKind::Bytes => page.text("the address of as many written bytes of the stack as r2 says"),
        _ => put_range(page, range(limits, known, asked), asked),
    }
}

// Puts a range in which an argument has to lie.
fn put_range(page: &mut Page, range: Option<(u64, u64)>, asked: ArgKind) {
    page.text(match asked {
        ArgKind::Queue => "the number of a queue",
        ArgKind::Table => "the number of one table",
        ArgKind::Index => "the index of a word",
        _ => "a number",
    });
    match range {
        Some((least, most)) if least == most => page.fill(" (only {})", &[least]),
        Some((least, most)) => page.fill(" from {} to {}", &[least, most]),
        None => {}
    }
}

// The numbers that an argument may be, if they are a range.
fn range(limits: &HelperLimits, known: &Sketch, asked: ArgKind) -> Option<(u64, u64)> {
    match asked {
        ArgKind::Queue => up_to(u64::from(limits.queues)),
        ArgKind::Table => up_to(limits.table_lengths.as_slice().len() as u64),
        ArgKind::Index => up_to(words_of(limits, known.kind(Reg::R1))?),
        ArgKind::Within { least, most } => Some((least, most)),
        ArgKind::HeldFreeze | ArgKind::Word | ArgKind::Room { .. } | ArgKind::Bytes => None,
    }
}

// The numbers below a count.
fn up_to(count: u64) -> Option<(u64, u64)> {
    Some((0, count.checked_sub(1)?))
}

// How many words a table has that is known by one number.
fn words_of(limits: &HelperLimits, table: Kind) -> Option<u64> {
    let number = usize::try_from(table.known()?).ok()?;
    let length = limits.table_lengths.as_slice().get(number)?;
    Some(u64::from(*length))
}

// Whether an argument is as it has to be, as far as registers tell.
fn is_fit(known: &Sketch, limits: &HelperLimits, asked: ArgKind, kind: Kind) -> bool {
    match asked {
        ArgKind::HeldFreeze => is_sure(known, kind),
        ArgKind::Word => kind.is_number(),
        ArgKind::Room { bytes } => has_room(kind, bytes),
        ArgKind::Bytes => has_room(kind, length(known.kind(Reg::R2))),
        ArgKind::Table if kind.known().is_none() => false,
        _ => match range(limits, known, asked) {
            Some((least, most)) => kind.lies_within(least, most),
            None => false,
        },
    }
}

// Whether so many bytes lie in a live frame, from an address on.
fn has_room(kind: Kind, bytes: u64) -> bool {
    match kind {
        Kind::Address(Region::Frame(_), offsets) => {
            u64::from(offsets.most).saturating_add(bytes) <= FRAME_BYTES
        }
        _ => false,
    }
}

// How many bytes a number that is fit to be their number may say; of another one it is 1.
fn length(kind: Kind) -> u64 {
    match kind {
        Kind::Number(number) if number.most() <= MOST_TRACED => number.most(),
        _ => 1,
    }
}

fn is_sure(known: &Sketch, kind: Kind) -> bool {
    match kind {
        Kind::Freeze(name) => known.held.certainty(name) == Some(Certainty::Sure),
        _ => false,
    }
}
