// Where on a path a freeze was given back that the path's last instruction is to give back again. It relies on `notes` for what was known
// of registers.

use crate::arguments::helper_of;
use crate::program::Told;
use crate::steps::mattering;
use bpf_insn::{AluOp, Insn, Operand, Reg, Width};
use check_register_kinds::{FreezeName, Kind};
use explain_path::{Path, written_by};
use helpers::Helper;

/// A freeze that was given back, the slot at which it was, and whether it was left to a timer there.
#[derive(Clone, Copy)]
pub struct GivenBack {
    pub name: FreezeName,
    pub slot: usize,
    pub is_timed: bool,
}

/// The freeze of which r1 is a copy at the last instruction of a path, if the path shows that it was given back before.
pub fn given_back(told: &Told<'_>, path: &Path) -> Option<GivenBack> {
    let name = origin(told, path)?;
    let before = path.slots.len().saturating_sub(1);
    for (check, slot) in path.checks.iter().zip(path.slots.iter()).take(before) {
        let insn = told.program.fetch(*slot)?;
        if is_release(insn) && told.notes.kinds(*check).first() == Some(&Kind::Freeze(name)) {
            return Some(GivenBack {
                name,
                slot: *slot,
                is_timed: matches!(helper_of(insn), Some(Helper::ReleaseAfter)),
            });
        }
    }
    None
}

/// Whether an instruction gives a freeze back, at once or after a time.
pub fn is_release(insn: Insn) -> bool {
    matches!(
        helper_of(insn),
        Some(Helper::Release | Helper::ReleaseAfter)
    )
}

// The freeze of which r1 is a copy at the path's last instruction, as it was known where it was one. The register that holds the copy is
// followed back through moves, within the function of that instruction.
fn origin(told: &Told<'_>, path: &Path) -> Option<FreezeName> {
    let end = path.slots.len().checked_sub(1)?;
    let depth = depth_at(told, path, end);
    let mut reg = Reg::R1;
    for back in 1..path.slots.len() {
        let place = end.saturating_sub(back);
        let check = path.checks.get(place)?;
        let insn = told.program.fetch(*path.slots.get(place)?)?;
        if depth_at(told, path, place) != depth {
            continue;
        }
        if written_by(insn) == Some(reg) {
            reg = moved_from(insn)?;
        }
        if let Some(Kind::Freeze(name)) = kind_at(told, *check, insn, reg) {
            return Some(name);
        }
    }
    None
}

/// How many functions were open at that place of a path.
pub fn depth_at(told: &Told<'_>, path: &Path, place: usize) -> usize {
    match path.checks.get(place) {
        Some(check) => match told.log().sightings().get(*check) {
            Some(sighting) => sighting.depth,
            None => 0,
        },
        None => 0,
    }
}

/// The register that a move copies whole.
pub fn moved_from(insn: Insn) -> Option<Reg> {
    match insn {
        Insn::Alu {
            width: Width::Bits64,
            op: AluOp::Mov,
            src: Operand::Register(reg),
            ..
        } => Some(reg),
        _ => None,
    }
}

// What was known of a register before an instruction, if that was noted.
fn kind_at(told: &Told<'_>, check: usize, insn: Insn, reg: Reg) -> Option<Kind> {
    let registers = mattering(insn);
    if !registers.has(reg) {
        return None;
    }
    let mut place = 0usize;
    for number in 0..reg.number() {
        if let Some(before) = Reg::from_number(number) {
            if registers.has(before) {
                place = place.saturating_add(1);
            }
        }
    }
    told.notes.kinds(check).get(place).copied()
}
