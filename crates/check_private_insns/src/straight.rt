// The instructions after which a machine goes on at the next one, but for helper calls. It relies on
// `check_register_kinds` for what is computed, on `operands` for registers, and on `memory` for loads and stores.

ghost use Rattle.std.specs.Prelude.{◌≡◌, true, ◌⊎◌, IfOk, IsOkAnd, length, IfSome, Some};
ghost use Rattle.std.specs.Int.{byte_len};
ghost use Rattle.bpf_insn.specs.declared.insn.Insn.TheVariants.{Alu, InPlace, SignExtend, LoadImmediate, Load, Store};
ghost use Rattle.bpf_semantics.specs.Memory.{load_width, store_width};
ghost use Rattle.bpf_words.specs.Words.{reads_dst};
ghost use Rattle.check_description.specs.Description.{kind_at};
ghost use Rattle.check_private_insns.specs.Enough.{EnoughToCompute, IsNumberOperand, LeavesComputed, LeavesNumber, LeavesStored, LiesInContext, LiesInFrame, LiesWritten};
ghost use Rattle.check_private_insns.specs.GoesOn.{GoesOn, ReadsUnwritten};
ghost use Rattle.check_register_kinds.specs.Kinds.{IsNumber};

use crate::memory::{loaded, read_place, store};
use crate::operands::{operand, set};
use base::OrMemory;
use bpf_insn::{AluOp, InPlaceOp, LoadForm, Operand, Reg, SignExtension, StoreSize, Width};
use check_description::{Description, Loaded};
use check_register_kinds::{Cause, Kind, changed, computed, extended};
use stack_domain::NumberPlace;

/// Arithmetic on a register and an operand.
pub fn compute(
    description: &mut Description,
    width: Width,
    op: AluOp,
    dst: Reg,
    src: Operand,
) -> Result<(), Cause>
    ensures goes { IfOk result (λ _. GoesOn (Alu width op dst src) description.old description.new) }
    ensures leaves { EnoughToCompute description.old width op dst src → IsOkAnd result (λ _. LeavesComputed description.old width op dst src description.new) }
    ensures unwritten { ReadsUnwritten description.old src → result ≡ Err Cause.UnwrittenRegister }
    ensures unwritten_first { reads_dst op ≡ true → kind_at description.old dst ≡ Kind.Unwritten → result ≡ Err Cause.UnwrittenRegister }
    ensures depth { IfOk result (λ _. length description.new.stack ≡ length description.old.stack) }
{
    let kind = computed(width, op, description.kind(dst), operand(description, src))?;
    set(description, dst, kind);
    Ok(())
}

/// A register is changed in its place.
pub fn change(description: &mut Description, op: InPlaceOp, dst: Reg) -> Result<(), Cause>
    ensures goes { IfOk result (λ _. GoesOn (InPlace op dst) description.old description.new) }
    ensures leaves { IsNumber (kind_at description.old dst) → IsOkAnd result (λ _. LeavesNumber dst description.old description.new) }
    ensures unwritten { kind_at description.old dst ≡ Kind.Unwritten → result ≡ Err Cause.UnwrittenRegister }
    ensures depth { IfOk result (λ _. length description.new.stack ≡ length description.old.stack) }
{
    let kind = changed(op, description.kind(dst))?;
    set(description, dst, kind);
    Ok(())
}

/// The low bits of a register are extended by their sign.
pub fn extend(
    description: &mut Description,
    extension: SignExtension,
    dst: Reg,
    src: Reg,
) -> Result<(), Cause>
    ensures goes { IfOk result (λ _. GoesOn (SignExtend extension dst src) description.old description.new) }
    ensures leaves { IsNumber (kind_at description.old src) → IsOkAnd result (λ _. LeavesNumber dst description.old description.new) }
    ensures unwritten { kind_at description.old src ≡ Kind.Unwritten → result ≡ Err Cause.UnwrittenRegister }
    ensures depth { IfOk result (λ _. length description.new.stack ≡ length description.old.stack) }
{
    let kind = extended(extension, description.kind(src))?;
    set(description, dst, kind);
    Ok(())
}

/// A register becomes a constant.
pub fn load_immediate(description: &mut Description, dst: Reg, value: u64)
    ensures goes { GoesOn (LoadImmediate dst value) description.old description.new }
    ensures leaves { LeavesNumber dst description.old description.new }
    ensures depth { length description.new.stack ≡ length description.old.stack }
{
    set(description, dst, Kind::exactly(value));
}

/// A register becomes what stands in memory.
pub fn load(
    description: &mut Description,
    form: LoadForm,
    dst: Reg,
    src: Reg,
    offset: i16,
) -> Result<(), Cause>
    ensures goes { IfOk result (λ _. GoesOn (Load form dst src offset) description.old description.new) }
    ensures leaves { (LiesInContext description.old src offset (byte_len (load_width form)) ⊎ LiesWritten description.old src offset (byte_len (load_width form))) → IsOkAnd result (λ _. LeavesNumber dst description.old description.new) }
    ensures depth { IfOk result (λ _. length description.new.stack ≡ length description.old.stack) }
{
    let kind = loaded(description, form, src, offset)?;
    let place = read_place(description, form, src, offset);
    set(description, dst, kind);
    description.loaded = loaded_from(dst, place);
    Ok(())
}

// What is known of a register that was loaded from there.
fn loaded_from(reg: Reg, place: Option<NumberPlace>) -> Option<Loaded>
    ensures { IfSome result (λ loaded. (loaded.reg ≡ reg) × (place ≡ Some loaded.place)) }
{
    match place {
        Some(place) => Some(Loaded { reg, place }),
        None => None,
    }
}

/// An operand is stored.
pub fn store_operand(
    description: &mut Description,
    size: StoreSize,
    dst: Reg,
    src: Operand,
    offset: i16,
) -> Result<(), OrMemory<Cause>>
    ensures goes { IfOk result (λ _. GoesOn (Store size dst src offset) description.old description.new) }
    ensures leaves { (IsNumberOperand description.old src × LiesInFrame description.old dst offset (byte_len (store_width size))) → IsOkAnd result (λ _. LeavesStored description.old dst offset (byte_len (store_width size)) description.new) }
    ensures depth { IfOk result (λ _. length description.new.stack ≡ length description.old.stack) }
{
    let word = operand(description, src);
    store(description, size, dst, offset, word)
}
