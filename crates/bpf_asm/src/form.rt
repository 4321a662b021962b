// Reads what follows each mnemonic, and makes the instruction. None is a line of another form; an error is the fault of a number or
// a label in a line of this form.

ghost use Rattle.std.specs.Prelude.{◌≡◌, Ok};
ghost use Rattle.bpf_insn.specs.declared.insn.Insn.TheVariants.{JumpIf, Store};
ghost use Rattle.bpf_insn.specs.declared.insn.Operand.TheVariants.{Immediate};
ghost use Rattle.bpf_asm.specs.Reading.{unless_faulty, offset};
ghost use Rattle.bpf_asm.specs.Given.{ReadsAs, Spares, SparesMade};
ghost use Rattle.bpf_asm.specs.Lexemes.{lexemes};
ghost use Rattle.bpf_asm.specs.Forms.{alu_in, in_place_in, sign_extend_in, jump_near_in, jump_far_in, compared_in, jump_if_in, helper_in, local_in, call_in, load_in, store_immediate_in, store_register_in, load_immediate_in, insn_in};
ghost use Rattle.bpf_asm.specs.Labels.{label_at};

use crate::fault::LineFault;
use crate::labels::Labels;
use crate::lexeme::first_lexeme;
use crate::mnemonic::Mnemonic;
use crate::reader::{
    imm, offset, read_address, read_end, read_immediate, read_mark, read_operand, read_register,
    read_target, read_word, read_written,
};
use bpf_insn::{
    AluOp, Callee, Condition, Distance, InPlaceOp, Insn, LoadForm, Operand, Reg, SignExtension,
    StoreSize, Width,
};

/// An instruction of its form, or the fault of a number or a label in it.
pub type Made = Result<Insn, LineFault>;

// `rD, rS` or `rD, N`.
#[tactic(auto, unfolding(crate::specs::Forms::alu_in))]
fn alu(width: Width, op: AluOp, line: &[u8]) -> Option<Made>
    ensures made { result ≡ alu_in width op (lexemes line.now) }
    ensures spares { Spares result }
{
    let (dst, rest) = read_written(line)?;
    let (src, rest) = read_operand(read_mark(rest, b',')?)?;
    read_end(rest)?;
    Some(src.map(|src| Insn::Alu {
        width,
        op,
        dst,
        src,
    }))
}

// `rD`.
#[tactic(auto, unfolding(crate::specs::Forms::in_place_in))]
fn in_place(op: InPlaceOp, line: &[u8]) -> Option<Made>
    ensures made { result ≡ in_place_in op (lexemes line.now) }
    ensures spares { Spares result }
{
    let (dst, rest) = read_written(line)?;
    read_end(rest)?;
    Some(Ok(Insn::InPlace { op, dst }))
}

// `rD, rS`.
#[tactic(auto, unfolding(crate::specs::Forms::sign_extend_in))]
fn sign_extend(extension: SignExtension, line: &[u8]) -> Option<Made>
    ensures made { result ≡ sign_extend_in extension (lexemes line.now) }
    ensures spares { Spares result }
{
    let (dst, rest) = read_written(line)?;
    let (src, rest) = read_register(read_mark(rest, b',')?)?;
    read_end(rest)?;
    Some(Ok(Insn::SignExtend {
        extension,
        dst,
        src,
    }))
}

// `T`, as an offset.
#[tactic(auto, unfolding(crate::specs::Forms::jump_near_in))]
fn jump_near(labels: &Labels, next: usize, line: &[u8]) -> Option<Made>
    ensures made { result ≡ jump_near_in (label_at labels.now) next (lexemes line.now) }
    ensures spares { Spares result }
{
    let (target, rest) = read_target(labels, next, line)?;
    read_end(rest)?;
    Some(offset(target).map(|distance| Insn::Jump(Distance::Near(distance))))
}

// `T`, as an imm.
#[tactic(auto, unfolding(crate::specs::Forms::jump_far_in))]
fn jump_far(labels: &Labels, next: usize, line: &[u8]) -> Option<Made>
    ensures made { result ≡ jump_far_in (label_at labels.now) next (lexemes line.now) }
    ensures spares { Spares result }
{
    let (target, rest) = read_target(labels, next, line)?;
    read_end(rest)?;
    Some(imm(target).map(|distance| Insn::Jump(Distance::Far(distance))))
}

// The fault of a jump is that of its operand, and else that of its target.
fn jump_of(
    width: Width,
    condition: Condition,
    dst: Reg,
    src: Result<Operand, LineFault>,
    target: Result<i128, LineFault>,
) -> Made
    ensures spares { SparesMade result }
    ensures made { result ≡ unless_faulty src (λ s. unless_faulty (offset target) (λ d. Ok (JumpIf width condition dst s d))) }
{
    Ok(Insn::JumpIf {
        width,
        condition,
        dst,
        src: src?,
        offset: offset(target)?,
    })
}

// `rD, rS` or `rD, N`, of which the register is only read.
#[tactic(auto, unfolding(crate::specs::Forms::compared_in))]
fn compared(line: &[u8]) -> Option<((Reg, Result<Operand, LineFault>), &[u8])>
    ensures { ReadsAs (λ x. (x.0, lexemes x.1.now)) result (compared_in (lexemes line.now)) }
{
    let (dst, rest) = read_register(line)?;
    let (src, rest) = read_operand(read_mark(rest, b',')?)?;
    Some(((dst, src), rest))
}

// `rD, rS, T` or `rD, N, T`.
#[tactic(auto, unfolding(crate::specs::Forms::jump_if_in))]
fn jump_if(
    labels: &Labels,
    next: usize,
    width: Width,
    condition: Condition,
    line: &[u8],
) -> Option<Made>
    ensures made { result ≡ jump_if_in (label_at labels.now) next width condition (lexemes line.now) }
    ensures spares { Spares result }
{
    let ((dst, src), rest) = compared(line)?;
    let (target, rest) = read_target(labels, next, read_mark(rest, b',')?)?;
    read_end(rest)?;
    Some(jump_of(width, condition, dst, src, target))
}

// `N`.
#[tactic(auto, unfolding(crate::specs::Forms::helper_in))]
fn helper(line: &[u8]) -> Option<Made>
    ensures made { result ≡ helper_in (lexemes line.now) }
    ensures spares { Spares result }
{
    let (number, rest) = read_immediate(line)?;
    read_end(rest)?;
    Some(number.map(|number| Insn::Call(Callee::Helper(number))))
}

// `T`, as an imm, after `local`.
#[tactic(auto, unfolding(crate::specs::Forms::local_in))]
fn local(labels: &Labels, next: usize, line: &[u8]) -> Option<Made>
    ensures made { result ≡ local_in (label_at labels.now) next (lexemes line.now) }
    ensures spares { Spares result }
{
    let (target, rest) = read_target(labels, next, line)?;
    read_end(rest)?;
    Some(imm(target).map(|distance| Insn::Call(Callee::Local(distance))))
}

// `N` or `local T`.
#[tactic(auto, unfolding(crate::specs::Forms::call_in))]
fn call(labels: &Labels, next: usize, line: &[u8]) -> Option<Made>
    ensures made { result ≡ call_in (label_at labels.now) next (lexemes line.now) }
    ensures spares { Spares result }
{
    let (word, rest) = first_lexeme(line)?;
    if word == b"local".as_slice() {
        local(labels, next, rest)
    } else {
        helper(line)
    }
}

// `rD, [rS+N]`.
#[tactic(auto, unfolding(crate::specs::Forms::load_in))]
fn load(form: LoadForm, line: &[u8]) -> Option<Made>
    ensures made { result ≡ load_in form (lexemes line.now) }
    ensures spares { Spares result }
{
    let (dst, rest) = read_written(line)?;
    let ((src, offset), rest) = read_address(read_mark(rest, b',')?)?;
    read_end(rest)?;
    Some(offset.map(|offset| Insn::Load {
        form,
        dst,
        src,
        offset,
    }))
}

// The fault of a store is that of its address, and else that of its constant.
fn store_of(
    size: StoreSize,
    dst: Reg,
    offset: Result<i16, LineFault>,
    value: Result<i32, LineFault>,
) -> Made
    ensures spares { SparesMade result }
    ensures made { result ≡ unless_faulty offset (λ o. unless_faulty value (λ v. Ok (Store size dst (Immediate v) o))) }
{
    Ok(Insn::Store {
        size,
        dst,
        offset: offset?,
        src: Operand::Immediate(value?),
    })
}

// `[rD+N], N`.
#[tactic(auto, unfolding(crate::specs::Forms::store_immediate_in))]
fn store_immediate(size: StoreSize, line: &[u8]) -> Option<Made>
    ensures made { result ≡ store_immediate_in size (lexemes line.now) }
    ensures spares { Spares result }
{
    let ((dst, offset), rest) = read_address(line)?;
    let (value, rest) = read_immediate(read_mark(rest, b',')?)?;
    read_end(rest)?;
    Some(store_of(size, dst, offset, value))
}

// `[rD+N], rS`.
#[tactic(auto, unfolding(crate::specs::Forms::store_register_in))]
fn store_register(size: StoreSize, line: &[u8]) -> Option<Made>
    ensures made { result ≡ store_register_in size (lexemes line.now) }
    ensures spares { Spares result }
{
    let ((dst, offset), rest) = read_address(line)?;
    let (src, rest) = read_register(read_mark(rest, b',')?)?;
    read_end(rest)?;
    let src = Operand::Register(src);
    Some(offset.map(|offset| Insn::Store {
        size,
        dst,
        src,
        offset,
    }))
}

// `rD, N`.
#[tactic(auto, unfolding(crate::specs::Forms::load_immediate_in))]
fn load_immediate(line: &[u8]) -> Option<Made>
    ensures made { result ≡ load_immediate_in (lexemes line.now) }
    ensures spares { Spares result }
{
    let (dst, rest) = read_written(line)?;
    let (value, rest) = read_word(read_mark(rest, b',')?)?;
    read_end(rest)?;
    Some(value.map(|value| Insn::LoadImmediate { dst, value }))
}

/// What follows a mnemonic, as the instruction that it makes. `next` is the slot after it.
pub fn read_insn(labels: &Labels, next: usize, mnemonic: Mnemonic, line: &[u8]) -> Option<Made>
    ensures made { result ≡ insn_in (label_at labels.now) next mnemonic (lexemes line.now) }
    ensures spares { Spares result }
{
    match mnemonic {
        Mnemonic::Alu(width, op) => alu(width, op, line),
        Mnemonic::InPlace(op) => in_place(op, line),
        Mnemonic::SignExtend(extension) => sign_extend(extension, line),
        Mnemonic::JumpNear => jump_near(labels, next, line),
        Mnemonic::JumpFar => jump_far(labels, next, line),
        Mnemonic::JumpIf(width, condition) => jump_if(labels, next, width, condition, line),
        Mnemonic::Call => call(labels, next, line),
        Mnemonic::Exit => {
            read_end(line)?;
            Some(Ok(Insn::Exit))
        }
        Mnemonic::Load(form) => load(form, line),
        Mnemonic::StoreImmediate(size) => store_immediate(size, line),
        Mnemonic::StoreRegister(size) => store_register(size, line),
        Mnemonic::LoadImmediate => load_immediate(line),
    }
}
