// A program to its one text without labels.

ghost use Rattle.std.specs.Prelude.{◌≡◌, ◌<◌, ◌++◌, OnOk, IfOk, string_bytes, codes};
ghost use Rattle.bpf_asm.specs.Assembly.{Says};
ghost use Rattle.bpf_asm.specs.Canon.{register_text, operand_text, signed_text, digit_text, comma_text, word_text, address_text, operands_text, mnemonic_for, insn_text, canon, HasOperand, HasNumbers};

use crate::mnemonic::Mnemonic;
use bpf_insn::{Callee, Distance, Insn, Operand, Program, Reg};
use std::alloc::{AllocError, Global};
use std::fmt::Write;

// A register.
fn put_register(text: &mut String, reg: Reg) -> Result<(), AllocError>
    ensures { OnOk result (string_bytes text.new ≡ string_bytes text.old ++ register_text reg) }
{
    let number = reg.number();
    write!(text, "r{number}")
}

// A register or a constant.
fn put_operand(text: &mut String, operand: Operand) -> Result<(), AllocError>
    ensures printed { OnOk result (string_bytes text.new ≡ string_bytes text.old ++ operand_text operand) }
    ensures numbers { HasOperand operand }
{
    match operand {
        Operand::Immediate(value) => write!(text, "{value}"),
        Operand::Register(reg) => put_register(text, reg),
    }
}

// A number with its sign.
fn put_signed(text: &mut String, value: i32) -> Result<(), AllocError>
    ensures { OnOk result (string_bytes text.new ≡ string_bytes text.old ++ signed_text value) }
{
    if value >= 0 {
        write!(text, "+{value}")
    } else {
        write!(text, "{value}")
    }
}

// `[rN+N]`.
#[tactic(auto, unfolding(crate::specs::Canon::address_text))]
fn put_address(text: &mut String, base: Reg, offset: i16) -> Result<(), AllocError>
    ensures { OnOk result (string_bytes text.new ≡ string_bytes text.old ++ address_text base offset) }
{
    text.push_str("[")?;
    put_register(text, base)?;
    put_signed(text, i32::from(offset))?;
    text.push_str("]")
}

// A digit of base 16.
fn digit_of(digit: u8) -> char
    requires { digit < 16 }
    ensures { result ≡ digit_text digit }
{
    if digit < 10 {
        char::from(b'0' + digit)
    } else {
        char::from(b'a' + (digit - 10))
    }
}

// 16 digits of base 16.
#[tactic(auto, unfolding(crate::specs::Canon::word_text))]
fn put_word(text: &mut String, value: u64) -> Result<(), AllocError>
    ensures { OnOk result (string_bytes text.new ≡ string_bytes text.old ++ word_text value) }
{
    text.push_str("0x")?;
    for byte in value.to_be_bytes() {
        text.push(digit_of(byte / 16))?;
        text.push(digit_of(byte % 16))?;
    }
    Ok(())
}

// ` rD`
fn put_dst(text: &mut String, dst: Reg) -> Result<(), AllocError>
    ensures { OnOk result (string_bytes text.new ≡ string_bytes text.old ++ (codes " " ++ register_text dst)) }
{
    text.push_str(" ")?;
    put_register(text, dst)
}

// ` rD, `
fn put_dst_comma(text: &mut String, dst: Reg) -> Result<(), AllocError>
    ensures { OnOk result (string_bytes text.new ≡ string_bytes text.old ++ (codes " " ++ register_text dst ++ comma_text)) }
{
    put_dst(text, dst)?;
    text.push_str(", ")
}

// What follows the name.
fn put_operands(text: &mut String, insn: Insn) -> Result<(), AllocError>
    ensures printed { OnOk result (string_bytes text.new ≡ string_bytes text.old ++ operands_text insn) }
    ensures numbers { HasNumbers insn }
{
    match insn {
        Insn::Alu { dst, src, .. } => {
            put_dst_comma(text, dst)?;
            put_operand(text, src)
        }
        Insn::InPlace { dst, .. } => put_dst(text, dst),
        Insn::SignExtend { dst, src, .. } => {
            put_dst_comma(text, dst)?;
            put_register(text, src)
        }
        Insn::JumpIf {
            dst,
            src,
            offset,
            ..
        } => {
            put_dst_comma(text, dst)?;
            put_operand(text, src)?;
            text.push_str(", ")?;
            put_signed(text, i32::from(offset))
        }
        Insn::Jump(distance) => {
            text.push_str(" ")?;
            put_signed(text, distance.slots())
        }
        Insn::LoadImmediate { dst, value } => {
            put_dst_comma(text, dst)?;
            put_word(text, value)
        }
        Insn::Load {
            dst,
            src,
            offset,
            ..
        } => {
            put_dst_comma(text, dst)?;
            put_address(text, src, offset)
        }
        Insn::Store {
            dst,
            src,
            offset,
            ..
        } => {
            text.push_str(" ")?;
            put_address(text, dst, offset)?;
            text.push_str(", ")?;
            put_operand(text, src)
        }
        Insn::Call(Callee::Helper(number)) => write!(text, " {number}"),
        Insn::Call(Callee::Local(distance)) => {
            text.push_str(" local ")?;
            put_signed(text, distance)
        }
        Insn::Exit => Ok(()),
    }
}

// The mnemonic of an instruction.
fn mnemonic_for(insn: Insn) -> Mnemonic
    ensures { result ≡ mnemonic_for insn }
{
    match insn {
        Insn::Alu { width, op, .. } => Mnemonic::Alu(width, op),
        Insn::InPlace { op, .. } => Mnemonic::InPlace(op),
        Insn::SignExtend { extension, .. } => Mnemonic::SignExtend(extension),
        Insn::JumpIf {
            width,
            condition,
            ..
        } => Mnemonic::JumpIf(width, condition),
        Insn::Jump(Distance::Near(_)) => Mnemonic::JumpNear,
        Insn::Jump(Distance::Far(_)) => Mnemonic::JumpFar,
        Insn::LoadImmediate { .. } => Mnemonic::LoadImmediate,
        Insn::Load { form, .. } => Mnemonic::Load(form),
        Insn::Store {
            size,
            src: Operand::Immediate(_),
            ..
        } => Mnemonic::StoreImmediate(size),
        Insn::Store {
            size,
            src: Operand::Register(_),
            ..
        } => Mnemonic::StoreRegister(size),
        Insn::Call(_) => Mnemonic::Call,
        Insn::Exit => Mnemonic::Exit,
    }
}

// The line of an instruction.
#[tactic(auto, unfolding(crate::specs::Canon::insn_text))]
fn put_insn(text: &mut String, insn: Insn) -> Result<(), AllocError>
    ensures printed { OnOk result (string_bytes text.new ≡ string_bytes text.old ++ insn_text insn) }
    ensures numbers { HasNumbers insn }
{
    text.push_str(mnemonic_for(insn).name())?;
    put_operands(text, insn)?;
    text.push_str("\n")
}

/// The text of a program: a line for each instruction, without labels. It says this program, so that it is assembled again to it.
#[tactic(auto, unfolding(crate::specs::Canon::canon))]
pub fn disassemble(alloc: Global, program: &Program) -> Result<String, AllocError>
    ensures printed { IfOk result (λ text. string_bytes text ≡ canon program.now) }
    ensures says { IfOk result (λ text. Says (string_bytes text) program.now) }
{
    let mut text = String::new(alloc);
    for place in 0..program.len() {
        // A second slot is part of the line of the first one.
        if let Some(insn) = program.fetch(place) {
            put_insn(&mut text, insn)?;
        }
    }
    Ok(text)
}
