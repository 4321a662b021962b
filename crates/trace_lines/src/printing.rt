// Prints fields: one function a kind, which puts the field after a text. It relies on `kind` and `value`, on `text`, and on `helpers`
// for what a call tells.

ghost use Rattle.std.specs.Prelude.{◌≡◌, ◌+◌, ◌<◌, ◌≤◌, Some, false, length};
ghost use Rattle.std.specs.Fmt.{digit_glyph};
ghost use Rattle.trace_lines.specs.Texts.{byte_text, bytes_text, code_text, field_text, finished_text, helper_text, instructions_text, long_number_text, named_text, number_text, sense_text, status_text, stop_text, traced_text};
ghost use Rattle.trace_lines.specs.Written.{IsPut, KeepsFront, Puts};

use crate::kind::Kind;
use crate::no_text::NoText;
use crate::text::{ROOM, Text};
use crate::value::{Stop, Value};
use ccb::CamStatus;
use helpers::{Helper, Tells};
use itoa::Buffer;

/// The most instructions of an advance.
pub(crate) const MOST_INSTRUCTIONS: u32 = 65536;

/// The greatest final code of a CCB.
pub(crate) const GREATEST_CODE: u8 = 63;

/// The most bytes of a field.
pub(crate) const MOST_BYTES: usize = 64;

/// How long a field may be: a number below 2^32, one below 2^64, a helper, bytes, and any field.
pub const NUMBER: usize = 10;

pub const LONG_NUMBER: usize = 20;

pub const HELPER: usize = 17;

pub const BYTES: usize = 128;

pub const FIELD: usize = 160;

impl Kind {
    /// Puts what a field of this kind holds after a text, unless it has no spelling of this kind.
    #[tactic(auto, unfolding(crate::specs::Texts::field_text))]
    pub fn print(self, value: Value, text: &mut Text) -> Result<(), NoText>
        requires room { length text.old + FIELD ≤ ROOM }
        ensures text { Puts (field_text self value) text.old result text.new }
        ensures front { KeepsFront text.old result text.new }
        ensures few { length text.new ≤ length text.old + FIELD }
    {
        match (self, value) {
            (Kind::Number, Value::Number(number)) => {
                print_number(number, text);
                Ok(())
            }
            (Kind::LongNumber, Value::LongNumber(number)) => {
                print_long_number(number, text);
                Ok(())
            }
            (Kind::Instructions, Value::Number(count)) => print_instructions(count, text),
            (Kind::Status, Value::Status(status)) => print_status(status, text),
            (Kind::Byte, Value::Byte(byte)) => {
                print_byte(byte, text);
                Ok(())
            }
            (Kind::Sense, Value::Bytes(bytes)) => print_sense(bytes.as_slice(), text),
            (Kind::Stop, Value::Stop(stop)) => print_stop(stop, text),
            (Kind::Class, Value::Number(number)) => {
                print_number(number, text);
                Ok(())
            }
            _ => Err(NoText),
        }
    }
}

/// A number below 2^32.
pub fn print_number(number: u32, text: &mut Text)
    requires room { length text.old + NUMBER ≤ ROOM }
    ensures text { IsPut (number_text number) text.old text.new }
    ensures few { length text.new ≤ length text.old + NUMBER }
{
    let mut digits = Buffer::new();
    text.put(digits.format(number).as_bytes());
}

/// A number below 2^64.
pub fn print_long_number(number: u64, text: &mut Text)
    requires room { length text.old + LONG_NUMBER ≤ ROOM }
    ensures text { IsPut (long_number_text number) text.old text.new }
    ensures few { length text.new ≤ length text.old + LONG_NUMBER }
{
    let mut digits = Buffer::new();
    text.put(digits.format(number).as_bytes());
}

fn print_instructions(count: u32, text: &mut Text) -> Result<(), NoText>
    requires room { length text.old + NUMBER ≤ ROOM }
    ensures text { Puts (instructions_text count) text.old result text.new }
    ensures front { KeepsFront text.old result text.new }
    ensures few { length text.new ≤ length text.old + NUMBER }
{
    if count == 0 || count > MOST_INSTRUCTIONS {
        return Err(NoText);
    }
    print_number(count, text);
    Ok(())
}

fn print_byte(byte: u8, text: &mut Text)
    requires room { length text.old + 2 ≤ ROOM }
    ensures text { IsPut (byte_text byte) text.old text.new }
    ensures few { length text.new ≤ length text.old + 2 }
{
    text.push(digit_of(byte / 16));
    text.push(digit_of(byte % 16));
}

// A digit of base 16.
fn digit_of(digit: u8) -> u8
    requires { digit < 16 }
    ensures { result ≡ digit_glyph false digit }
{
    if digit < 10 {
        b'0' + digit
    } else {
        b'a' + (digit - 10)
    }
}

fn print_status(status: CamStatus, text: &mut Text) -> Result<(), NoText>
    requires room { length text.old + 2 ≤ ROOM }
    ensures text { Puts (status_text status) text.old result text.new }
    ensures front { KeepsFront text.old result text.new }
    ensures few { length text.new ≤ length text.old + 2 }
{
    let code = status.code();
    if code == 0 {
        return Err(NoText);
    }
    print_byte(code, text);
    Ok(())
}

fn print_code(code: u8, text: &mut Text) -> Result<(), NoText>
    requires room { length text.old + 2 ≤ ROOM }
    ensures text { Puts (code_text code) text.old result text.new }
    ensures front { KeepsFront text.old result text.new }
    ensures few { length text.new ≤ length text.old + 2 }
{
    if code > GREATEST_CODE {
        return Err(NoText);
    }
    print_byte(code, text);
    Ok(())
}

// From 1 to 64 bytes.
fn print_bytes(bytes: &[u8], text: &mut Text) -> Result<(), NoText>
    requires room { length text.old + BYTES ≤ ROOM }
    ensures text { Puts (bytes_text bytes.now) text.old result text.new }
    ensures front { KeepsFront text.old result text.new }
    ensures few { length text.new ≤ length text.old + BYTES }
{
    if bytes.is_empty() || bytes.len() > MOST_BYTES {
        return Err(NoText);
    }
    for byte in bytes {
        print_byte(*byte, text);
    }
    Ok(())
}

fn print_sense(bytes: &[u8], text: &mut Text) -> Result<(), NoText>
    requires room { length text.old + BYTES ≤ ROOM }
    ensures text { Puts (sense_text bytes.now) text.old result text.new }
    ensures front { KeepsFront text.old result text.new }
    ensures few { length text.new ≤ length text.old + BYTES }
{
    if bytes.is_empty() {
        text.push(b'-');
        return Ok(());
    }
    print_bytes(bytes, text)
}

fn print_stop(stop: Stop, text: &mut Text) -> Result<(), NoText>
    requires room { length text.old + FIELD ≤ ROOM }
    ensures text { Puts (stop_text stop) text.old result text.new }
    ensures front { KeepsFront text.old result text.new }
    ensures few { length text.new ≤ length text.old + FIELD }
{
    match stop {
        Stop::Helper(helper) => print_named(helper, text),
        Stop::Bytes(helper, bytes) => print_traced(helper, bytes.as_slice(), text),
        Stop::Code(helper, code) => print_finished(helper, code, text),
        Stop::Exit => {
            text.put(b"exit");
            Ok(())
        }
    }
}

fn print_named(helper: Helper, text: &mut Text) -> Result<(), NoText>
    requires room { length text.old + FIELD ≤ ROOM }
    ensures text { Puts (named_text helper) text.old result text.new }
    ensures front { KeepsFront text.old result text.new }
    ensures few { length text.new ≤ length text.old + FIELD }
{
    match helper.row().tells {
        Tells::Name => {
            print_helper(helper, text);
            Ok(())
        }
        _ => Err(NoText),
    }
}

fn print_traced(helper: Helper, bytes: &[u8], text: &mut Text) -> Result<(), NoText>
    requires room { length text.old + FIELD ≤ ROOM }
    ensures text { Puts (traced_text helper bytes.now) text.old result text.new }
    ensures front { KeepsFront text.old result text.new }
    ensures few { length text.new ≤ length text.old + FIELD }
{
    match helper.row().tells {
        Tells::Bytes => {
            print_helper(helper, text);
            text.push(b' ');
            print_bytes(bytes, text)
        }
        _ => Err(NoText),
    }
}

fn print_finished(helper: Helper, code: u8, text: &mut Text) -> Result<(), NoText>
    requires room { length text.old + FIELD ≤ ROOM }
    ensures text { Puts (finished_text helper code) text.old result text.new }
    ensures front { KeepsFront text.old result text.new }
    ensures few { length text.new ≤ length text.old + FIELD }
{
    match helper.row().tells {
        Tells::Code => {
            print_helper(helper, text);
            text.push(b' ');
            print_code(code, text)
        }
        _ => Err(NoText),
    }
}

fn print_helper(helper: Helper, text: &mut Text)
    requires room { length text.old + HELPER ≤ ROOM }
    ensures text { IsPut (Some (helper_text helper)) text.old text.new }
    ensures few { length text.new ≤ length text.old + HELPER }
{
    text.put(b"helper ");
    print_number(u32::from(helper.number()), text);
}
