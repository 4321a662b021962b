// The entries of a manifest, each read once from its table. It relies on `document` for what stands under a key.

ghost use Rattle.std.specs.Prelude.{◌≡◌, Some, None, IfOk, IfErr, is_some, map, option_map};
ghost use Rattle.std.specs.List.{list_all};
ghost use Rattle.toml.specs.Data.{as_integer};
ghost use Rattle.std.specs.Result.{result_err};
ghost use Rattle.toml.specs.View.{array_view, view};
ghost use Rattle.manifest_form.specs.Document.{integer_at};
ghost use Rattle.manifest_form.specs.Entries.{are_written, up_to, below, controller_written, has_words, is_word, queue_of, length_of, program_of, source_of, table_by, table_of, word_at, word_in, words_in, words_written};
ghost use Rattle.manifest_form.specs.Faults.{are_integers, queue_fault, table_fault, program_fault, queue_has_keys, table_has_form, table_has_keys, words_have_form};
ghost use Rattle.manifest_form.specs.Seen.{queue_seen, program_seen, source_seen, table_seen, IfFault};

use crate::code;
use crate::document::{array, has, has_keys, integer, text};
use crate::form_fault::FormFault;
use base::OrMemory;
use engine_config::MAX_WORDS;
use std::alloc::{AllocError, Global};
use toml::Value;
use toml::value::Array;
use world_calls::Version;

/// Why an entry was not read: memory was refused, or its form is faulty.
pub type FormError = OrMemory<FormFault>;

/// A device queue: how many CCBs may be active at a time, 1 to 255, the number of its controller, which is 0 where there are
/// none, and the name of its program.
#[derive(Drop)]
pub struct QueueEntry<'a> {
    pub openings: u8,
    pub controller: u8,
    pub program: &'a str,
}

/// A table: how many words it has, 1 to 4096, and its first words, no more than that, as they are written. The rest are 0.
#[derive(Drop)]
pub struct TableEntry {
    pub length: u16,
    pub words: Vec<u64>,
}

/// How a program is written: as bytes, or as text for the assembler.
#[derive(Drop)]
pub enum Source<'a> {
    Code(Vec<u8>),
    Asm(&'a str),
}

/// A program, with its name.
#[derive(Drop)]
pub struct ProgramEntry<'a> {
    pub name: &'a str,
    pub source: Source<'a>,
}

/// A device queue, where there are so many controllers, or none.
pub fn queue(value: &Value, controllers: Option<u8>) -> Result<QueueEntry<'_>, FormFault>
    ensures says { IfOk result (λ queue. queue_of controllers (view value.now) ≡ Some (queue_seen queue)) }
    ensures fault { result_err result ≡ queue_fault controllers (view value.now) }
{
    if !queue_has_keys(value, controllers) {
        return Err(FormFault::Key);
    }
    let openings = integer(value, "openings").ok_or(FormFault::Form)?;
    let controller = controller_written(value, controllers).ok_or(FormFault::Form)?;
    let program = text(value, "program").ok_or(FormFault::Form)?;
    let openings = up_to_255(openings).ok_or(FormFault::Range)?;
    let controller = below(controllers.unwrap_or(1), controller).ok_or(FormFault::Range)?;
    Ok(QueueEntry {
        openings,
        controller,
        program,
    })
}

// A queue names its controller exactly where there are some.
fn queue_has_keys(value: &Value, controllers: Option<u8>) -> bool
    ensures { result ≡ queue_has_keys controllers (view value.now) }
{
    match controllers {
        None => has_keys(value, &["openings", "program"], &[]),
        Some(_) => has_keys(value, &["openings", "controller", "program"], &[]),
    }
}

// The controller that a queue names; 0 where there are none.
pub(crate) fn controller_written(value: &Value, controllers: Option<u8>) -> Option<i64>
    ensures { result ≡ controller_written controllers (view value.now) }
{
    match controllers {
        None => Some(0),
        Some(_) => integer(value, "controller"),
    }
}

/// A table, in a manifest that is judged by the rules of that version.
pub fn table(alloc: Global, version: Version, value: &Value) -> Result<TableEntry, FormError>
    ensures says { IfOk result (λ table. table_of version (view value.now) ≡ Some (table_seen table)) }
    ensures lawful { IfOk result (λ _. table_fault version (view value.now) ≡ None) }
    ensures fault { IfErr result (IfFault (λ fault. table_fault version (view value.now) ≡ Some fault)) }
{
    if !table_has_keys(version, value) {
        return Err(OrMemory::Fault(FormFault::Key));
    }
    if !table_has_form(version, value) {
        return Err(OrMemory::Fault(FormFault::Form));
    }
    let length = length_of(value);
    let words = words_written(alloc, version, value)?;
    match table_by(length, words) {
        Some(table) => Ok(table),
        None => Err(OrMemory::Fault(FormFault::Range)),
    }
}

// A table has first words only in the version that has them.
fn table_has_keys(version: Version, value: &Value) -> bool
    ensures { result ≡ table_has_keys version (view value.now) }
{
    if has_words(version) {
        has_keys(value, &["length"], &["words"])
    } else {
        has_keys(value, &["length"], &[])
    }
}

fn has_words(version: Version) -> bool
    ensures { result ≡ has_words version }
{
    match version {
        Version::One => false,
        Version::Two => false,
        Version::Three => true,
    }
}

// Whether a table's length is a number, and its first words are numbers.
fn table_has_form(version: Version, value: &Value) -> bool
    ensures { result ≡ table_has_form version (view value.now) }
{
    integer(value, "length").is_some() && words_have_form(version, value)
}

fn words_have_form(version: Version, value: &Value) -> bool
    ensures { result ≡ words_have_form version (view value.now) }
{
    !are_written(version, value) || are_integers(array(value, "words"))
}

// Whether a table has first words.
fn are_written(version: Version, value: &Value) -> bool
    ensures { result ≡ are_written version (view value.now) }
{
    has_words(version) && has(value, "words")
}

fn are_integers(array: Option<&Array>) -> bool
    ensures { result ≡ are_integers (option_map (λ array. array_view array.now) array.entry) }
{
    match array {
        Some(array) => all_integers(array.as_slice()),
        None => false,
    }
}

fn all_integers(values: &[Value]) -> bool
    ensures { result ≡ list_all (λ value. is_some (as_integer (view value))) values.now }
{
    values.iter().all(|value| is_integer(value))
}

fn is_integer(value: &Value) -> bool
    ensures { result ≡ is_some (as_integer (view value.now)) }
{
    value.as_integer().is_some()
}

// How many words a table has, if that is a number from 1 to 4096.
fn length_of(value: &Value) -> Option<u16>
    ensures { result ≡ length_of (view value.now) }
{
    up_to_4096(integer(value, "length")?)
}

// A table of that length, if it has room for its first words.
fn table_by(length: Option<u16>, words: Option<Vec<u64>>) -> Option<TableEntry>
    ensures { option_map table_seen result ≡ table_by length (option_map (λ words. words.items) words) }
{
    let length = length?;
    let words = words?;
    if words.len() > usize::from(length) {
        return None;
    }
    Some(TableEntry { length, words })
}

// The first words of a table; none if one of them is negative.
fn words_written(
    alloc: Global,
    version: Version,
    value: &Value,
) -> Result<Option<Vec<u64>>, AllocError>
    ensures { IfOk result (λ words. option_map (λ words. words.items) words ≡ words_written version (view value.now)) }
{
    if !are_written(version, value) {
        return Ok(Some(Vec::new(alloc)));
    }
    match array(value, "words") {
        Some(array) => words_in(alloc, array.as_slice()),
        None => Ok(None),
    }
}

fn words_in(alloc: Global, values: &[Value]) -> Result<Option<Vec<u64>>, AllocError>
    ensures { IfOk result (λ words. option_map (λ words. words.items) words ≡ words_in (map view values.now)) }
{
    if !are_words(values) {
        return Ok(None);
    }
    Ok(Some(all_words(alloc, values)?))
}

fn all_words(alloc: Global, values: &[Value]) -> Result<Vec<u64>, AllocError>
    ensures { IfOk result (λ words. words.items ≡ map word_at (map view values.now)) }
{
    let mut words = Vec::new(alloc);
    for value in values {
        words.push(word_at(value))?;
    }
    Ok(words)
}

fn are_words(values: &[Value]) -> bool
    ensures { result ≡ list_all (λ value. is_word (view value)) values.now }
{
    values.iter().all(|value| is_word(value))
}

fn is_word(value: &Value) -> bool
    ensures { result ≡ is_word (view value.now) }
{
    word_of(value).is_some()
}

fn word_at(value: &Value) -> u64
    ensures { result ≡ word_at (view value.now) }
{
    word_of(value).unwrap_or(0)
}

fn word_of(value: &Value) -> Option<u64>
    ensures { result ≡ word_in (as_integer (view value.now)) }
{
    word_in(value.as_integer()?)
}

fn word_in(number: i64) -> Option<u64>
    ensures { result ≡ word_in (Some number) }
{
    u64::try_from(number).ok()
}

/// A program. Its `code` is read here, and decoded later.
pub fn program(alloc: Global, value: &Value) -> Result<ProgramEntry<'_>, FormError>
    ensures says { IfOk result (λ program. program_of (view value.now) ≡ Some (program_seen program)) }
    ensures lawful { IfOk result (λ _. program_fault (view value.now) ≡ None) }
    ensures fault { IfErr result (IfFault (λ fault. program_fault (view value.now) ≡ Some fault)) }
{
    if !has_keys(value, &["name", "code"], &[]) && !has_keys(value, &["name", "asm"], &[]) {
        return Err(OrMemory::Fault(FormFault::Key));
    }
    let source = read_source(alloc, value)?;
    match (text(value, "name"), source) {
        (Some(name), Some(source)) => Ok(ProgramEntry { name, source }),
        _ => Err(OrMemory::Fault(FormFault::Form)),
    }
}

// How the program is written, if it is of the form.
#[tactic(auto, unfolding(crate::specs::Entries::source_of))]
fn read_source(alloc: Global, value: &Value) -> Result<Option<Source<'_>>, FormError>
    ensures source { IfOk result (λ source. option_map source_seen source ≡ source_of (view value.now)) }
    ensures memory { IfErr result (IfFault (λ _. ⊥)) }
{
    if let Some(text) = text(value, "asm") {
        return Ok(Some(Source::Asm(text)));
    }
    let Some(digits) = text(value, "code") else {
        return Ok(None);
    };
    match code::bytes(alloc, digits)? {
        Some(bytes) => Ok(Some(Source::Code(bytes))),
        None => Ok(None),
    }
}

fn below(bound: u8, number: i64) -> Option<u8>
    ensures { result ≡ below bound (Some number) }
{
    match u8::try_from(number) {
        Ok(number) if number < bound => Some(number),
        _ => None,
    }
}

fn up_to_255(number: i64) -> Option<u8>
    ensures { result ≡ up_to 255 (Some number) }
{
    match u8::try_from(number) {
        Ok(number) if 0 < number => Some(number),
        _ => None,
    }
}

fn up_to_4096(number: i64) -> Option<u16>
    ensures { result ≡ up_to 4096 (Some number) }
{
    match u16::try_from(number) {
        Ok(number) if 0 < number && number <= MAX_WORDS => Some(number),
        _ => None,
    }
}
