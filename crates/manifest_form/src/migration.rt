// The table of a manifest of version 1 or 2, written anew as one of a later version. It relies on `document` for what stands under a key.

ghost use Rattle.std.specs.Prelude.{◌≡◌, None, Some, pos, true, map, option_map, option_copied, IfOk, OnOk};
ghost use Rattle.toml.specs.Data.{array, no_members, table};
ghost use Rattle.toml.specs.View.{view, array_view, table_view};
ghost use Rattle.manifest_form.specs.Entries.{version_of};
ghost use Rattle.manifest_form.specs.Faults.{form_fault};
ghost use Rattle.manifest_form.specs.Migration.{IsLaterForm, comes_after, controllers_kept, entry_kept, length_kept, migrated, number_of_version, program_kept, put, put_entries, put_integer, put_source, put_text, queue_kept};

use crate::document::{array, integer, text};
use crate::entries::controller_written;
use crate::form::controllers;
use std::alloc::{AllocError, Global};
use toml::value::Array;
use toml::{Table, Value};
use world_calls::Version;

/// Which of the arrays of a manifest an entry is of.
#[derive(Clone, Copy)]
pub enum Kind {
    Queue,
    Table,
    Program,
}

/// The table of a manifest of version 1 or 2 whose form has no fault, as one of a later version: one of version 1 gets one controller,
/// under which all queues are, and all else is as it is.
pub fn migrated(alloc: Global, manifest: &Value, to: Version) -> Result<Table, AllocError>
    requires lawful { form_fault (view manifest.now) ≡ None }
    requires later { comes_after (version_of (view manifest.now)) to ≡ true }
    // It is this table, member by member,
    ensures members { IfOk result (λ table. table_view table ≡ migrated to (view manifest.now)) }
    // and a manifest without a fault of its form, which says the same in the later version.
    ensures says { IfOk result (λ table. IsLaterForm (view manifest.now) to (table_view table)) }
{
    let controllers = controllers(manifest);
    let mut table = empty(alloc);
    put_integer(alloc, &mut table, "version", number_of(to))?;
    put_integer(
        alloc,
        &mut table,
        "controllers",
        controllers_kept(controllers, integer(manifest, "controllers")),
    )?;
    put_entries(
        alloc,
        &mut table,
        controllers,
        "queue",
        array(manifest, "queue"),
        Kind::Queue,
    )?;
    put_entries(
        alloc,
        &mut table,
        controllers,
        "table",
        array(manifest, "table"),
        Kind::Table,
    )?;
    put_entries(
        alloc,
        &mut table,
        controllers,
        "program",
        array(manifest, "program"),
        Kind::Program,
    )?;
    Ok(table)
}

// The number of a version, as a manifest writes it.
fn number_of(version: Version) -> Option<i64>
    ensures { result ≡ Some (pos (number_of_version version)) }
{
    match version {
        Version::One => Some(1),
        Version::Two => Some(2),
        Version::Three => Some(3),
    }
}

// How many controllers are written: one, if there were none.
fn controllers_kept(controllers: Option<u8>, written: Option<i64>) -> Option<i64>
    ensures { result ≡ controllers_kept controllers written }
{
    match controllers {
        None => Some(1),
        Some(_) => written,
    }
}

// Entries under their key, if there are such.
fn put_entries(
    alloc: Global,
    table: &mut Table,
    controllers: Option<u8>,
    key: &str,
    entries: Option<&Array>,
    kind: Kind,
) -> Result<(), AllocError>
    ensures { OnOk result (table_view table.new ≡ put_entries controllers kind key.now (option_map (λ entries. array_view entries.now) entries.entry) (table_view table.old)) }
{
    let Some(entries) = entries else {
        return Ok(());
    };
    let value = as_array(entries_kept(alloc, entries, controllers, kind)?);
    put(alloc, table, key, value)
}

fn entries_kept(
    alloc: Global,
    entries: &[Value],
    controllers: Option<u8>,
    kind: Kind,
) -> Result<Array, AllocError>
    ensures { IfOk result (λ array. map view array.items ≡ map (entry_kept controllers kind) (map view entries.now)) }
{
    let mut all = Vec::new(alloc);
    for entry in entries {
        all.push(entry_kept(alloc, entry, controllers, kind)?)?;
    }
    Ok(all)
}

fn entry_kept(
    alloc: Global,
    entry: &Value,
    controllers: Option<u8>,
    kind: Kind,
) -> Result<Value, AllocError>
    ensures { IfOk result (λ value. view value ≡ entry_kept controllers kind (view entry.now)) }
{
    match kind {
        Kind::Queue => Ok(as_table(queue_kept(alloc, entry, controllers)?)),
        Kind::Table => Ok(as_table(length_kept(alloc, entry)?)),
        Kind::Program => Ok(as_table(program_kept(alloc, entry)?)),
    }
}

fn as_array(items: Array) -> Value
    ensures { view result ≡ array (array_view items) }
{
    Value::Array(items)
}

fn as_table(members: Table) -> Value
    ensures { view result ≡ table (table_view members) }
{
    Value::Table(members)
}

fn queue_kept(alloc: Global, queue: &Value, controllers: Option<u8>) -> Result<Table, AllocError>
    ensures { IfOk result (λ table. table_view table ≡ queue_kept controllers (view queue.now)) }
{
    let mut table = empty(alloc);
    put_integer(alloc, &mut table, "openings", integer(queue, "openings"))?;
    put_integer(
        alloc,
        &mut table,
        "controller",
        controller_written(queue, controllers),
    )?;
    put_text(alloc, &mut table, "program", text(queue, "program"))?;
    Ok(table)
}

fn length_kept(alloc: Global, entry: &Value) -> Result<Table, AllocError>
    ensures { IfOk result (λ table. table_view table ≡ length_kept (view entry.now)) }
{
    let mut table = empty(alloc);
    put_integer(alloc, &mut table, "length", integer(entry, "length"))?;
    Ok(table)
}

fn program_kept(alloc: Global, program: &Value) -> Result<Table, AllocError>
    ensures { IfOk result (λ table. table_view table ≡ program_kept (view program.now)) }
{
    let mut table = empty(alloc);
    put_text(alloc, &mut table, "name", text(program, "name"))?;
    put_source(alloc, &mut table, program)?;
    Ok(table)
}

// How the program is written.
fn put_source(alloc: Global, table: &mut Table, program: &Value) -> Result<(), AllocError>
    ensures { OnOk result (table_view table.new ≡ put_source (view program.now) (table_view table.old)) }
{
    match text(program, "asm") {
        Some(asm) => put_text(alloc, table, "asm", Some(asm)),
        None => put_text(alloc, table, "code", text(program, "code")),
    }
}

fn put_text(
    alloc: Global,
    table: &mut Table,
    key: &str,
    text: Option<&str>,
) -> Result<(), AllocError>
    ensures { OnOk result (table_view table.new ≡ put_text key.now (option_copied text.entry) (table_view table.old)) }
{
    match text {
        Some(text) => put(alloc, table, key, Value::string(alloc, text)?),
        None => Ok(()),
    }
}

fn put_integer(
    alloc: Global,
    table: &mut Table,
    key: &str,
    number: Option<i64>,
) -> Result<(), AllocError>
    ensures { OnOk result (table_view table.new ≡ put_integer key.now number (table_view table.old)) }
{
    match number {
        Some(number) => put(alloc, table, key, Value::Integer(number)),
        None => Ok(()),
    }
}

// The value under the key, whatever stood there.
fn put(alloc: Global, table: &mut Table, key: &str, value: Value) -> Result<(), AllocError>
    ensures { OnOk result (table_view table.new ≡ put key.now (view value) (table_view table.old)) }
{
    let key = String::from_str(alloc, key)?;
    drop(table.insert(key, value)?);
    Ok(())
}

fn empty(alloc: Global) -> Table
    ensures { table_view result ≡ no_members }
{
    Table::new(alloc)
}
