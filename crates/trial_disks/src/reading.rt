// A whole file of devices. It relies on `devices` for each of them, on `toml` for the text, and on
// `explain_layout` for its lines.

ghost use Rattle.std.specs.Prelude.{◌≡◌, ◌++◌, ◌∷◌, [], None, IfOk, IfErr, OnOk, codes, map};
ghost use Rattle.std.specs.List.{AllZip};
ghost use Rattle.toml.specs.Parse.{parse_document};
ghost use Rattle.toml.specs.View.{view};
ghost use Rattle.manifest_form.specs.Seen.{IfFault};
ghost use Rattle.trial_disks.specs.Codes.{code_of};
ghost use Rattle.trial_disks.specs.Said.{AreDisks, IsDevice, IsFrame, SaysDisks};

use crate::data::{Device, Disks, LAST_TIME};
use crate::devices::device;
use crate::failures::ANY;
use crate::fault::{DisksError, Form, KeyFault, Wrong, fault_of};
use crate::keys::{Bounds, check_keys, number, number_or, tables};
use base::OrMemory;
use explain_layout::line_at;
use std::alloc::{AllocError, Global};
use toml::Value;
use toml::de::Error;

const VERSIONS: Bounds = Bounds { least: 1, most: 1 };

const REQUESTS: Bounds = Bounds {
    least: 1,
    most: 10_000_000,
};

const SEEDS: Bounds = Bounds {
    least: 0,
    most: 9_223_372_036_854_775_807,
};

const LIMITS: Bounds = Bounds {
    least: 1,
    most: LAST_TIME,
};

/// What devices a text says, or its first fault.
pub fn read(alloc: Global, text: &str) -> Result<Disks, DisksError>
    ensures said { IfOk result (SaysDisks text.now) }
    ensures no_toml { parse_document text.now ≡ None → IfErr result (IfFault (λ fault. code_of fault.wrong ≡ codes "D1")) }
{
    match toml::table_from_str(alloc, text) {
        Ok(table) => read_document(alloc, &Value::Table(table)),
        Err(error) => Err(no_toml(alloc, text, &error)),
    }
}

// Where a text is no TOML, and why. An error that is nowhere is one for want of memory.
fn no_toml(alloc: Global, text: &str, error: &Error) -> DisksError
    ensures { IfFault (λ fault. code_of fault.wrong ≡ codes "D1") result }
{
    let Some(span) = error.span() else {
        return OrMemory::OutOfMemory;
    };
    let line = line_at(text, span.start);
    let before = line.text.get(..line.column).unwrap_or("").chars().count();
    let wrong = Wrong::Text {
        line: line.number as u64,
        column: before.saturating_add(1) as u64,
    };
    fault_of(wrong, error.message()).at(alloc, 0, 0)
}

fn read_document(alloc: Global, value: &Value) -> Result<Disks, DisksError>
    ensures said { IfOk result (AreDisks (view value.now)) }
{
    let mut disks = match alone(alloc, value) {
        Ok(disks) => disks,
        Err(fault) => return Err(fault.at(alloc, 0, 0)),
    };
    let Some(devices) = tables(value, "device") else {
        return Err(fault_of(Wrong::Form(Form::Devices), "device").at(alloc, 0, 0));
    };
    add_all(alloc, &mut disks.devices, devices)?;
    Ok(disks)
}

// What the document says beside its devices.
fn alone<'a>(alloc: Global, value: &'a Value) -> Result<Disks, KeyFault<'a>>
    ensures said { IfOk result (IsFrame (view value.now)) }
    ensures none { IfOk result (λ disks. disks.devices.items ≡ []) }
{
    check_keys(
        value,
        &["version", "seed", "requests", "device"],
        &["until", "limit"],
    )?;
    let _ = number(value, "version", VERSIONS)?;
    Ok(Disks {
        seed: number(value, "seed", SEEDS)?,
        requests: number(value, "requests", REQUESTS)?,
        until: number_or(value, "until", ANY, LAST_TIME)?,
        limit: number_or(value, "limit", LIMITS, 0)?,
        devices: Vec::new(alloc),
    })
}

// Adds the devices of these tables.
fn add_all(alloc: Global, devices: &mut Vec<Device>, values: &[Value]) -> Result<(), DisksError>
    requires none { devices.old.items ≡ [] }
    ensures said { OnOk result (AllZip IsDevice (map view values.now) devices.new.items) }
{
    for place in 0..values.len() {
        let device = device(alloc, &values[place], place + 1)?;
        add(devices, device)?;
    }
    Ok(())
}

// Adds a device.
fn add(devices: &mut Vec<Device>, device: Device) -> Result<(), AllocError>
    ensures { OnOk result (devices.new.items ≡ devices.old.items ++ device ∷ []) }
{
    devices.push(device)?;
    Ok(())
}
