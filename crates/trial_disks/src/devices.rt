// One device, read from its table. It relies on `failures` for how it fails.

ghost use Rattle.std.specs.Prelude.{◌≡◌, ◌++◌, ◌∷◌, [], IfOk, OnOk, map};
ghost use Rattle.std.specs.List.{AllZip};
ghost use Rattle.toml.specs.View.{view};
ghost use Rattle.trial_disks.specs.Said.{IsAlone, IsDevice, IsFailure};

use crate::data::{Device, Failure};
use crate::failures::failure;
use crate::fault::{DisksError, Form, KeyFault, Wrong, fault_of};
use crate::keys::{Bounds, check_keys, given, number, number_or, short_number_or, span, tables};
use manifest_form::document::has;
use std::alloc::{AllocError, Global};
use toml::Value;

const QUEUES: Bounds = Bounds { least: 0, most: 63 };

const DEPTHS: Bounds = Bounds {
    least: 1,
    most: 256,
};

const ADDRESSES: Bounds = Bounds {
    least: 1,
    most: 1 << 62,
};

/// The device of that number, from 1.
pub(crate) fn device(alloc: Global, value: &Value, number: usize) -> Result<Device, DisksError>
    ensures said { IfOk result (IsDevice (view value.now)) }
{
    let mut device = match alone(alloc, value) {
        Ok(device) => device,
        Err(fault) => return Err(fault.at(alloc, number, 0)),
    };
    if !has(value, "failure") {
        return Ok(device);
    }
    let Some(failures) = tables(value, "failure") else {
        let fault = fault_of(Wrong::Form(Form::Failures), "failure");
        return Err(fault.at(alloc, number, 0));
    };
    add_all(alloc, &mut device.failures, failures, number)?;
    Ok(device)
}

// A device without its failures.
fn alone<'a>(alloc: Global, value: &'a Value) -> Result<Device, KeyFault<'a>>
    ensures said { IfOk result (IsAlone (view value.now)) }
    ensures none { IfOk result (λ device. device.failures.items ≡ []) }
{
    check_keys(
        value,
        &["depth", "latency"],
        &["queue", "retries", "addresses", "failure"],
    )?;
    let latency = match span(value, "latency")? {
        Some(latency) => latency,
        None => return Err(fault_of(Wrong::Missing, "latency")),
    };
    Ok(Device {
        queue: given(value, "queue", QUEUES)?,
        depth: number(value, "depth", DEPTHS)?,
        retries: short_number_or(value, "retries", 5)?,
        latency,
        addresses: number_or(value, "addresses", ADDRESSES, 1_000_000)?,
        failures: Vec::new(alloc),
    })
}

// Adds the failures of these tables.
fn add_all(
    alloc: Global,
    failures: &mut Vec<Failure>,
    values: &[Value],
    device: usize,
) -> Result<(), DisksError>
    requires none { failures.old.items ≡ [] }
    ensures said { OnOk result (AllZip IsFailure (map view values.now) failures.new.items) }
{
    for place in 0..values.len() {
        match failure(&values[place]) {
            Ok(failure) => add(failures, failure)?,
            Err(fault) => return Err(fault.at(alloc, device, place + 1)),
        }
    }
    Ok(())
}

// Adds a failure.
fn add(failures: &mut Vec<Failure>, failure: Failure) -> Result<(), AllocError>
    ensures { OnOk result (failures.new.items ≡ failures.old.items ++ failure ∷ []) }
{
    failures.push(failure)?;
    Ok(())
}
