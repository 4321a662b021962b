// The numbers under keys, each with its range. It relies on `manifest_form` for what stands under a key.

ghost use Rattle.std.specs.Prelude.{◌≡◌, ◌≤◌, pos, IfOk, IfSome, Some, [], ◌∷◌, map};
ghost use Rattle.toml.specs.Data.{as_integer};
ghost use Rattle.toml.specs.View.{view};
ghost use Rattle.manifest_form.specs.Document.{elements_at};
ghost use Rattle.trial_disks.specs.Said.{AreEnds, IsGiven, IsNumber, IsNumberOr, IsSpanGiven};

use crate::data::Span;
use crate::fault::{Form, KeyFault, Wrong, fault_of};
use manifest_form::document::{array, elements, has, has_keys, integer};
use toml::Value;

/// Which numbers may stand under a key.
#[derive(Clone, Copy)]
pub(crate) struct Bounds {
    pub(crate) least: u64,
    pub(crate) most: u64,
}

/// The numbers of 32 bits, as which also times are told.
const SHORT: Bounds = Bounds {
    least: 0,
    most: 4_294_967_295,
};

/// What stands under a key of a number, and is none.
const NO_NUMBER: Wrong = Wrong::Form(Form::Number);

/// The number under a key, if one is there.
pub(crate) fn given(
    value: &Value,
    key: &'static str,
    bounds: Bounds,
) -> Result<Option<u64>, KeyFault<'static>>
    ensures given { IfOk result (IsGiven key.now (view value.now)) }
    ensures least { IfOk result (λ number. IfSome number (λ number. bounds.least ≤ number)) }
{
    if !has(value, key) {
        return Ok(None);
    }
    let Some(number) = integer(value, key) else {
        return Err(fault_of(NO_NUMBER, key));
    };
    match within(number, key, bounds) {
        Ok(number) => Ok(Some(number)),
        Err(fault) => Err(fault),
    }
}

/// The number under a key; if none is there, that one.
pub(crate) fn number_or(
    value: &Value,
    key: &'static str,
    bounds: Bounds,
    other: u64,
) -> Result<u64, KeyFault<'static>>
    ensures said { IfOk result (IsNumberOr key.now other (view value.now)) }
{
    let number = given(value, key, bounds)?;
    Ok(number.unwrap_or(other))
}

/// The number of at most 32 bits under a key; if none is there, that one.
pub(crate) fn short_number_or(
    value: &Value,
    key: &'static str,
    other: u32,
) -> Result<u32, KeyFault<'static>>
    ensures said { IfOk result (IsNumberOr key.now other (view value.now)) }
{
    if !has(value, key) {
        return Ok(other);
    }
    let Some(number) = integer(value, key) else {
        return Err(fault_of(NO_NUMBER, key));
    };
    match within_short(number, key) {
        Ok(number) => Ok(number),
        Err(fault) => Err(fault),
    }
}

// The number under that key, if it has at most 32 bits.
fn within_short(number: i64, key: &'static str) -> Result<u32, KeyFault<'static>>
    ensures { IfOk result (λ same. number ≡ pos same) }
{
    match u32::try_from(number) {
        Ok(number) => Ok(number),
        _ => Err(outside(number, key, SHORT)),
    }
}

/// The number under a key, where one has to be.
pub(crate) fn number(
    value: &Value,
    key: &'static str,
    bounds: Bounds,
) -> Result<u64, KeyFault<'static>>
    ensures said { IfOk result (IsNumber key.now (view value.now)) }
    ensures least { IfOk result (λ number. bounds.least ≤ number) }
{
    match given(value, key, bounds)? {
        Some(number) => Ok(number),
        None => Err(fault_of(Wrong::Missing, key)),
    }
}

// The number under that key, if it is within the bounds.
fn within(number: i64, key: &'static str, bounds: Bounds) -> Result<u64, KeyFault<'static>>
    ensures same { IfOk result (λ same. number ≡ pos same) }
    ensures least { IfOk result (λ same. bounds.least ≤ same) }
{
    match u64::try_from(number) {
        Ok(number) if bounds.least <= number && number <= bounds.most => Ok(number),
        _ => Err(outside(number, key, bounds)),
    }
}

fn outside(number: i64, key: &'static str, bounds: Bounds) -> KeyFault<'static> {
    fault_of(Wrong::Outside { number, bounds }, key)
}

/// How long something takes, if that is said: a number, or the least and the greatest.
pub(crate) fn span(value: &Value, key: &'static str) -> Result<Option<Span>, KeyFault<'static>>
    ensures said { IfOk result (IsSpanGiven key.now (view value.now)) }
{
    if !has(value, key) {
        return Ok(None);
    }
    let (least, most) = match ends(value, key) {
        Some(ends) => ends,
        None => return Err(fault_of(Wrong::Form(Form::Span), key)),
    };
    let least = within(least, key, SHORT)?;
    let most = within(most, key, SHORT)?;
    if least <= most {
        Ok(Some(Span { least, most }))
    } else {
        Err(fault_of(Wrong::Turned { least, most }, key))
    }
}

// The two ends, which are one number or two.
fn ends(value: &Value, key: &str) -> Option<(i64, i64)>
    ensures { IfSome result (λ ends. AreEnds key.now (view value.now) ends.0 ends.1) }
{
    match integer(value, key) {
        Some(number) => Some((number, number)),
        None => both(elements(value, key)),
    }
}

fn both(elements: &[Value]) -> Option<(i64, i64)>
    ensures { IfSome result (λ ends. map as_integer (map view elements.now) ≡ Some ends.0 ∷ Some ends.1 ∷ []) }
{
    match elements {
        [least, most] => Some((least.as_integer()?, most.as_integer()?)),
        _ => None,
    }
}

/// The elements of the array under a key, if there is an array.
pub(crate) fn tables<'a>(value: &'a Value, key: &str) -> Option<&'a [Value]>
    ensures { IfSome result (λ tables. map view tables.now ≡ elements_at key.now (view value.now)) }
{
    match array(value, key) {
        Some(array) => Some(array.as_slice()),
        None => None,
    }
}

/// Whether a table has these keys, and no other but those that may be; of what is no table, that it is none.
pub(crate) fn check_keys<'a>(
    value: &'a Value,
    required: &[&'static str],
    optional: &[&'static str],
) -> Result<(), KeyFault<'a>> {
    let Value::Table(_) = value else {
        return Err(fault_of(Wrong::Form(Form::Table), ""));
    };
    if has_keys(value, required, optional) {
        return Ok(());
    }
    for key in required {
        if !has(value, key) {
            return Err(fault_of(Wrong::Missing, key));
        }
    }
    Err(fault_of(Wrong::Unknown, unknown(value, required, optional)))
}

// The first key of a table that is none of these.
fn unknown<'a>(value: &'a Value, required: &[&'static str], optional: &[&'static str]) -> &'a str {
    let Value::Table(table) = value else {
        return "";
    };
    for key in table.keys() {
        if !is_among(required, key.as_str()) && !is_among(optional, key.as_str()) {
            return key.as_str();
        }
    }
    ""
}

fn is_among(names: &[&'static str], name: &str) -> bool {
    names.iter().any(|other| *other == name)
}
