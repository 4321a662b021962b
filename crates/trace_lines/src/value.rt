// What the fields of a line hold. It relies on `ccb` and `helpers` for statuses and helpers, and on `base` for bytes.

ghost use Rattle.std.specs.Prelude.{◌≡◌, Some};
ghost use Rattle.trace_lines.specs.Values.{byte_in, bytes_in, long_number_at, long_number_in, number_at, number_in, status_in, stop_in};

use base::ShortBytes;
use ccb::CamStatus;
use helpers::Helper;

/// What a field holds.
#[derive(Clone, Copy)]
pub enum Value {
    Number(u32),
    LongNumber(u64),
    Status(CamStatus),
    Byte(u8),
    Bytes(ShortBytes),
    Stop(Stop),
}

/// Where a run stopped.
#[derive(Clone, Copy)]
pub enum Stop {
    /// A call of this helper, of which no more is told.
    Helper(Helper),
    /// A call of this helper, of which these bytes are told.
    Bytes(Helper, ShortBytes),
    /// A call of this helper, of which this code is told.
    Code(Helper, u8),
    /// The outermost exit.
    Exit,
}

/// The number, if it is one.
pub fn number_in(value: Option<Value>) -> Option<u32>
    ensures { result ≡ number_in value }
{
    match value {
        Some(Value::Number(number)) => Some(number),
        _ => None,
    }
}

/// The long number, if it is one.
pub fn long_number_in(value: Option<Value>) -> Option<u64>
    ensures { result ≡ long_number_in value }
{
    match value {
        Some(Value::LongNumber(number)) => Some(number),
        _ => None,
    }
}

/// The number, and 0 if it is none.
pub fn number_at(value: Option<Value>) -> u32
    ensures { result ≡ number_at value }
{
    match value {
        Some(Value::Number(number)) => number,
        _ => 0,
    }
}

/// The long number, and 0 if it is none.
pub fn long_number_at(value: Option<Value>) -> u64
    ensures { result ≡ long_number_at value }
{
    match value {
        Some(Value::LongNumber(number)) => number,
        _ => 0,
    }
}

/// The status, if it is one.
pub fn status_in(value: Option<Value>) -> Option<CamStatus>
    ensures { result ≡ status_in value }
{
    match value {
        Some(Value::Status(status)) => Some(status),
        _ => None,
    }
}

/// The byte, if it is one.
pub fn byte_in(value: Option<Value>) -> Option<u8>
    ensures { result ≡ byte_in value }
{
    match value {
        Some(Value::Byte(byte)) => Some(byte),
        _ => None,
    }
}

/// The bytes, if they are any.
pub fn bytes_in(value: Option<Value>) -> Option<ShortBytes>
    ensures { result ≡ bytes_in value }
{
    match value {
        Some(there) => there.bytes(),
        None => None,
    }
}

/// Where a run stopped, if it is that.
pub fn stop_in(value: Option<Value>) -> Option<Stop>
    ensures { result ≡ stop_in value }
{
    match value {
        Some(there) => there.stop(),
        None => None,
    }
}

impl Value {
    fn bytes(self) -> Option<ShortBytes>
        ensures { result ≡ bytes_in (Some self) }
    {
        match self {
            Value::Bytes(bytes) => Some(bytes),
            _ => None,
        }
    }

    fn stop(self) -> Option<Stop>
        ensures { result ≡ stop_in (Some self) }
    {
        match self {
            Value::Stop(stop) => Some(stop),
            _ => None,
        }
    }
}
