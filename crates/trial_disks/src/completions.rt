// The completion of a failure as a file says it, in the words of a line. It relies on `trace_lines` for how they are spelled.

ghost use Rattle.std.specs.Prelude.{◌≡◌, ◌≢◌, IfOk, IfSome, Some};
ghost use Rattle.toml.specs.View.{view};
ghost use Rattle.trace_lines.specs.Texts.{byte_text, sense_text, status_text};
ghost use Rattle.trial_disks.specs.Said.{AreThree, IsCompletionAt, IsSpelled};

use crate::fault::{Form, KeyFault, Never, Wrong, fault_of};
use base::ShortBytes;
use ccb::{CamStatus, CcbId, Completion};
use manifest_form::document::text;
use toml::Value;
use trace_lines::{Kind, byte_in, bytes_in, status_in};

/// The CAM status of a request that is in progress, which no line of a trace has.
const IN_PROGRESS: &str = "00";

/// The completion under a key, for the first CCB: its CAM status, its SCSI status and its sense data, as a line of a trace has them. One
/// that is no failure is refused.
pub(crate) fn completion(value: &Value, key: &'static str) -> Result<Completion, KeyFault<'static>>
    ensures said { IfOk result (IsCompletionAt key.now (view value.now)) }
{
    let Some(words) = text(value, key) else {
        return Err(fault_of(Wrong::Form(Form::Text), key));
    };
    match spelled(words) {
        Ok(completion) => Ok(completion),
        Err(wrong) => Err(fault_of(wrong, key)),
    }
}

// The completion that the words spell.
fn spelled(words: &str) -> Result<Completion, Wrong>
    ensures { IfOk result (IsSpelled words.now) }
{
    let Some((first, second, third)) = three(words) else {
        return Err(Wrong::Form(Form::Completion));
    };
    if first == IN_PROGRESS {
        return Err(Wrong::Never(Never::InProgress));
    }
    let Some(status) = status_of(first) else {
        return Err(Wrong::Form(Form::Status));
    };
    let Some(scsi) = scsi_of(second) else {
        return Err(Wrong::Form(Form::Scsi));
    };
    let Some(sense) = sense_of(third) else {
        return Err(Wrong::Form(Form::Sense));
    };
    match failed(Completion::new(CcbId(1), status, scsi, sense.as_slice())) {
        Ok(completion) => Ok(completion),
        Err(wrong) => Err(wrong),
    }
}

// What each of the words spells.
fn status_of(word: &str) -> Option<CamStatus>
    ensures { IfSome result (λ status. status_text status ≡ Some word.now) }
{
    status_in(Kind::Status.read(word))
}

fn scsi_of(word: &str) -> Option<u8>
    ensures { IfSome result (λ scsi. byte_text scsi ≡ Some word.now) }
{
    byte_in(Kind::Byte.read(word))
}

fn sense_of(word: &str) -> Option<ShortBytes>
    ensures { IfSome result (λ sense. sense_text sense ≡ Some word.now) }
{
    bytes_in(Kind::Sense.read(word))
}

fn three(words: &str) -> Option<(&str, &str, &str)>
    ensures { IfSome result (λ its. AreThree words.now its.0.now its.1.now its.2.now) }
{
    let (status, rest) = words.split_once(' ')?;
    let (scsi, sense) = rest.split_once(' ')?;
    Some((status, scsi, sense))
}

// The completion, unless no request fails by it. There is none of a request that is in progress.
fn failed(completion: Option<Completion>) -> Result<Completion, Wrong>
    ensures same { IfOk result (λ same. completion ≡ Some same) }
    ensures failed { IfOk result (λ same. same.status ≢ CamStatus.RequestCompleted) }
{
    match completion {
        None => Err(Wrong::Never(Never::InProgress)),
        Some(completion) => {
            if completion.status() == CamStatus::RequestCompleted {
                Err(Wrong::Never(Never::Completed))
            } else {
                Ok(completion)
            }
        }
    }
}
