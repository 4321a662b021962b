// What holds of all histories: each function's contract is a law. It relies on the definitions alone.

ghost use Rattle.trace_of_history.specs.EachHasText.{EachRecordHasText};

/// Each record of a history of an engine has a text in the version of its configuration. What is answered is of the call's own form, a
/// refusal is one of the call's, and a completion is one that a device can report. An advance tells of 1 to 65,536 instructions, with 1 to
/// 64 bytes or a code below 64 if its helper tells them. If queues alone freeze, no controller is frozen or found frozen, and no helper of
/// controllers is called.
pub fn each_record_has_text()
    ensures { EachRecordHasText }
{}
