// A plan, carried out over the bytes of its files. It relies on `tracing` for what a trace shows, and on `deciding` for what a policy
// decides. What is said of a manifest is of `explaining`, of a scenario or a trace of `judging`, and of a code of `explain_codes`.

ghost use Rattle.std.specs.Prelude.{◌≡◌, ◌≢◌, ◌≤◌, Contains, Some, IsUtf8, false, length, slice_get, true};
ghost use Rattle.std.specs.Io.KnownBytes.{Keeps};
ghost use Rattle.cli_inspect_line.specs.Files.{input_paths};
ghost use Rattle.cli_inspection.specs.Shown.{AreReported, IsAccepted, IsAsAsked, IsFaulty, IsOutput, IsPlanDecided, IsPlanLeft, IsPlanTried, IsRejected, IsReported, explains, is_of_code, may_put};

use crate::deciding::print_decided;
use crate::explaining::print_explanation;
use crate::judging::print_judged;
use crate::tracing::{Told, print_traced};
use crate::trying::print_tried;
use cli_commands::status;
use cli_inspect_line::Plan;
use std::alloc::Global;
use std::io::Write;
use std::sync::Wait;
use std::thread::Threads;
use world_calls::Notices;

/// Carries a plan out over the bytes of its input files, in the order of the line, and answers the status: 0 done; 1 refused, or
/// explained why; 2 for a file that is to be text and is not UTF-8, for a question that no engine of its manifest can take, for want of
/// memory, or if a writer fails. What is to go out is
/// written on `out`, also why a file is refused that is to be explained; the trace of a trial goes on `kept`, if the plan keeps one. A trial
/// in which CCBs are left ends with status 1 too, and what it shows is out. Of any other fault one line is written on `err`, and a second
/// one of an open trace that does not follow; nothing goes out. If `out` fails for want of memory that line is written too; some may be
/// out then. How far a replay or a run is, is reported to `notices`.
pub fn carry<N: Notices + Sync, R: Threads + Wait + Sync, W: Write, K: Write, E: Write>(
    rt: &R,
    alloc: Global,
    plan: &Plan,
    inputs: &[Vec<u8>],
    notices: &N,
    out: &mut W,
    kept: &mut K,
    err: &mut E,
) -> u8
    requires { length inputs.now ≡ length (input_paths plan.now) }
    ensures status { result ≤ 2 }
    // What is said of a code is no refusal.
    ensures code { is_of_code plan.now ≡ true → result ≢ 1 }
    ensures no_text { (input : _) → Contains inputs.now input → ¬ (IsUtf8 input.items) → result ≡ 2 }
    // Done only if the first file is what the plan asks for.
    ensures done { result ≡ 0 → (input : _) → slice_get inputs.now 0 ≡ Some input → IsAsAsked plan.now input.items }
    // What a trace shows is done only if it is the trace of a history of an engine of the first file, or is open and begins one.
    ensures accepted { result ≡ 0 → (first second : _) → slice_get inputs.now 0 ≡ Some first → slice_get inputs.now 1 ≡ Some second → IsAccepted plan.now first.items second.items }
    // What is asked of a policy is answered by what a policy of the first file decides.
    ensures decided { result ≡ 0 → (input : _) → slice_get inputs.now 0 ≡ Some input → IsPlanDecided plan.now input.items (W.contents out.old) (W.contents out.new) }
    // What is tried are the policies of the first file on the devices of the second, and what is kept of the trial is its trace, also if it
    // is not finished.
    ensures tried { result ≡ 0 → (first second : _) → slice_get inputs.now 0 ≡ Some first → slice_get inputs.now 1 ≡ Some second → IsPlanTried plan.now first.items second.items (W.contents out.old) (W.contents out.new) (K.contents kept.old) (K.contents kept.new) }
    ensures left { result ≡ 1 → (first second : _) → slice_get inputs.now 0 ≡ Some first → slice_get inputs.now 1 ≡ Some second → IsPlanLeft plan.now first.items second.items (W.contents out.old) (W.contents out.new) (K.contents kept.old) (K.contents kept.new) }
    // Refused only if it has a fault, or the file after it has one; a manifest that is to be explained is refused too.
    ensures refused { result ≡ 1 → (input : _) → slice_get inputs.now 0 ≡ Some input → IsFaulty plan.now input.items }
    // Of two files, refused only if one has a fault, or a line of the trace does not follow.
    ensures rejected { result ≡ 1 → (first second : _) → slice_get inputs.now 0 ≡ Some first → slice_get inputs.now 1 ≡ Some second → IsRejected plan.now first.items second.items }
    // What is done writes nothing on `err`, and of a file that is accepted one word on `out`.
    ensures quiet { result ≡ 0 → Keeps (E.contents err.old) (E.contents err.new) }
    ensures output { result ≡ 0 → IsOutput plan.now (W.contents out.old) (W.contents out.new) }
    // What is written of a file that is refused and to be explained begins with the line that reports its fault.
    ensures told { result ≡ 1 → (input : _) → slice_get inputs.now 0 ≡ Some input → IsReported plan.now input.items (W.contents out.old) (W.contents out.new) }
    ensures reported { result ≡ 1 → (first second : _) → slice_get inputs.now 0 ≡ Some first → slice_get inputs.now 1 ≡ Some second → AreReported plan.now first.items second.items (W.contents out.old) (W.contents out.new) }
    // Why a file is refused that is to be explained is written on `out` alone, and that of any other on `err` alone.
    ensures explained { result ≡ 1 → explains plan.now ≡ true → Keeps (E.contents err.old) (E.contents err.new) }
    ensures nothing { result ≡ 1 → may_put plan.now ≡ false → Keeps (W.contents out.old) (W.contents out.new) }
{
    match plan {
        Plan::ExplainCode(code) => status(explain_codes::print(alloc, *code, out), err),
        Plan::Explain(manifest) => {
            let manifest = (manifest.as_str(), inputs[0].as_slice());
            print_explanation(alloc, manifest, out, err)
        }
        Plan::ExplainFile(..) => print_judged(rt, alloc, plan, inputs, notices, out, err),
        Plan::Show(form, filter, ..) => {
            let told = Told::Account(*form, *filter);
            print_traced(alloc, told, plan, inputs, notices, out, err)
        }
        Plan::Summarise(form, ..) => {
            let told = Told::Summary(*form);
            print_traced(alloc, told, plan, inputs, notices, out, err)
        }
        Plan::Draw(drawing, ..) => {
            let told = Told::Drawn(*drawing);
            print_traced(alloc, told, plan, inputs, notices, out, err)
        }
        Plan::Decide(extent, question, manifest) => {
            let manifest = (manifest.as_str(), inputs[0].as_slice());
            print_decided(alloc, *extent, question, manifest, out, err)
        }
        Plan::Try(..) => print_tried(alloc, plan, inputs, out, kept, err),
    }
}
