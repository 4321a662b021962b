// How many frames there are at a time on the static paths of a program. It relies on the postorder of its places.

ghost use Rattle.std.specs.Prelude.{◌≡◌, ℕ, ◌<◌, ◌≤◌, length, slice_index, IfSome, Some};
ghost use Rattle.bpf_insn.specs.Program.{IsProgram, insn_at};
ghost use Rattle.bpf_insn.specs.declared.program.TheConstants.{MAX_SLOTS};
ghost use Rattle.call_shape.specs.Depth.{depth_by};
ghost use Rattle.call_shape.specs.Postorder.{IsWholePostorder};
ghost use Rattle.call_shape.specs.Shape.{AreContained};
ghost use Rattle.call_shape.specs.StaticPath.{IsFrames};
ghost use Rattle.call_shape.specs.Tables.{HasEntries};

use crate::onward::Onward;
use bpf_insn::{MAX_SLOTS, Program};

/// The greatest number of frames that there are at a time on a static path.
pub(crate) fn frames_of(program: &Program, places: &[u16]) -> u16
    requires program { IsProgram program.now }
    requires functions { AreContained program.now }
    requires order { IsWholePostorder program.now places.now }
    requires fits { length places.now ≤ MAX_SLOTS }
    ensures { IsFrames program.now result }
{
    let mut depths = [0u16; MAX_SLOTS];
    for place in places {
        let place = usize::from(*place);
        let Some(insn) = program.fetch(place) else {
            unreachable!();
        };
        depths[place] = depth_by(&depths, Onward::of(place, insn));
    }
    depths[0]
}

// How deep paths go from a place, by how deep they go from where control goes on.
fn depth_by(depths: &[u16; MAX_SLOTS], way: Onward) -> u16
    requires entries { HasEntries MAX_SLOTS way }
    requires small { (k : ℕ) → slice_index depths.now k < MAX_SLOTS }
    ensures { result ≡ depth_by depths.now way }
{
    match way {
        Onward::Leaves => 1,
        Onward::Continues(next) => depths[next],
        Onward::Branches(next, other) => depths[next].max(depths[other]),
        Onward::Enters(callee, next) => depths[next].max(depths[callee] + 1),
    }
}
