// A program of lawful shape, as a type. It relies on `postorder`.

ghost use Rattle.std.specs.Prelude.{◌≡◌, ◌≤◌};
ghost use Rattle.bpf_insn.specs.Program.{IsProgram};
ghost use Rattle.call_shape.specs.Shape.{IsLawful};
ghost use Rattle.bpf_stack_frame.specs.declared.frames.TheConstants.{MAX_FRAMES};
ghost use Rattle.call_shape.specs.declared.lawful_shape.TheConstants.{MAX_WRITTEN_OUT};

use crate::postorder::Postorder;
use bpf_insn::Program;
use std::marker::Model;

/// How many instructions there may be with all local calls written out.
pub const MAX_WRITTEN_OUT: u32 = 65_536;

/// A program whose shape is lawful. Contracts see it as the program's slots.
#[derive(Debug, Drop)]
pub struct Shape<'a> {
    program: &'a Program,
    order: Postorder,
    frames: u8,
    written_out: u32,
}

impl<'a> Model for Shape<'a> {
    ghost use Rattle.std.specs.Prelude.{List};
    ghost use Rattle.bpf_insn.specs.declared.program.Slot.{Slot};
    ghost use Rattle.call_shape.specs.ShapeParts.{AreParts};

    ghost Value = { List Slot };

    ghost view = { λ s. s.program.now };

    ghost invariant = { λ s. AreParts s.program.now s.order s.frames s.written_out };
}

impl<'a> Shape<'a> {
    ghost use Rattle.call_shape.specs.Postorder.{IsWholePostorder};
    ghost use Rattle.call_shape.specs.ShapeParts.{AreParts};
    ghost use Rattle.call_shape.specs.StaticPath.{IsFrames};
    ghost use Rattle.call_shape.specs.WrittenOut.{IsWrittenOut};

    pub(crate) fn new(program: &'a Program, order: Postorder, frames: u8, written_out: u32) -> Self
        requires { AreParts program.now order frames written_out }
        ensures { result ≡ program.entry.now }
    {
        Shape {
            program,
            order,
            frames,
            written_out,
        }
    }

    /// The program.
    pub fn program(&self) -> &'a Program
        ensures value { result.now ≡ self.now }
        ensures program { IsProgram self.now }
        ensures lawful { IsLawful self.now }
    {
        self.program
    }

    /// The greatest number of frames on a static path: 1 to `MAX_FRAMES`.
    pub fn frames(&self) -> u8
        ensures frames { IsFrames self.now result }
        ensures some { 1 ≤ result }
        ensures shallow { result ≤ MAX_FRAMES }
    {
        self.frames
    }

    /// How many instructions there are with the local calls of slot 0's function written out: at most `MAX_WRITTEN_OUT`.
    pub fn written_out(&self) -> u32
        ensures count { IsWrittenOut self.now 0 result }
        ensures short { result ≤ MAX_WRITTEN_OUT }
    {
        self.written_out
    }

    /// The places of all instructions, each once, after the later ones of its function and after the start of the
    /// function that it calls. So whoever asks the same of each place has asked it of all those on which a place rests.
    pub fn postorder(&self) -> &[u16]
        ensures { IsWholePostorder self.now result.now }
    {
        self.order.as_slice()
    }
}
