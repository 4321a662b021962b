// Places in the order in which they are settled: each after all that control may reach from it.

ghost use Rattle.std.specs.Prelude.{◌≡◌, ◌<◌, ◌≤◌, length, take};
ghost use Rattle.bpf_insn.specs.declared.program.TheConstants.{MAX_SLOTS};
ghost use Rattle.call_shape.specs.Walk.{with_place};

use bpf_insn::MAX_SLOTS;

/// Places of a program in the order in which they were put in.
#[derive(Debug, Drop)]
pub(crate) struct Postorder {
    places: [u16; MAX_SLOTS],
    count: usize,
}

impl Postorder {
    /// No place yet.
    pub(crate) fn new() -> Self
        ensures whole { length result.places ≡ MAX_SLOTS }
        ensures empty { result.count ≡ 0 }
    {
        Postorder {
            places: [0; MAX_SLOTS],
            count: 0,
        }
    }

    /// Puts a place after all others.
    pub(crate) fn push(&mut self, place: usize)
        requires room { self.old.count < MAX_SLOTS }
        requires place { place < MAX_SLOTS }
        ensures { self.new ≡ with_place self.old place }
    {
        self.places[self.count] = place as u16;
        self.count += 1;
    }

    /// The places.
    pub(crate) fn as_slice(&self) -> &[u16]
        requires { self.now.count ≤ MAX_SLOTS }
        ensures { result.now ≡ take self.now.count self.now.places }
    {
        &self.places[..self.count]
    }
}
