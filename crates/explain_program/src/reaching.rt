// Which places of a program control may come to from another one, whatever the machine. It relies on `call_shape` for where
// instructions lead.

ghost use Rattle.std.specs.Prelude.{◌≡◌, ◌↔◌, ◌<◌, false, length, replicate, IsTrue};
ghost use Rattle.bpf_insn.specs.declared.program.TheConstants.{MAX_SLOTS};
ghost use Rattle.explain_program.specs.Listed.{AreListed, ListsToo};
ghost use Rattle.explain_program.specs.Reaching.{GoesOnAt, LeadsFrom, Reaches};

use bpf_insn::{MAX_SLOTS, Program};
use call_shape::Onward;

/// Whether control may come from one place of a program to another: it stands there already, or comes there by where
/// instructions let it go on, into each function that is called and on after the call. It takes no memory, and time that
/// grows with the slots.
pub fn reaches(program: &Program, from: usize, to: usize) -> bool
    requires { to < MAX_SLOTS }
    ensures { IsTrue result ↔ Reaches program.now from to }
{
    // The proof knows that it is a program once its length is read.
    let _slots = program.len();
    let mut places = Places::none();
    places.add(from);
    let mut followed = 0;
    while followed < places.count {
        let place = usize::from(places.order[followed]);
        places.add_next(program, place);
        followed += 1;
    }
    places.marked[to]
}

// Places of a program, each once, in the order in which control was found to come there.
#[derive(Drop)]
struct Places {
    // by their slots, the places that are listed
    marked: [bool; MAX_SLOTS],
    // the first so many are these places
    order: [u16; MAX_SLOTS],
    count: usize,
}

impl Places {
    // None.
    fn none() -> Self
        ensures marked { result.marked ≡ replicate MAX_SLOTS false }
        ensures order { length result.order ≡ MAX_SLOTS }
        ensures empty { result.count ≡ 0 }
    {
        Places {
            marked: [false; MAX_SLOTS],
            order: [0; MAX_SLOTS],
            count: 0,
        }
    }

    // Lists a place, unless it is listed or outside every program.
    fn add(&mut self, place: usize)
        requires { AreListed self.old }
        ensures { ListsToo (λ other. other ≡ place) self.old self.new }
    {
        if place < MAX_SLOTS && !self.marked[place] {
            self.marked[place] = true;
            self.order[self.count] = place as u16;
            self.count += 1;
        }
    }

    // Lists the places to which the instruction at a place leads.
    fn add_next(&mut self, program: &Program, place: usize)
        requires { AreListed self.old }
        ensures { ListsToo (LeadsFrom program.now place) self.old self.new }
    {
        if let Some(insn) = program.fetch(place) {
            self.add_onward(Onward::of(place, insn));
        }
    }

    // Lists the places where control goes on.
    fn add_onward(&mut self, way: Onward)
        requires { AreListed self.old }
        ensures { ListsToo (GoesOnAt way) self.old self.new }
    {
        match way {
            Onward::Leaves => {}
            Onward::Continues(next) => self.add(next),
            Onward::Branches(one, other) | Onward::Enters(one, other) => {
                self.add(one);
                self.add(other);
            }
        }
    }
}
