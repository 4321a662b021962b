// The machine of the code, of fixed size: it is copied and compared without memory. It relies on `registers`,
// `open_calls`, `held_freezes` and `bpf_stack_frame` for what it keeps, on `stepping` for an instruction within a function, on
// `bpf_insn` for programs, and on `helpers` for the calls.

ghost use Rattle.std.specs.Prelude.{◌≡◌, ◌+◌, ◌<◌, ◌↔◌, [], true, false, Some, None, IsTrue, if◌then◌else◌, length};
ghost use Rattle.bpf_insn.specs.declared.program.TheConstants.{MAX_SLOTS};
ghost use Rattle.bpf_semantics.specs.declared.bounds.TheConstants.{MAX_HELD};
ghost use Rattle.bpf_semantics.specs.MachineState.{entry, register};
ghost use Rattle.bpf_semantics.specs.Calls.{argument, named_bytes, request_by, traced};
ghost use Rattle.helpers.specs.declared.columns.Change.TheVariants as changes;
ghost use Rattle.bpf_semantics.specs.Step.{private_step, request_at, exit_at, exit_value, entered, returned, after_call, answered, changed_by, frames_after, held_with, held_without, StackHasRoom, HasRoomFor, IsAnswer, IsNewFreeze};
ghost use Rattle.bpf_semantics.specs.Stops.{stop_at};
ghost use Rattle.bpf_semantics.specs.Reached.{IsEntry, PrivateSteps};
ghost use Rattle.bpf_machine.specs.Able.{CanGoOn, GoesOnWithin};
ghost use Rattle.bpf_machine.specs.Unchecked.{StandsApart};
ghost use Rattle.bpf_stack_frame.specs.declared.frames.TheConstants.{MAX_FRAMES};

use crate::held_freezes::HeldFreezes;
use crate::memory::{CONTEXT_ADDRESS, FRAME_ADDRESS, FRAME_BYTES, FRAME_DISTANCE, in_frames};
use crate::open_calls::{OpenCall, OpenCalls};
use crate::registers::Registers;
use crate::stepping::advance;
use base::ShortBytes;
use bpf_insn::{Callee, Insn, Program, Reg, jump_target};
use bpf_semantics::Stop;
use bpf_stack_frame::{Frames, same_bytes};
use helpers::{Answer, ArgKind, Arguments, Change, Helper, Request, Tells, Written};
use std::marker::Model;

/// The frame pointer of the outermost frame: after its last byte.
const FRAME_POINTER: u64 = FRAME_ADDRESS + FRAME_BYTES;

/// A machine: where a program stands, its registers, the context that it reads, and what its run has.
#[derive(Clone, Copy, Debug, PartialEq, Eq)]
pub struct Machine {
    pc: usize,
    registers: Registers,
    context: [u8; 96],
    frames: Frames,
    open_calls: OpenCalls,
    held: HeldFreezes,
    disposed: bool,
}

impl Model for Machine {
    ghost use Rattle.bpf_semantics.specs.MachineState.{MachineState};

    ghost Value = { MachineState };

    ghost use Rattle.bpf_machine.specs.Inside.{view_of, inside_of, HasFrameEach};

    ghost view = { view_of };

    // one frame more than calls are open
    ghost invariant = { HasFrameEach };

    ghost inverse = { inside_of };
}

// What the registers hold at a run's start.
fn first_registers(freeze: u32) -> Registers
    ensures { result ≡ (entry [] freeze).registers }
{
    let mut registers = Registers::unwritten();
    registers.set(Reg::R1, CONTEXT_ADDRESS);
    registers.set(Reg::R2, u64::from(freeze));
    registers.set(Reg::R10, FRAME_POINTER);
    registers
}

impl Machine {
    /// A run's first machine, over its context and with the freeze of that number, or with none as 0: R1 is
    /// the context's address, R2 the number, R10 the frame pointer, and all else is unwritten.
    pub fn entry(context: &[u8; 96], freeze: u32) -> Self
        ensures value { result ≡ entry context.now freeze }
        ensures entry { IsEntry result }
    {
        Machine {
            pc: 0,
            registers: first_registers(freeze),
            context: *context,
            frames: Frames::outermost(),
            open_calls: OpenCalls::none(),
            held: HeldFreezes::at_start(freeze),
            disposed: false,
        }
    }

    /// Makes this machine a run's first one, in its place: it is what `entry` gives. Frames that are not live, or of which no
    /// byte is written, are not touched.
    pub fn begin(&mut self, context: &[u8; 96], freeze: u32)
        ensures value { self.new ≡ entry context.now freeze }
        ensures entry { IsEntry self.new }
    {
        self.pc = 0;
        self.registers = first_registers(freeze);
        self.context = *context;
        self.frames.begin();
        self.open_calls.clear();
        self.held = HeldFreezes::at_start(freeze);
        self.disposed = false;
    }

    /// The slot of the next instruction.
    pub fn pc(&self) -> usize
        ensures { result ≡ self.now.pc }
    {
        self.pc
    }

    /// Whether both are one machine.
    pub fn is_same(&self, other: &Self) -> bool
        ensures { IsTrue result ↔ (self.now ≡ other.now) }
    {
        self.pc == other.pc
            && self.registers.is_same(&other.registers)
            && same_bytes(&self.context, &other.context)
            && self.frames.is_same(&other.frames)
            && self.open_calls.is_same(&other.open_calls)
            && self.held.is_same(&other.held)
            && self.disposed == other.disposed
    }

    /// Makes this machine the other one, in its place. Frames that are not live, or of which no byte is
    /// written, are not copied.
    pub fn copy_from(&mut self, other: &Self)
        ensures { self.new ≡ other.now }
    {
        self.pc = other.pc;
        self.registers = other.registers;
        self.context = other.context;
        self.frames.copy_from(&other.frames);
        self.open_calls.copy_from(&other.open_calls);
        self.held = other.held;
        self.disposed = other.disposed;
    }

    /// What a register holds, where it is written.
    pub fn register(&self, reg: Reg) -> Option<u64>
        ensures { result ≡ register self.now reg }
    {
        self.registers.get(reg)
    }

    /// Executes private instructions until there is none, and tells how many. None of them is tested for being stuck,
    /// so the machine may be stuck nowhere on its way, and the way has to be shorter than the budget.
    #[inline(never)]
    pub fn execute(&mut self, program: &Program, budget: u32) -> u32
        requires { GoesOnWithin program.now self.old budget }
        ensures steps { PrivateSteps program.now result self.old self.new }
        ensures end { private_step program.now self.new ≡ None }
        ensures short { result < budget }
    {
        let mut steps = 0;
        // The loop within a function stands here once: so it takes each instruction in place, and calls for none.
        loop {
            steps += self.execute_within(program, budget - steps);
            if !self.cross(program) {
                return steps;
            }
            steps += 1;
        }
    }

    // The same of the private instructions of one function, up to a call or an exit.
    #[inline(always)]
    fn execute_within(&mut self, program: &Program, budget: u32) -> u32
        requires { GoesOnWithin program.now self.old budget }
        ensures steps { PrivateSteps program.now result self.old self.new }
        ensures end { StandsApart program.now self.new }
        ensures short { result < budget }
    {
        let rows = program.rows();
        let mut place = self.pc;
        let mut registers = self.registers;
        let mut steps = 0;
        while let Some(next) = advance(
            program,
            rows,
            place,
            &mut registers,
            &self.context,
            &mut self.frames,
        ) {
            prove!(steps < budget);
            place = next;
            steps += 1;
        }
        self.pc = place;
        self.registers = registers;
        steps
    }

    // From one function into another: a local call is entered, and at an exit the innermost call returns. Tells whether
    // the machine stood at one of these.
    #[cold]
    #[inline(never)]
    fn cross(&mut self, program: &Program) -> bool
        requires able { CanGoOn program.now self.old }
        requires apart { StandsApart program.now self.old }
        ensures step { private_step program.now self.old ≡ (if result then Some self.new else None) }
        ensures stays { result ≡ false → self.new ≡ self.old }
    {
        match program.fetch(self.pc) {
            Some(Insn::Call(Callee::Local(distance))) => {
                self.enter(distance);
                true
            }
            Some(Insn::Exit) => self.leave(),
            _ => false,
        }
    }

    // Into a local function.
    fn enter(&mut self, distance: i32)
        requires place { self.old.pc < MAX_SLOTS }
        requires room { length self.old.frames < MAX_FRAMES }
        ensures { self.new ≡ entered self.old distance }
    {
        let frame_pointer = FRAME_POINTER + FRAME_DISTANCE * self.frames.depth() as u64;
        let call = OpenCall::new(self.pc + 1, self.registers.saved());
        self.open_calls.push(&call);
        self.frames.open();
        self.registers.enter(frame_pointer);
        self.pc = jump_target(self.pc, distance);
    }

    // Back to its caller, and false where no call is open.
    fn leave(&mut self) -> bool
        ensures returned { returned self.old self.old.open_calls ≡ (if result then Some self.new else None) }
        ensures stays { result ≡ false → self.new ≡ self.old }
    {
        if self.open_calls.len() == 0 {
            return false;
        }
        let call = self.open_calls.pop();
        let frame_pointer = FRAME_POINTER + FRAME_DISTANCE * self.open_calls.len() as u64;
        self.frames.close();
        self.registers.leave(call.saved(), frame_pointer);
        self.pc = call.return_pc();
        true
    }

    /// The helper call at which the machine stands, where its arguments are written and a helper has its number; of a
    /// trace call only where the bytes that it names, 1 to 64, lie in a live frame and are written.
    pub fn request(&self, program: &Program) -> Option<Request>
        ensures { result ≡ request_at program.now self.now }
    {
        match program.fetch(self.pc)? {
            Insn::Call(Callee::Helper(number)) => self.request_by(Helper::with_number(number)?),
            Insn::Alu { .. }
            | Insn::InPlace { .. }
            | Insn::SignExtend { .. }
            | Insn::JumpIf { .. }
            | Insn::Jump(_)
            | Insn::LoadImmediate { .. }
            | Insn::Load { .. }
            | Insn::Store { .. }
            | Insn::Call(Callee::Local(_))
            | Insn::Exit => None,
        }
    }

    // The call of a helper, with what stands in the registers that it reads.
    fn request_by(&self, helper: Helper) -> Option<Request>
        ensures { result ≡ request_by self.now helper }
    {
        let asks = helper.asks();
        let arguments = Arguments {
            first: self.argument(asks.first, Reg::R1)?,
            second: self.argument(asks.second, Reg::R2)?,
            third: self.argument(asks.third, Reg::R3)?,
        };
        let bytes = self.named_bytes(helper.row().tells, &arguments)?;
        Some(Request {
            helper,
            arguments,
            bytes,
        })
    }

    // The bytes that a call names, by what its helper tells.
    fn named_bytes(&self, tells: Tells, arguments: &Arguments) -> Option<ShortBytes>
        ensures { result ≡ named_bytes self.now tells arguments.now }
    {
        match tells {
            Tells::Name | Tells::Code => Some(ShortBytes::none()),
            Tells::Bytes => self.traced(arguments.first, arguments.second),
        }
    }

    // So many bytes from an address on, 1 to 64, where they lie in a live frame and are all written.
    fn traced(&self, address: u64, bytes: u64) -> Option<ShortBytes>
        ensures { result ≡ traced self.now address bytes }
    {
        if bytes < 1 || bytes > 64 {
            return None;
        }
        let place = in_frames(&self.frames, address, bytes)?;
        let frame = self.frames.frame(place.frame);
        if !frame.has_written(place.offset, bytes as usize) {
            return None;
        }
        ShortBytes::new(frame.bytes(place.offset, bytes as usize))
    }

    // What an argument is; a register that the helper does not read counts as 0.
    fn argument(&self, asked: Option<ArgKind>, reg: Reg) -> Option<u64>
        ensures { result ≡ argument self.now asked reg }
    {
        match asked {
            Some(_) => self.register(reg),
            None => Some(0),
        }
    }

    /// R0 at the outermost exit, where the machine stands there and R0 is written.
    pub fn exit(&self, program: &Program) -> Option<u64>
        ensures { result ≡ exit_at program.now self.now }
    {
        match program.fetch(self.pc)? {
            Insn::Exit => self.result(),
            Insn::Alu { .. }
            | Insn::InPlace { .. }
            | Insn::SignExtend { .. }
            | Insn::JumpIf { .. }
            | Insn::Jump(_)
            | Insn::LoadImmediate { .. }
            | Insn::Load { .. }
            | Insn::Store { .. }
            | Insn::Call(_) => None,
        }
    }

    // R0, where no call is open.
    fn result(&self) -> Option<u64>
        ensures { result ≡ exit_value self.now self.now.open_calls }
    {
        if self.open_calls.len() == 0 {
            self.register(Reg::R0)
        } else {
            None
        }
    }

    /// The helper call or the outermost exit at which the machine stands; `None` exactly where it stands at
    /// neither, or what is asked there is unwritten or has no helper.
    pub fn stop(&self, program: &Program) -> Option<Stop>
        ensures { result ≡ stop_at program.now self.now }
    {
        match self.request(program) {
            Some(request) => Some(Stop::Helper(request)),
            None => self.exit(program).map(Stop::Exit),
        }
    }

    /// Passes a helper call that was answered, where the machine stands at a slot of a program: R0 is the answer
    /// and R1 to R5 are unwritten. A freeze that was taken is held, one that was released or handed over is held no
    /// more, a CCB that waits again or is finished is disposed of, and what the call wrote stands in its frame.
    pub fn pass(&mut self, request: &Request, answer: &Answer)
        requires place { self.old.pc < MAX_SLOTS }
        requires allowed { IsAnswer self.old request.now answer.now }
        requires room { HasRoomFor self.old request.now }
        ensures { self.new ≡ answered request.now answer.now self.old }
    {
        self.change(request.helper.row().machine, &request.arguments, answer);
        self.pass_call(answer.r0);
    }

    // What a call makes of the machine beside that.
    fn change(&mut self, change: Change, arguments: &Arguments, answer: &Answer)
        requires new { change ≡ changes.Holds → IsNewFreeze self.old.held answer.now.r0 }
        requires room { StackHasRoom self.old change }
        ensures { self.new ≡ changed_by change arguments.now answer.now self.old }
    {
        match change {
            Change::Nothing => {}
            Change::Holds => self.take(answer.r0),
            Change::GivesUp => self.give_up(arguments.first),
            Change::Disposes => self.disposed = true,
            Change::Writes { bytes: _ } => self.write(&answer.written),
        }
    }

    // A freeze that was taken is held; 0 is none.
    fn take(&mut self, freeze: u64)
        requires new { IsNewFreeze self.old.held freeze }
        requires room { length self.old.held < MAX_HELD }
        ensures { self.new ≡ record self.old { held = held_with self.old.held freeze } }
    {
        if freeze != 0 {
            self.held.push(freeze as u32);
        }
    }

    // A freeze is held no more.
    fn give_up(&mut self, freeze: u64)
        ensures { self.new ≡ record self.old { held = held_without self.old.held freeze } }
    {
        self.held = self.held.without(freeze);
    }

    // What a call wrote stands in its frame.
    fn write(&mut self, written: &Option<Written>)
        ensures { self.new ≡ record self.old { frames = frames_after self.old.frames written.now } }
    {
        if let Some(written) = written {
            let bytes: &[u8] = &written.bytes;
            if let Some(place) = in_frames(&self.frames, written.address, bytes.len() as u64) {
                self.frames.write_bytes(place.frame, place.offset, bytes);
            }
        }
    }

    // To the next slot, with an answer in R0 and nothing in R1 to R5.
    fn pass_call(&mut self, r0: u64)
        requires { self.old.pc < MAX_SLOTS }
        ensures { self.new ≡ after_call self.old r0 }
    {
        self.registers.answer(r0);
        self.pc += 1;
    }
}
