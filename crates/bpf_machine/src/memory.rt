// Loads and stores, on the context and the live frames (RFC 9669, sections 5.1 and 5.2). Only where an address lies
// is tested; a machine that is not stuck has what it reads and where it writes. It relies on `bpf_stack_frame` for stack
// bytes, on `byteorder` for words of the context, and on `extensions` for signs.

ghost use Rattle.std.specs.Prelude.{◌≡◌, ◌+◌, ◌<◌, ◌≤◌, IfSome, length};
ghost use Rattle.std.specs.Int.{w8, w16, w32, w64};
ghost use Rattle.bpf_semantics.specs.Memory.{address_at, load_width, loaded, store_width};
ghost use Rattle.bpf_machine.specs.Unchecked.{context_offset, frame_place, word_in, with_word_in};

use bpf_insn::{LoadForm, SignExtension, StoreSize};
use bpf_stack_frame::Frames;
use bpf_words::extend;
use byteorder::{ByteOrder, LittleEndian};

/// Where the context lies.
pub const CONTEXT_ADDRESS: u64 = 0x1000_0000;

/// How many bytes it has.
const CONTEXT_BYTES: u64 = 96;

/// Where the outermost frame begins.
pub const FRAME_ADDRESS: u64 = 0x2000_0000;

/// How far after a frame the next one begins.
pub const FRAME_DISTANCE: u64 = 0x1000;

/// How many bytes a frame has.
pub const FRAME_BYTES: u64 = 512;

/// The address of an access.
#[inline(always)]
pub fn address(base: u64, offset: i16) -> u64
    ensures { result ≡ address_at base offset }
{
    base.wrapping_add(i64::from(offset).cast_unsigned())
}

/// What a load from an address makes of what stands there.
#[inline(always)]
pub fn load(form: LoadForm, context: &[u8; 96], frames: &Frames, address: u64) -> u64
    ensures { result ≡ loaded form (word_in (load_width form) context.now frames.now address) }
{
    match form {
        LoadForm::Byte => word8(context, frames, address),
        LoadForm::HalfWord => word16(context, frames, address),
        LoadForm::Word => word32(context, frames, address),
        LoadForm::DoubleWord => word64(context, frames, address),
        LoadForm::SignedByte => extend(SignExtension::From8To64, word8(context, frames, address)),
        LoadForm::SignedHalfWord => extend(
            SignExtension::From16To64,
            word16(context, frames, address),
        ),
        LoadForm::SignedWord => extend(SignExtension::From32To64, word32(context, frames, address)),
    }
}

/// Writes the low bytes of a word to an address.
#[inline(always)]
pub fn store(size: StoreSize, frames: &mut Frames, address: u64, word: u64)
    ensures { frames.new ≡ with_word_in (store_width size) frames.old address word }
{
    match size {
        StoreSize::Byte => store8(frames, address, word),
        StoreSize::HalfWord => store16(frames, address, word),
        StoreSize::Word => store32(frames, address, word),
        StoreSize::DoubleWord => store64(frames, address, word),
    }
}

// How far after the context's start so many bytes begin, where they lie in it.
#[inline(always)]
fn in_context(address: u64, bytes: u64) -> Option<usize>
    requires { bytes ≤ 8 }
    ensures value { result ≡ context_offset address bytes }
    ensures within { IfSome result (λ offset. offset + bytes ≤ 96) }
{
    if CONTEXT_ADDRESS <= address && address <= CONTEXT_ADDRESS + CONTEXT_BYTES - bytes {
        Some((address - CONTEXT_ADDRESS) as usize)
    } else {
        None
    }
}

/// Where bytes lie in a live frame.
#[derive(Clone, Copy, Debug)]
pub struct FramePlace {
    /// The frame, the outermost being 0.
    pub frame: usize,
    /// How far after its start they begin.
    pub offset: usize,
}

/// Where so many bytes lie, at most 64, among so many live frames, if they lie in one.
#[inline(always)]
pub fn in_frames(frames: &Frames, address: u64, bytes: u64) -> Option<FramePlace>
    requires { bytes ≤ 64 }
    ensures value { result ≡ frame_place (length frames.now) address bytes }
    ensures live { IfSome result (λ place. place.frame < length frames.now) }
    ensures within { IfSome result (λ place. place.offset + bytes ≤ 512) }
{
    if address < FRAME_ADDRESS {
        return None;
    }
    let from = address - FRAME_ADDRESS;
    let frame = from / FRAME_DISTANCE;
    let offset = from % FRAME_DISTANCE;
    if frame < frames.depth() as u64 && offset + bytes <= FRAME_BYTES {
        Some(FramePlace {
            frame: frame as usize,
            offset: offset as usize,
        })
    } else {
        None
    }
}

#[inline(always)]
fn word8(context: &[u8; 96], frames: &Frames, address: u64) -> u64
    ensures { result ≡ word_in w8 context.now frames.now address }
{
    if let Some(offset) = in_context(address, 1) {
        u64::from(context[offset])
    } else if let Some(place) = in_frames(frames, address, 1) {
        frames.frame(place.frame).read8(place.offset)
    } else {
        0
    }
}

#[inline(always)]
fn word16(context: &[u8; 96], frames: &Frames, address: u64) -> u64
    ensures { result ≡ word_in w16 context.now frames.now address }
{
    if let Some(offset) = in_context(address, 2) {
        u64::from(LittleEndian::read_u16(&context[offset..]))
    } else if let Some(place) = in_frames(frames, address, 2) {
        frames.frame(place.frame).read16(place.offset)
    } else {
        0
    }
}

#[inline(always)]
fn word32(context: &[u8; 96], frames: &Frames, address: u64) -> u64
    ensures { result ≡ word_in w32 context.now frames.now address }
{
    if let Some(offset) = in_context(address, 4) {
        u64::from(LittleEndian::read_u32(&context[offset..]))
    } else if let Some(place) = in_frames(frames, address, 4) {
        frames.frame(place.frame).read32(place.offset)
    } else {
        0
    }
}

#[inline(always)]
fn word64(context: &[u8; 96], frames: &Frames, address: u64) -> u64
    ensures { result ≡ word_in w64 context.now frames.now address }
{
    if let Some(offset) = in_context(address, 8) {
        LittleEndian::read_u64(&context[offset..])
    } else if let Some(place) = in_frames(frames, address, 8) {
        frames.frame(place.frame).read64(place.offset)
    } else {
        0
    }
}

#[inline(always)]
fn store8(frames: &mut Frames, address: u64, word: u64)
    ensures { frames.new ≡ with_word_in w8 frames.old address word }
{
    if let Some(place) = in_frames(frames, address, 1) {
        frames.write8(place.frame, place.offset, word);
    }
}

#[inline(always)]
fn store16(frames: &mut Frames, address: u64, word: u64)
    ensures { frames.new ≡ with_word_in w16 frames.old address word }
{
    if let Some(place) = in_frames(frames, address, 2) {
        frames.write16(place.frame, place.offset, word);
    }
}

#[inline(always)]
fn store32(frames: &mut Frames, address: u64, word: u64)
    ensures { frames.new ≡ with_word_in w32 frames.old address word }
{
    if let Some(place) = in_frames(frames, address, 4) {
        frames.write32(place.frame, place.offset, word);
    }
}

#[inline(always)]
fn store64(frames: &mut Frames, address: u64, word: u64)
    ensures { frames.new ≡ with_word_in w64 frames.old address word }
{
    if let Some(place) = in_frames(frames, address, 8) {
        frames.write64(place.frame, place.offset, word);
    }
}
