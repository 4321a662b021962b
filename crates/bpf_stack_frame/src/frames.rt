// The stack frames of the functions that are open, in a place of fixed size: so a machine is copied and compared without
// memory. It relies on `frame` for the bytes of each, and on `base` for what it means to keep them so, though in an
// array of its own: frames are written in place.

ghost use Rattle.std.specs.Prelude.{◌≡◌, ◌<◌, ◌≤◌, ◌+◌, ◌-◌, ◌++◌, ◌↔◌, [], ◌∷◌, IsTrue, None, length, replicate, take, slice_index_or, slice_set};
ghost use Rattle.byteorder.specs.Endian.{little_bytes};
ghost use Rattle.bpf_stack_frame.specs.declared.byte_set.TheConstants.{MOST_BYTES};
ghost use Rattle.bpf_stack_frame.specs.Frame.{written_at};

use crate::frame::Frame;
use std::marker::Model;

/// The most frames that are live at a time: one for each function that is open.
pub const MAX_FRAMES: usize = 8;

/// The live frames, from 0 to `MAX_FRAMES` of them, the outermost first. Contracts see the list.
#[derive(Clone, Copy, Debug, PartialEq, Eq)]
pub struct Frames {
    // nothing is written in those that are not live
    frames: [Frame; MAX_FRAMES],
    depth: usize,
}

impl Model for Frames {
    ghost use Rattle.std.specs.Prelude.{ℕ, List, Option, take, length};
    ghost use Rattle.base.specs.Padded.{padded, IsPadded, length-kept};
    ghost use Rattle.bpf_stack_frame.specs.declared.frames.TheConstants.{MAX_FRAMES};
    ghost use Rattle.bpf_stack_frame.specs.Frame.{unwritten};

    ghost Value = { List (List (Option ℕ)) };

    ghost view = { λ f. take f.depth f.frames };

    ghost invariant = { λ f. IsPadded unwritten MAX_FRAMES f.frames f.depth };

    ghost inverse = { λ live. record { frames = padded unwritten MAX_FRAMES live; depth = length live } };

    ghost inverse_ok = { λ f is i. record { frames = is.rest i; depth = length-kept unwritten MAX_FRAMES f.frames f.depth is i } };
}

impl Frames {
    /// The outermost frame alone, of which nothing is written.
    pub fn outermost() -> Self
        ensures { result ≡ replicate 512 None ∷ [] }
    {
        Frames {
            frames: [Frame::unwritten(); MAX_FRAMES],
            depth: 1,
        }
    }

    /// How many frames are live.
    #[inline(always)]
    pub fn depth(&self) -> usize
        ensures value { result ≡ length self.now }
        ensures few { result ≤ MAX_FRAMES }
    {
        self.depth
    }

    /// Whether both are the same frames. Only those that are live are looked at.
    pub fn is_same(&self, other: &Self) -> bool
        ensures { IsTrue result ↔ (self.now ≡ other.now) }
    {
        if self.depth != other.depth {
            return false;
        }
        for k in 0..self.depth {
            if !self.frames[k].is_same(&other.frames[k]) {
                return false;
            }
        }
        true
    }

    /// Makes these frames the others. Only those that are live here or there are looked at.
    pub fn copy_from(&mut self, other: &Self)
        ensures { self.new ≡ other.now }
    {
        let end = self.depth.max(other.depth);
        for k in 0..end {
            self.frames[k].copy_from(&other.frames[k]);
        }
        self.depth = other.depth;
    }

    /// One live frame more, the innermost, of which nothing is written.
    pub fn open(&mut self)
        requires { length self.old < MAX_FRAMES }
        ensures { self.new ≡ self.old ++ replicate 512 None ∷ [] }
    {
        self.depth += 1;
    }

    /// The innermost frame is gone.
    pub fn close(&mut self)
        requires { 0 < length self.old }
        ensures { self.new ≡ take (length self.old - 1) self.old }
    {
        self.depth -= 1;
        self.frames[self.depth].clear();
    }

    /// Makes these frames the outermost one alone, of which nothing is written. Only those that are live are looked at.
    pub fn begin(&mut self)
        ensures { self.new ≡ replicate 512 None ∷ [] }
    {
        while self.depth() > 0 {
            self.close();
        }
        self.open();
    }

    /// A live frame, the outermost being 0.
    #[inline(always)]
    pub fn frame(&self, k: usize) -> &Frame
        requires { k < length self.now }
        ensures { result.now ≡ slice_index_or self.now k [] }
    {
        // The proof knows how many frames there are once a field is read.
        let _depth = self.depth;
        &self.frames[k]
    }

    /// Writes bytes, at most `MOST_BYTES`, of a live frame from an offset on.
    #[inline(always)]
    pub fn write_bytes(&mut self, k: usize, offset: usize, bytes: &[u8])
        requires live { k < length self.old }
        requires inside { offset + length bytes.now ≤ 512 }
        requires few { length bytes.now ≤ MOST_BYTES }
        ensures { self.new ≡ slice_set self.old k (written_at offset bytes.now (slice_index_or self.old k [])) }
    {
        // The proof knows how many frames there are once a field is read.
        let _depth = self.depth;
        self.frames[k].write_bytes(offset, bytes);
    }

    /// Writes the low byte of a word in a live frame.
    #[inline(always)]
    pub fn write8(&mut self, k: usize, offset: usize, word: u64)
        requires live { k < length self.old }
        requires inside { offset + 1 ≤ 512 }
        ensures { self.new ≡ slice_set self.old k (written_at offset (little_bytes 1 word) (slice_index_or self.old k [])) }
    {
        let _depth = self.depth;
        self.frames[k].write8(offset, word);
    }

    /// Writes the low two bytes of a word in a live frame, little-endian.
    #[inline(always)]
    pub fn write16(&mut self, k: usize, offset: usize, word: u64)
        requires live { k < length self.old }
        requires inside { offset + 2 ≤ 512 }
        ensures { self.new ≡ slice_set self.old k (written_at offset (little_bytes 2 word) (slice_index_or self.old k [])) }
    {
        let _depth = self.depth;
        self.frames[k].write16(offset, word);
    }

    /// Writes the low four bytes of a word in a live frame, little-endian.
    #[inline(always)]
    pub fn write32(&mut self, k: usize, offset: usize, word: u64)
        requires live { k < length self.old }
        requires inside { offset + 4 ≤ 512 }
        ensures { self.new ≡ slice_set self.old k (written_at offset (little_bytes 4 word) (slice_index_or self.old k [])) }
    {
        let _depth = self.depth;
        self.frames[k].write32(offset, word);
    }

    /// Writes the eight bytes of a word in a live frame, little-endian.
    #[inline(always)]
    pub fn write64(&mut self, k: usize, offset: usize, word: u64)
        requires live { k < length self.old }
        requires inside { offset + 8 ≤ 512 }
        ensures { self.new ≡ slice_set self.old k (written_at offset (little_bytes 8 word) (slice_index_or self.old k [])) }
    {
        let _depth = self.depth;
        self.frames[k].write64(offset, word);
    }
}
