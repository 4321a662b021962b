// A stack frame: 512 bytes, and which of them are written. A load or a store of a word has no loop. It relies on
// `byte_set` for what is written, on `alike` for bytes that are the same, and on `byteorder` for words in memory.

ghost use Rattle.std.specs.Prelude.{◌≡◌, ◌≤◌, ◌+◌, ◌↔◌, IsTrue, length, replicate, None, is_some, map, take, drop};
ghost use Rattle.byteorder.specs.Endian.{little_bytes};
ghost use Rattle.bpf_stack_frame.specs.Frame.{all_written, byte_of, word_at, written_at};

use crate::alike::same_bytes;
use crate::byte_set::{ByteSet, MOST_BYTES};
use base::Blank;
use byteorder::{ByteOrder, LittleEndian};
use std::marker::Model;

/// The bytes of a stack frame, from offset 0 to 511. Contracts see a list of 512, in which an unwritten byte is `None`.
#[derive(Clone, Copy, Debug, PartialEq, Eq)]
pub struct Frame {
    // 0 where nothing is written
    bytes: [u8; 512],
    written: ByteSet,
}

impl Model for Frame {
    ghost use Rattle.std.specs.Prelude.{ℕ, List, Option};
    ghost use Rattle.bpf_stack_frame.specs.FrameBytes.{frame_of, bytes_of, written_of, AreFrame};

    ghost Value = { List (Option ℕ) };

    ghost view = { λ f. frame_of f.bytes f.written };

    ghost invariant = { λ f. AreFrame f.bytes f.written };

    ghost inverse = { λ frame. record { bytes = bytes_of frame; written = written_of frame } };

    ghost inverse_ok = { λ f are i. record { bytes = are.same_bytes i; written = are.same_written i } };
}

impl Frame {
    /// Nothing is written.
    pub fn unwritten() -> Self
        ensures { result ≡ replicate 512 None }
    {
        Frame {
            bytes: [0; 512],
            written: ByteSet::empty(),
        }
    }

    /// Whether no byte is written.
    pub fn is_unwritten(&self) -> bool
        ensures { IsTrue result ↔ (self.now ≡ replicate 512 None) }
    {
        self.written.is_empty()
    }

    /// Whether both are one frame. Of two that are unwritten no byte is looked at.
    pub fn is_same(&self, other: &Self) -> bool
        ensures { IsTrue result ↔ (self.now ≡ other.now) }
    {
        if self.is_unwritten() {
            other.is_unwritten()
        } else {
            self.has_same_bytes(other)
        }
    }

    // The same of frames of which something is written. It is apart, so that frames of which nothing is written are told apart in
    // few words.
    #[cold]
    #[inline(never)]
    fn has_same_bytes(&self, other: &Self) -> bool
        ensures { IsTrue result ↔ (self.now ≡ other.now) }
    {
        self.written.is_same(&other.written) && same_bytes(&self.bytes, &other.bytes)
    }

    /// Makes this frame the other one. Where both are unwritten no byte is copied.
    pub fn copy_from(&mut self, other: &Self)
        ensures { self.new ≡ other.now }
    {
        if self.is_unwritten() && other.is_unwritten() {
            return;
        }
        *self = *other;
    }

    /// Makes this frame an unwritten one. Where nothing is written no byte is touched.
    pub fn clear(&mut self)
        ensures { self.new ≡ replicate 512 None }
    {
        if !self.is_unwritten() {
            *self = Frame::unwritten();
        }
    }

    /// The byte at that offset, as 0 where it is unwritten.
    #[inline(always)]
    pub fn read8(&self, offset: usize) -> u64
        requires { offset + 1 ≤ 512 }
        ensures { result ≡ word_at 1 offset self.now }
    {
        u64::from(self.bytes[offset])
    }

    /// The word of two bytes from that offset on, little-endian, an unwritten byte being 0.
    #[inline(always)]
    pub fn read16(&self, offset: usize) -> u64
        requires { offset + 2 ≤ 512 }
        ensures { result ≡ word_at 2 offset self.now }
    {
        u64::from(LittleEndian::read_u16(&self.bytes[offset..]))
    }

    /// The word of four bytes from that offset on, little-endian, an unwritten byte being 0.
    #[inline(always)]
    pub fn read32(&self, offset: usize) -> u64
        requires { offset + 4 ≤ 512 }
        ensures { result ≡ word_at 4 offset self.now }
    {
        u64::from(LittleEndian::read_u32(&self.bytes[offset..]))
    }

    /// The word of eight bytes from that offset on, little-endian, an unwritten byte being 0.
    #[inline(always)]
    pub fn read64(&self, offset: usize) -> u64
        requires { offset + 8 ≤ 512 }
        ensures { result ≡ word_at 8 offset self.now }
    {
        LittleEndian::read_u64(&self.bytes[offset..])
    }

    /// `count` bytes from that offset on, an unwritten one being 0.
    pub fn bytes(&self, offset: usize, count: usize) -> &[u8]
        requires { offset + count ≤ 512 }
        ensures { result.now ≡ map byte_of (take count (drop offset self.now)) }
    {
        &self.bytes[offset..offset + count]
    }

    /// Whether `count` bytes from that offset on are all written.
    pub fn has_written(&self, offset: usize, count: usize) -> bool
        requires { offset + count ≤ 512 }
        ensures { result ≡ is_some (all_written (take count (drop offset self.now))) }
    {
        self.written.contains_all(offset, count)
    }

    /// Writes bytes, at most `MOST_BYTES`, from that offset on.
    #[inline(always)]
    pub fn write_bytes(&mut self, offset: usize, bytes: &[u8])
        requires inside { offset + length bytes.now ≤ 512 }
        requires few { length bytes.now ≤ MOST_BYTES }
        ensures { self.new ≡ written_at offset bytes.now self.old }
    {
        self.bytes[offset..offset + bytes.len()].copy_from_slice(bytes);
        self.written.insert_all(offset, bytes.len());
    }

    /// Writes the low byte of a word at that offset.
    #[inline(always)]
    pub fn write8(&mut self, offset: usize, word: u64)
        requires { offset + 1 ≤ 512 }
        ensures { self.new ≡ written_at offset (little_bytes 1 word) self.old }
    {
        self.write_bytes(offset, &word.to_le_bytes()[..1]);
    }

    /// Writes the low two bytes of a word from that offset on, little-endian.
    #[inline(always)]
    pub fn write16(&mut self, offset: usize, word: u64)
        requires { offset + 2 ≤ 512 }
        ensures { self.new ≡ written_at offset (little_bytes 2 word) self.old }
    {
        self.write_bytes(offset, &word.to_le_bytes()[..2]);
    }

    /// Writes the low four bytes of a word from that offset on, little-endian.
    #[inline(always)]
    pub fn write32(&mut self, offset: usize, word: u64)
        requires { offset + 4 ≤ 512 }
        ensures { self.new ≡ written_at offset (little_bytes 4 word) self.old }
    {
        self.write_bytes(offset, &word.to_le_bytes()[..4]);
    }

    /// Writes the eight bytes of a word from that offset on, little-endian.
    #[inline(always)]
    pub fn write64(&mut self, offset: usize, word: u64)
        requires { offset + 8 ≤ 512 }
        ensures { self.new ≡ written_at offset (little_bytes 8 word) self.old }
    {
        self.write_bytes(offset, &word.to_le_bytes());
    }
}
