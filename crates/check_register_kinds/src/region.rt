// Where an address may lie: a region of memory and a range of offsets in it. It relies on `scalar_domain` for numbers
// that are added to an address.

ghost use Rattle.std.specs.Prelude.{◌≡◌, ℕ, ◌+◌, ◌-◌, ◌^◌, ◌<◌, ◌≤◌, min, max, IfSome, IsSome};
ghost use Rattle.std.specs.Int.{w64};
ghost use Rattle.bpf_words.specs.Words.{low};
ghost use Rattle.scalar_domain.specs.Scalar.{Has};
ghost use Rattle.check_register_kinds.specs.Kinds.{LiesAt, StaysAhead, StaysBehind, start_of, size_of};

use scalar_domain::Scalar;

/// The place of 0 in the order of signed words.
const ZERO_PLACE: u64 = 1 << 63;

/// Where an address may lie.
#[derive(Clone, Copy, Debug, PartialEq, Eq)]
pub enum Region {
    /// The 96 bytes of the context.
    Context,
    /// The 512 stack bytes of a live frame, the outermost being 0.
    Frame(u8),
}

/// How far after the start of its region an address lies: a range of bytes, both ends included, from 0 to the region's
/// size.
#[derive(Clone, Copy, Debug, PartialEq, Eq)]
pub struct Offsets {
    pub least: u16,
    pub most: u16,
}

impl Region {
    /// How many bytes it has.
    pub fn size(self) -> u16
        ensures is { result ≡ size_of self }
        ensures near { start_of self + size_of self < 2 ^ 32 }
    {
        match self {
            Region::Context => 96,
            Region::Frame(frame) => {
                prove!(frame <= u8::MAX);
                512
            }
        }
    }
}

impl Offsets {
    /// From the lesser least offset to the greater most.
    pub fn hull(self, other: Offsets) -> Self
        ensures of_self { (region : Region) (address : ℕ) → LiesAt region self address → LiesAt region result address }
        ensures of_other { (region : Region) (address : ℕ) → LiesAt region other address → LiesAt region result address }
        ensures ends { (result.least ≡ min self.least other.least) × (result.most ≡ max self.most other.most) }
    {
        Offsets {
            least: self.least.min(other.least),
            most: self.most.max(other.most),
        }
    }

    /// Those of an address to which one of these numbers is added: None where it may leave its region.
    pub fn advanced(self, region: Region, by: Scalar) -> Option<Offsets>
        ensures means { IfSome result (λ offsets. (address word : ℕ) → LiesAt region self address → Has by word → LiesAt region offsets (low w64 (address + word))) }
        ensures inside { StaysAhead region self by → IsSome result }
        ensures ends { IfSome result (λ offsets. (offsets.least + 2 ^ 63 ≡ self.least + by.signed.least) × (offsets.most + 2 ^ 63 ≡ self.most + by.signed.most)) }
    {
        let size = region.size();
        let least = shifted(self.least, by.signed.least, ZERO_PLACE, size)?;
        let most = shifted(self.most, by.signed.most, ZERO_PLACE, size)?;
        Some(Offsets { least, most })
    }

    /// Those of an address from which one of these numbers is taken: None where it may leave its region.
    pub fn receded(self, region: Region, by: Scalar) -> Option<Offsets>
        ensures means { IfSome result (λ offsets. (address word : ℕ) → LiesAt region self address → Has by word → LiesAt region offsets (low w64 (address + (2 ^ 64 - word)))) }
        ensures inside { StaysBehind region self by → IsSome result }
    {
        let size = region.size();
        let least = shifted(self.least, ZERO_PLACE, by.signed.most, size)?;
        let most = shifted(self.most, ZERO_PLACE, by.signed.least, size)?;
        Some(Offsets { least, most })
    }
}

// The offset, moved so far forward and so far back, where it is from 0 to `size`.
fn shifted(offset: u16, forward: u64, back: u64, size: u16) -> Option<u16>
    ensures means { IfSome result (λ moved. (moved + back ≡ offset + forward) × (moved ≤ size)) }
    ensures inside { back ≤ offset + forward → offset + forward ≤ back + size → offset + forward < 2 ^ 64 → IsSome result }
{
    let ahead = u64::from(offset).checked_add(forward)?;
    let moved = ahead.checked_sub(back)?;
    if moved <= u64::from(size) {
        Some(moved as u16)
    } else {
        None
    }
}
