// Loads and stores where a machine is described. It relies on `check_register_kinds` for where they lie, on `check_description` for
// bytes that are written and for what is spilled, and on `stack_domain` for which stack bytes are written.

ghost use Rattle.std.specs.Prelude.{◌≡◌, ◌<◌, ◌≤◌, ◌+◌, ◌^◌, ℕ, length, IfOk, IfSome, IsOk, IsOkAnd, IsTrue};
ghost use Rattle.std.specs.Int.{byte_len};
ghost use Rattle.bpf_semantics.specs.Memory.{load_width, loaded, store_width};
ghost use Rattle.scalar_domain.specs.Scalar.{Has};
ghost use Rattle.check_register_kinds.specs.declared.region.Region.TheVariants.{Context, Frame};
ghost use Rattle.check_description.specs.Memory.{AreKnown, LeavesMarked};
ghost use Rattle.check_description.specs.Spills.{AreUnspilled};
ghost use Rattle.check_private_insns.specs.Enough.{LeavesStored, LiesInContext, LiesInFrame, LiesWritten};
ghost use Rattle.check_register_kinds.specs.Kinds.{IsNumber, size_of};
ghost use Rattle.check_private_insns.specs.Memory.{HasLoaded, IsPlaceOf, LoadGives, Loads, StoreLeaves, AccessReads, ReadsFrame, ReadsPlace, Stores};

use base::OrMemory;
use bpf_insn::{LoadForm, Reg, SignExtension, StoreSize};
use check_description::Description;
use check_register_kinds::{Access, Cause, Kind, Offsets, Region, accessed};
use scalar_domain::{Scalar, extend};
use stack_domain::NumberPlace;

/// What a load gives of the bytes that begin at a register's address plus the offset.
///
/// # Errors
/// - `UnwrittenRegister` for the address.
/// - `AccessOutside` where it is no address, or a byte may lie outside the context and the live frames.
/// - `UnwrittenByte`.
/// - `AddressStored` where a byte may be of an address or a freeze that was spilled, and the load is not of just that.
pub(crate) fn loaded(
    description: &Description,
    form: LoadForm,
    src: Reg,
    offset: i16,
) -> Result<Kind, Cause>
    ensures loads { IfOk result (Loads description.now form src offset) }
    ensures in_context { LiesInContext description.now src offset (byte_len (load_width form)) → IsOkAnd result IsNumber }
    ensures in_frame { LiesWritten description.now src offset (byte_len (load_width form)) → IsOkAnd result IsNumber }
{
    let bytes = load_bytes(form);
    let access = accessed(description.kind(src), offset, bytes)?;
    check_read(description, access, bytes)?;
    given(description, form, access, bytes)
}

/// The place on the stack at which the number stands that a load gives, if it is one place and the load is without a sign.
pub(crate) fn read_place(
    description: &Description,
    form: LoadForm,
    src: Reg,
    offset: i16,
) -> Option<NumberPlace>
    ensures { IfSome result (ReadsPlace description.now form src offset) }
{
    if !is_unsigned(form) {
        return None;
    }
    let bytes = load_bytes(form);
    match accessed(description.kind(src), offset, bytes) {
        Ok(access) => place_of(description.stack.depth(), access, bytes),
        Err(_) => None,
    }
}

// The place of an access to so many bytes, if it is one of a live frame; so many are live.
fn place_of(depth: usize, access: Access, bytes: u16) -> Option<NumberPlace>
    ensures { IfSome result (IsPlaceOf depth access bytes) }
{
    match access.region {
        Region::Frame(frame) => frame_place(depth, frame, access.offsets, bytes),
        Region::Context => None,
    }
}

// The same for an access to that frame.
fn frame_place(depth: usize, frame: u8, offsets: Offsets, bytes: u16) -> Option<NumberPlace>
    ensures { IfSome result (IsPlaceOf depth (record { region = Frame frame; offsets = offsets }) bytes) }
{
    if usize::from(frame) < depth && offsets.least == offsets.most {
        Some(NumberPlace {
            frame,
            offset: offsets.least,
            bytes,
        })
    } else {
        None
    }
}

// What a load gives of bytes that are there.
fn given(
    description: &Description,
    form: LoadForm,
    access: Access,
    bytes: u16,
) -> Result<Kind, Cause>
    requires inside { access.offsets.most + bytes ≤ size_of access.region }
    requires live { (frame : ℕ) → access.region ≡ Frame frame → frame < length description.now.stack }
    requires all { bytes ≡ byte_len (load_width form) }
    ensures gives { IfOk result (LoadGives description.now form access.region access.offsets) }
    ensures context { access.region ≡ Context → IsOkAnd result IsNumber }
    ensures frame { (frame from : ℕ) → access.region ≡ Frame frame → access.offsets ≡ record { least = from; most = from } → AreUnspilled description.now.spills frame from (from + bytes) → IsOkAnd result IsNumber }
{
    match access.region {
        Region::Context => Ok(Kind::Number(loaded_words(form))),
        Region::Frame(frame) => given_in(description, form, frame, access.offsets, bytes),
    }
}

// What a load gives of bytes of a frame: a number, or an address or a freeze that was spilled just there.
fn given_in(
    description: &Description,
    form: LoadForm,
    frame: u8,
    offsets: Offsets,
    bytes: u16,
) -> Result<Kind, Cause>
    requires inside { offsets.most + bytes ≤ 512 }
    requires live { frame < length description.now.stack }
    requires all { bytes ≡ byte_len (load_width form) }
    ensures gives { IfOk result (LoadGives description.now form (Frame frame) offsets) }
    ensures unspilled { AreUnspilled description.now.spills frame offsets.least (offsets.most + bytes) → IsOkAnd result IsNumber }
    ensures spilled { (AreUnspilled description.now.spills frame offsets.least (offsets.most + bytes) → ⊥) → IfOk result (λ kind. IsNumber kind → ⊥) }
{
    if !description.may_be_spilled(frame, offsets, bytes) {
        let words = words_there(description, form, frame, offsets, bytes);
        return Ok(Kind::Number(words));
    }
    match form {
        LoadForm::DoubleWord => reloaded(description, frame, offsets),
        _ => Err(Cause::AddressStored),
    }
}

// What a load makes of the words that may stand in bytes of a frame: of a number that is kept there just that, if the load is
// without a sign.
fn words_there(
    description: &Description,
    form: LoadForm,
    frame: u8,
    offsets: Offsets,
    bytes: u16,
) -> Scalar
    requires inside { offsets.most + bytes ≤ 512 }
    requires all { bytes ≡ byte_len (load_width form) }
    ensures { HasLoaded description.now form frame offsets result }
{
    if is_unsigned(form) {
        if let Some(number) = description.number_in(frame, offsets, bytes) {
            return number;
        }
    }
    loaded_words(form)
}

// Whether a load gives the word that stands there.
fn is_unsigned(form: LoadForm) -> bool
    ensures { IsTrue result → (word : ℕ) → loaded form word ≡ word }
{
    match form {
        LoadForm::Byte | LoadForm::HalfWord | LoadForm::Word | LoadForm::DoubleWord => true,
        LoadForm::SignedByte | LoadForm::SignedHalfWord | LoadForm::SignedWord => false,
    }
}

// What was spilled in eight bytes of a frame.
fn reloaded(description: &Description, frame: u8, offsets: Offsets) -> Result<Kind, Cause>
    requires inside { offsets.most + 8 ≤ 512 }
    requires live { frame < length description.now.stack }
    ensures gives { IfOk result (LoadGives description.now LoadForm.DoubleWord (Frame frame) offsets) }
    ensures no_number { IfOk result (λ kind. IsNumber kind → ⊥) }
{
    let kind = description.spilled(frame, offsets);
    if kind.is_written() {
        Ok(kind)
    } else {
        Err(Cause::AddressStored)
    }
}

// Whether the bytes of a load are written.
fn check_read(description: &Description, access: Access, bytes: u16) -> Result<(), Cause>
    requires inside { access.offsets.most + bytes ≤ size_of access.region }
    ensures reads { IfOk result (λ _. AccessReads description.now access bytes) }
    ensures live { IfOk result (λ _. (frame : ℕ) → access.region ≡ Frame frame → frame < length description.now.stack) }
    ensures context { access.region ≡ Context → IsOk result }
    ensures frame { (frame from : ℕ) → access.region ≡ Frame frame → access.offsets ≡ record { least = from; most = from } → frame < length description.now.stack → AreKnown description.now frame from bytes → IsOk result }
{
    match access.region {
        Region::Context => Ok(()),
        Region::Frame(frame) => check_frame(description, frame, access.offsets, bytes),
    }
}

// Whether bytes of a frame are written, wherever they begin.
fn check_frame(
    description: &Description,
    frame: u8,
    offsets: Offsets,
    bytes: u16,
) -> Result<(), Cause>
    requires inside { offsets.most + bytes ≤ 512 }
    ensures reads { IfOk result (λ _. ReadsFrame description.now frame offsets bytes) }
    ensures live { IfOk result (λ _. frame < length description.now.stack) }
    ensures known { (from : ℕ) → offsets ≡ record { least = from; most = from } → frame < length description.now.stack → AreKnown description.now frame from bytes → IsOk result }
{
    let frame = usize::from(frame);
    if frame >= description.stack.depth() || offsets.least > offsets.most {
        return Err(Cause::AccessOutside);
    }
    let least = usize::from(offsets.least);
    let most = usize::from(offsets.most);
    if description
        .stack
        .is_written(frame, least, most, usize::from(bytes))
    {
        Ok(())
    } else {
        Err(Cause::UnwrittenByte)
    }
}

/// Stores a word of that kind from a register's address plus the offset on.
///
/// # Errors
/// - `UnwrittenRegister` for the address and the word.
/// - `AccessOutside` where the former is no address, or a byte may lie outside the live frames.
/// - `StoreToContext`.
/// - `AddressStored` for a word that is no number and is not stored whole at one place, a multiple of 8.
/// - `OutOfMemory`, only for such a word.
pub(crate) fn store(
    description: &mut Description,
    size: StoreSize,
    dst: Reg,
    offset: i16,
    word: Kind,
) -> Result<(), OrMemory<Cause>>
    ensures stores { IfOk result (λ _. Stores description.old size dst offset word description.new) }
    ensures leaves { IsNumber word → LiesInFrame description.old dst offset (byte_len (store_width size)) → IsOkAnd result (λ _. LeavesStored description.old dst offset (byte_len (store_width size)) description.new) }
    ensures depth { IfOk result (λ _. length description.new.stack ≡ length description.old.stack) }
{
    let bytes = store_bytes(size);
    if !word.is_written() {
        return Err(OrMemory::Fault(Cause::UnwrittenRegister));
    }
    match accessed(description.kind(dst), offset, bytes) {
        Ok(access) => store_at(description, access, bytes, word),
        Err(cause) => Err(OrMemory::Fault(cause)),
    }
}

// Stores a word of that kind where that is.
fn store_at(
    description: &mut Description,
    access: Access,
    bytes: u16,
    word: Kind,
) -> Result<(), OrMemory<Cause>>
    requires inside { access.offsets.most + bytes ≤ size_of access.region }
    requires few { bytes ≤ 8 }
    ensures puts { IfOk result (λ _. (frame : ℕ) × (access.region ≡ Frame frame) × StoreLeaves description.old frame access.offsets bytes word description.new) }
    ensures leaves { (frame from : ℕ) → access.region ≡ Frame frame → IsNumber word → access.offsets ≡ record { least = from; most = from } → frame < length description.old.stack → IsOkAnd result (λ _. LeavesMarked description.old frame from bytes description.new) }
    ensures depth { IfOk result (λ _. length description.new.stack ≡ length description.old.stack) }
{
    match access.region {
        Region::Context => Err(OrMemory::Fault(Cause::StoreToContext)),
        Region::Frame(frame) => store_in(description, frame, access.offsets, bytes, word),
    }
}

// Stores a word of that kind in a frame.
fn store_in(
    description: &mut Description,
    frame: u8,
    offsets: Offsets,
    bytes: u16,
    word: Kind,
) -> Result<(), OrMemory<Cause>>
    requires inside { offsets.most + bytes ≤ 512 }
    requires few { bytes ≤ 8 }
    ensures puts { IfOk result (λ _. StoreLeaves description.old frame offsets bytes word description.new) }
    ensures leaves { (from : ℕ) → IsNumber word → offsets ≡ record { least = from; most = from } → frame < length description.old.stack → IsOkAnd result (λ _. LeavesMarked description.old frame from bytes description.new) }
    ensures depth { IfOk result (λ _. length description.new.stack ≡ length description.old.stack) }
{
    if usize::from(frame) >= description.stack.depth() {
        return Err(OrMemory::Fault(Cause::AccessOutside));
    }
    if let Kind::Number(number) = word {
        description.store_number_in(frame, offsets, bytes, number);
        return Ok(());
    }
    spill(description, frame, offsets, bytes, word)
}

// Stores an address or a freeze in a live frame, whole and at one place, which is a multiple of 8.
fn spill(
    description: &mut Description,
    frame: u8,
    offsets: Offsets,
    bytes: u16,
    word: Kind,
) -> Result<(), OrMemory<Cause>>
    requires live { frame < length description.old.stack }
    requires inside { offsets.most + bytes ≤ 512 }
    ensures puts { IfOk result (λ _. StoreLeaves description.old frame offsets bytes word description.new) }
    ensures depth { IfOk result (λ _. length description.new.stack ≡ length description.old.stack) }
{
    if bytes == 8 && offsets.least == offsets.most && offsets.least.is_multiple_of(8) {
        description.spill_in(frame, offsets.least / 8, word)?;
        Ok(())
    } else {
        Err(OrMemory::Fault(Cause::AddressStored))
    }
}

// How many bytes a load reads.
fn load_bytes(form: LoadForm) -> u16
    ensures { result ≡ byte_len (load_width form) }
{
    match form {
        LoadForm::Byte | LoadForm::SignedByte => 1,
        LoadForm::HalfWord | LoadForm::SignedHalfWord => 2,
        LoadForm::Word | LoadForm::SignedWord => 4,
        LoadForm::DoubleWord => 8,
    }
}

// How many bytes a store writes.
fn store_bytes(size: StoreSize) -> u16
    ensures { result ≡ byte_len (store_width size) }
{
    match size {
        StoreSize::Byte => 1,
        StoreSize::HalfWord => 2,
        StoreSize::Word => 4,
        StoreSize::DoubleWord => 8,
    }
}

// What a load makes of the words that may stand there.
fn loaded_words(form: LoadForm) -> Scalar
    ensures { (word : ℕ) → word < 256 ^ byte_len (load_width form) → Has result (loaded form word) }
{
    match form {
        LoadForm::Byte => Scalar::within(0, 0xff),
        LoadForm::HalfWord => Scalar::within(0, 0xffff),
        LoadForm::Word => Scalar::within(0, 0xffff_ffff),
        LoadForm::DoubleWord => Scalar::any(),
        LoadForm::SignedByte => extend(SignExtension::From8To64, Scalar::within(0, 0xff)),
        LoadForm::SignedHalfWord => extend(SignExtension::From16To64, Scalar::within(0, 0xffff)),
        LoadForm::SignedWord => extend(SignExtension::From32To64, Scalar::within(0, 0xffff_ffff)),
    }
}
