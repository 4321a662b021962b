// The fields of an instruction of eight bytes, and what is wrong with them. It relies on `bpf_decode` for its faults.

use bpf_decode::InsnFault;
use cli_text_page::Page;

/// How many bytes a slot has.
const SLOT_BYTES: usize = 8;

/// The greatest number of a register.
const MOST_REGISTER: u8 = 10;

// An instruction's fields; of a constant of 64 bits, those of its first slot.
#[derive(Clone, Copy)]
struct Fields {
    opcode: u8,
    dst: u8,
    src: u8,
    offset: i16,
    imm: i32,
}

// Whether each of them is of no use to an instruction.
#[derive(Clone, Copy)]
struct Unused {
    dst: bool,
    src: bool,
    offset: bool,
    imm: bool,
}

/// Puts the fields of the instruction that begins in a slot of these bytes.
pub fn put_fields(page: &mut Page, bytes: &[u8], slot: usize) {
    if let Some(fields) = fields_at(bytes, slot) {
        page.text("  = fields: opcode 0x");
        page.byte(fields.opcode);
        page.fill(
            ", dst {}, src {}, offset ",
            &[u64::from(fields.dst), u64::from(fields.src)],
        );
        page.signed(i64::from(fields.offset));
        page.text(", imm ");
        page.signed(i64::from(fields.imm));
        page.text("\n");
    }
}

/// Whether the fields say what is wrong with an instruction that has such a fault.
pub fn is_known(fault: InsnFault) -> bool {
    !matches!(fault, InsnFault::UnknownOpcode | InsnFault::OutsideProfile)
}

/// The slot that has the fault of the instruction that begins in a slot: this one, or the second one of a constant.
pub fn faulty_slot(fault: InsnFault, bytes: &[u8], slot: usize) -> usize {
    match fields_at(bytes, slot) {
        Some(fields) if fault == InsnFault::UnusedField && !has_unused(fields) => {
            slot.saturating_add(1)
        }
        _ => slot,
    }
}

/// Puts what is wrong with the instruction that begins in a slot of these bytes, and how it is mended, if its fields say so.
pub fn put_fault(page: &mut Page, fault: InsnFault, bytes: &[u8], slot: usize) {
    let Some(fields) = fields_at(bytes, slot) else {
        return;
    };
    match fault {
        InsnFault::NoSuchRegister => put_no_register(page, fields),
        InsnFault::UnusedField => put_unused(page, fields),
        InsnFault::NoSuchForm => put_no_form(page, fields),
        InsnFault::CutShort => page.text(
            "  = to mend it: add the second slot: 00 00 00 00, then the upper four bytes of the constant\n",
        ),
        InsnFault::FramePointer => put_frame_pointer(page),
        InsnFault::UnknownOpcode | InsnFault::OutsideProfile => {}
    }
}

// Puts which field names no register.
fn put_no_register(page: &mut Page, fields: Fields) {
    if fields.dst > MOST_REGISTER {
        page.fill(
            "  = here: dst is {}, and registers are 0 to 10\n",
            &[u64::from(fields.dst)],
        );
    } else {
        page.fill(
            "  = here: src is {}, and registers are 0 to 10\n",
            &[u64::from(fields.src)],
        );
    }
    page.text(
        "  = to mend it: write the register into the second byte: dst in its low digit, src in its high digit\n",
    );
}

// Puts which field selects no form of an instruction.
fn put_no_form(page: &mut Page, fields: Fields) {
    let forms = match fields.opcode & 0xf0 {
        0x30 => "; a division has 0, or 1 for the signed one\n",
        0x90 => "; a remainder has 0, or 1 for the signed one\n",
        0xd0 => "; a byte order has 16, 32 or 64\n",
        _ if fields.opcode & 0x07 == 7 => "; a move has 0, or 8, 16 or 32 to extend a sign\n",
        _ => "; a move of 32 bits has 0, or 8 or 16 to extend a sign\n",
    };
    if fields.opcode & 0xf0 == 0xd0 {
        page.text("  = here: imm is ");
        page.signed(i64::from(fields.imm));
    } else {
        page.text("  = here: offset is ");
        page.signed(i64::from(fields.offset));
    }
    page.text(forms);
    page.text("  = to mend it: write one of these values\n");
}

// Whether any of these fields is not 0, though the instruction does not use it.
fn has_unused(fields: Fields) -> bool {
    let unused = unused_of(fields.opcode);
    (unused.dst && fields.dst != 0)
        || (unused.src && fields.src != 0)
        || (unused.offset && fields.offset != 0)
        || (unused.imm && fields.imm != 0)
}

// Puts which of these fields are not 0, though the instruction does not use them.
fn put_unused(page: &mut Page, fields: Fields) {
    let unused = unused_of(fields.opcode);
    let found = [
        ("dst", unused.dst && fields.dst != 0),
        ("src", unused.src && fields.src != 0),
        ("offset", unused.offset && fields.offset != 0),
        ("imm", unused.imm && fields.imm != 0),
    ];
    let mut is_told = false;
    page.text("  = here: ");
    for (name, is_set) in found {
        if is_set {
            page.text(if is_told { " and " } else { "" });
            page.text(name);
            is_told = true;
        }
    }
    page.text(if is_told {
        " should be 0: the instruction does not use it\n"
    } else {
        "the first four bytes of the second slot should be 0\n"
    });
    page.text("  = to mend it: write 0 there; if the value is meant, another opcode is needed\n");
}

// Puts that R10 is written, and what to do instead.
fn put_frame_pointer(page: &mut Page) {
    page.text(
        "  = here: dst is r10, the frame pointer, which is only read\n  = to mend it: compute in a copy: `mov64 r3, r10` is bf a3 00 00 00 00 00 00\n",
    );
}

fn fields_at(bytes: &[u8], slot: usize) -> Option<Fields> {
    let first = slot.saturating_mul(SLOT_BYTES);
    let bytes = bytes.get(first..first.saturating_add(SLOT_BYTES))?;
    match bytes {
        [opcode, registers, a, b, c, d, e, f] => Some(Fields {
            opcode: *opcode,
            dst: *registers & 0x0f,
            src: registers.wrapping_shr(4),
            offset: i16::from_le_bytes([*a, *b]),
            imm: i32::from_le_bytes([*c, *d, *e, *f]),
        }),
        _ => None,
    }
}

// Which fields an instruction of that opcode does not use.
fn unused_of(opcode: u8) -> Unused {
    let of_register = opcode & 0x08 != 0;
    match opcode & 0x07 {
        0 => none().with_offset(),
        1 | 3 => none().with_imm(),
        2 => none().with_src(),
        4 | 7 => of_arithmetic(opcode & 0xf0, of_register),
        _ => of_jump(opcode, of_register),
    }
}

// The same of arithmetic.
fn of_arithmetic(op: u8, of_register: bool) -> Unused {
    match op {
        // NEG
        0x80 => none().with_src().with_offset().with_imm(),
        // END
        0xd0 => none().with_src().with_offset(),
        // DIV, MOD, and MOV of a register
        0x30 | 0x90 => none().with_other(of_register),
        0xb0 if of_register => none().with_imm(),
        _ => none().with_other(of_register).with_offset(),
    }
}

// The same of jumps and calls.
fn of_jump(opcode: u8, of_register: bool) -> Unused {
    match opcode {
        // JA by its offset, and by its imm
        0x05 => none().with_dst().with_src().with_imm(),
        0x06 => none().with_dst().with_src().with_offset(),
        // CALL
        0x85 => none().with_dst().with_offset(),
        // EXIT
        0x95 => none().with_dst().with_src().with_offset().with_imm(),
        _ => none().with_other(of_register),
    }
}

fn none() -> Unused {
    Unused {
        dst: false,
        src: false,
        offset: false,
        imm: false,
    }
}

impl Unused {
    fn with_dst(mut self) -> Self {
        self.dst = true;
        self
    }

    fn with_src(mut self) -> Self {
        self.src = true;
        self
    }

    fn with_offset(mut self) -> Self {
        self.offset = true;
        self
    }

    fn with_imm(mut self) -> Self {
        self.imm = true;
        self
    }

    // That of the two operands which is not the second one: of a register, or else a number.
    fn with_other(self, of_register: bool) -> Self {
        if of_register {
            self.with_imm()
        } else {
            self.with_src()
        }
    }
}
