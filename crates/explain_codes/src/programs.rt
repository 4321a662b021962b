// What there is to say of the codes of programs: of their texts, their bytes and their shapes. A row stands at the place of its number.

use crate::explanation::{Explanation, POLICY, POLICY_BYTES, Shown};

// What to do about bytes that are no slots.
const SLOTS: &str = "give 1 to 4096 slots of eight bytes each, as pairs of hexadecimal digits";

// What to do about a slot that is no instruction.
const GROUPS: &str =
    "compile for the base32, base64, divmul32 and divmul64 groups alone; `camr dis` shows what bytes mean";

// What to do about a jump that leads to no instruction.
const TARGETS: &str = "let the jump lead to an instruction of the program; a label does";

/// The codes from A1 on, of texts that are to be assembled.
pub(crate) const TEXTS: &[Explanation] = &[
    // A1
    Explanation {
        meaning: "what stands there is no token",
        cause: "a capital letter, a semicolon, a carriage return, or a name that begins with a digit",
        advice: Some("write names and numbers in lower case, and comments after `#`"),
        shown: Shown::Head,
        example: "mov64 R3, 1",
        mended: "mov64 r3, 1",
    },
    // A2
    Explanation {
        meaning: "the line is no label alone and begins with no mnemonic",
        cause: "the width is missing, as in `mov` for `mov64`",
        advice: Some("begin the line with a mnemonic, or write a label alone, with `:` after it"),
        shown: Shown::Head,
        example: "mov r3, 1",
        mended: "mov64 r3, 1",
    },
    // A3
    Explanation {
        meaning: "what follows the mnemonic is not of its form, or R10 is written",
        cause: "a distance or an offset has no sign: `[r1]` for `[r1+0]`",
        advice: Some("write the operands that the mnemonic takes, separated by commas"),
        shown: Shown::Head,
        example: "ldxb r3, [r1]",
        mended: "ldxb r3, [r1+0]",
    },
    // A4
    Explanation {
        meaning: "a number is out of its range, or a label too far away",
        cause: "a constant beyond 32 bits, which goes by `lddw`",
        advice: Some("use a number within the range; a constant beyond 32 bits goes by `lddw`"),
        shown: Shown::Head,
        example: "mov64 r3, 0x80000000",
        mended: "lddw r3, 0x80000000",
    },
    // A5
    Explanation {
        meaning: "the label is defined before",
        cause: "lines were copied with their label",
        advice: Some("give one of the two labels another name"),
        shown: Shown::Head,
        example: "out:\nmov64 r3, 1\nout:\nmov64 r4, 1",
        mended: "out:\nmov64 r3, 1\nback:\nmov64 r4, 1",
    },
    // A6
    Explanation {
        meaning: "the label is not defined",
        cause: "a label is misspelt",
        advice: Some("define the label: a name alone on a line, with `:` after it"),
        shown: Shown::Head,
        example: "ja otu\nout:",
        mended: "ja out\nout:",
    },
    // A7
    Explanation {
        meaning: "no line has a fault, and there is no instruction, or more than 4096 slots",
        cause: "all lines are comments or labels",
        advice: Some("write 1 to 4096 slots of instructions, of which `exit` is the last"),
        shown: Shown::Program,
        example: "# nothing yet",
        mended: POLICY,
    },
];

/// The codes from E1 on, of bytes that are to be a program.
pub(crate) const BYTES: &[Explanation] = &[
    // E1
    Explanation {
        meaning: "there are no bytes",
        cause: "`code` was left empty",
        advice: Some(SLOTS),
        shown: Shown::Code,
        example: "",
        mended: POLICY_BYTES,
    },
    // E2
    Explanation {
        meaning: "the number of bytes is no multiple of 8",
        cause: "digits were lost",
        advice: Some(SLOTS),
        shown: Shown::CodeHead,
        example: "b7 03 00",
        mended: "b7 03 00 00 00 00 00 00",
    },
    // E3
    Explanation {
        meaning: "there are more than 4096 slots",
        cause: "a compiler wrote loops out",
        advice: Some(SLOTS),
        shown: Shown::CodeHead,
        example: "b7 03 00 00 00 00 00 00   # 4090 times",
        mended: "b7 03 00 00 00 00 00 00   # 4089 times",
    },
    // E4
    Explanation {
        meaning: "no such opcode",
        cause: "the bytes are no BPF program, or digits were lost before this slot",
        advice: Some(GROUPS),
        shown: Shown::CodeHead,
        example: "ff 00 00 00 00 00 00 00",
        mended: "b7 03 00 00 00 00 00 00",
    },
    // E5
    Explanation {
        meaning: "an instruction of RFC 9669 that is left out: atomic ones, packet access, maps, calls by BTF",
        cause: "a counter in C is changed by an atomic operation: use helper 8",
        advice: Some(GROUPS),
        shown: Shown::CodeHead,
        example: "db 3a f8 ff 00 00 00 00",
        mended: "7b 2a f8 ff 00 00 00 00",
    },
    // E6
    Explanation {
        meaning: "a register above 10",
        cause: "digits were lost before this slot",
        advice: Some(
            "write the register into the second byte: dst in its low digit, src in its high digit",
        ),
        shown: Shown::CodeHead,
        example: "b7 0b 00 00 00 00 00 00",
        mended: "b7 03 00 00 00 00 00 00",
    },
    // E7
    Explanation {
        meaning: "a field that the instruction does not use is not 0",
        cause: "digits were lost before this slot",
        advice: Some("write 0 there; if the value is meant, another opcode is needed"),
        shown: Shown::CodeHead,
        example: "b7 03 01 00 00 00 00 00",
        mended: "b7 03 00 00 00 00 00 00",
    },
    // E8
    Explanation {
        meaning: "an offset or an imm that selects no form of the instruction",
        cause: "digits were lost before this slot",
        advice: Some("write a value that selects a form of the instruction"),
        shown: Shown::CodeHead,
        example: "b7 03 00 00 00 00 00 00\nd4 03 00 00 07 00 00 00",
        mended: "b7 03 00 00 00 00 00 00\nd4 03 00 00 10 00 00 00",
    },
    // E9
    Explanation {
        meaning: "a constant of 64 bits begins in the last slot",
        cause: "the bytes were cut off",
        advice: Some("add the second slot: 00 00 00 00, then the upper four bytes of the constant"),
        shown: Shown::Code,
        example: "18 03 00 00 01 00 00 00",
        mended: POLICY_BYTES,
    },
    // E10
    Explanation {
        meaning: "R10 is written",
        cause: "the frame pointer is moved where a copy of it is meant",
        advice: Some("compute in a copy of r10"),
        shown: Shown::CodeHead,
        example: "07 0a 00 00 f8 ff ff ff",
        mended: "bf a3 00 00 00 00 00 00\n07 03 00 00 f8 ff ff ff",
    },
];

/// The codes from S1 on, of the shapes of programs.
pub(crate) const SHAPES: &[Explanation] = &[
    // S1
    Explanation {
        meaning: "the last instruction of a function is neither an exit nor a plain jump",
        cause: "the exit is missing",
        advice: Some("end each function with `exit` or `ja`"),
        shown: Shown::Program,
        example: "jeq r2, 0, +2\nmov64 r1, r2\ncall 2\nmov64 r1, 1\ncall 4\nmov64 r0, 0",
        mended: POLICY,
    },
    // S2
    Explanation {
        meaning: "a jump's target is outside the program",
        cause: "a distance was counted wrong: write a label",
        advice: Some(TARGETS),
        shown: Shown::Head,
        example: "ja +100",
        mended: "ja +0",
    },
    // S3
    Explanation {
        meaning: "a jump's target is the second slot of a constant of 64 bits",
        cause: "`lddw` was counted as one slot: write a label",
        advice: Some(TARGETS),
        shown: Shown::Head,
        example: "ldxw r3, [r1+16]\njeq r3, 0, +1\nlddw r4, 1",
        mended: "ldxw r3, [r1+16]\njeq r3, 0, +2\nlddw r4, 1",
    },
    // S4
    Explanation {
        meaning: "a jump does not lead forward",
        cause: "a loop, whose turns have to be written out, or code that a compiler laid out backwards",
        advice: Some("write the loop's turns out: jumps lead forward only"),
        shown: Shown::Head,
        example: "mov64 r3, 2\nagain:\nsub64 r3, 1\njne r3, 0, again",
        mended: "mov64 r3, 2\nsub64 r3, 1\nsub64 r3, 1",
    },
    // S5
    Explanation {
        meaning: "a local call's target is outside the program or a second slot",
        cause: "a distance was counted wrong: write a label",
        advice: Some("write a label: `call local NAME`"),
        shown: Shown::Program,
        example: "mov64 r1, r2\ncall local +100\nmov64 r1, 1\ncall 4\nmov64 r0, 0\nexit\nthaw:\njeq r1, 0, +1\ncall 2\nexit",
        mended: "mov64 r1, r2\ncall local thaw\nmov64 r1, 1\ncall 4\nmov64 r0, 0\nexit\nthaw:\njeq r1, 0, +1\ncall 2\nexit",
    },
    // S6
    Explanation {
        meaning: "a jump leads out of its function",
        cause: "code is shared by a jump where a call is meant",
        advice: Some("let jumps stay in their function, and `call local` lead to where one begins"),
        shown: Shown::Program,
        example: "mov64 r1, r2\ncall local thaw\nmov64 r1, 1\ncall 4\nmov64 r0, 0\njeq r0, 1, thaw\nexit\nthaw:\njeq r1, 0, +1\ncall 2\nexit",
        mended: "mov64 r1, r2\ncall local thaw\nmov64 r1, 1\ncall 4\nmov64 r0, 0\nexit\nthaw:\njeq r1, 0, +1\ncall 2\nexit",
    },
    // S7
    Explanation {
        meaning: "a local call lies on a cycle of calls, reached or not",
        cause: "a function calls itself",
        advice: Some("let no function come back to itself by its calls"),
        shown: Shown::Program,
        example: "mov64 r1, r2\ncall local thaw\nmov64 r1, 1\ncall 4\nmov64 r0, 0\nexit\nthaw:\njeq r1, 0, +1\ncall local thaw\nexit",
        mended: "mov64 r1, r2\ncall local thaw\nmov64 r1, 1\ncall 4\nmov64 r0, 0\nexit\nthaw:\njeq r1, 0, +1\ncall 2\nexit",
    },
    // S8
    Explanation {
        meaning: "some path has more than 8 functions open at a time",
        cause: "calls are nested too deep",
        advice: Some("let at most eight functions be open at a time, that of the run among them"),
        shown: Shown::Program,
        example: "mov64 r6, r2\ncall local f\njeq r6, 0, +2\nmov64 r1, r6\ncall 2\nmov64 r1, 1\ncall 4\nmov64 r0, 0\nexit\nf:\ncall local +1\nexit\ncall local +1\nexit\ncall local +1\nexit\ncall local +1\nexit\ncall local +1\nexit\ncall local +1\nexit\ncall local +1\nexit\nexit",
        mended: "mov64 r6, r2\ncall local f\njeq r6, 0, +2\nmov64 r1, r6\ncall 2\nmov64 r1, 1\ncall 4\nmov64 r0, 0\nexit\nf:\ncall local +1\nexit\ncall local +1\nexit\ncall local +1\nexit\ncall local +1\nexit\ncall local +1\nexit\ncall local +1\nexit\nexit",
    },
    // S9
    Explanation {
        meaning: "the program has more than 65,536 instructions with all local calls written out, reached or not",
        cause: "a long function is called from many places",
        advice: Some("call long functions less often, or make them shorter"),
        shown: Shown::Program,
        example: "mov64 r6, r2\ncall local f   # 40 times\njeq r6, 0, +2\nmov64 r1, r6\ncall 2\nmov64 r1, 1\ncall 4\nmov64 r0, 0\nexit\nf:\ncall local g   # 40 times\nexit\ng:\nmov64 r0, 0   # 50 times\nexit",
        mended: "mov64 r6, r2\ncall local f   # 20 times\njeq r6, 0, +2\nmov64 r1, r6\ncall 2\nmov64 r1, 1\ncall 4\nmov64 r0, 0\nexit\nf:\ncall local g   # 40 times\nexit\ng:\nmov64 r0, 0   # 50 times\nexit",
    },
];
