// What there is to say of the codes of what the verifier follows. A row stands at the place of its number.

use crate::explanation::{Explanation, POLICY, Shown};

/// The codes from V1 on, of what the verifier follows.
pub(crate) const POLICIES: &[Explanation] = &[
    // V1
    Explanation {
        meaning: "a register that is read is unwritten on some path",
        cause: "R1 to R5 are lost by a call; where a function begins R0 and R6 to R9 are unwritten, and R0 is unwritten after a function that returns no result, or returns an address of its own frame",
        advice: Some("give the register a value on each path that comes here"),
        shown: Shown::Head,
        example: "mov64 r6, r2\ncall 11\nmov64 r3, r2\nmov64 r2, r6",
        mended: "mov64 r6, r2\ncall 11\nmov64 r3, r6\nmov64 r2, r6",
    },
    // V2
    Explanation {
        meaning: "a stack byte that is read is unwritten on some path, also by helper 10",
        cause: "fewer bytes were written than are read",
        advice: Some("write all these bytes before, on each path that comes here"),
        shown: Shown::Head,
        example: "stw [r10-8], 0\nldxdw r3, [r10-8]",
        mended: "stdw [r10-8], 0\nldxdw r3, [r10-8]",
    },
    // V3
    Explanation {
        meaning: "a load or a store may lie outside the context and the stack, or goes through what is no address; or an address may leave its region",
        cause: "an index is not bounded before it is added",
        advice: Some("bound the offset by a mask or a comparison, so that all bytes stay inside"),
        shown: Shown::Head,
        example: "ldxw r3, [r1+20]\nadd64 r1, r3\nldxb r3, [r1+32]",
        mended: "ldxw r3, [r1+20]\nand64 r3, 63\nadd64 r1, r3\nldxb r3, [r1+32]",
    },
    // V4
    Explanation {
        meaning: "a store to the context",
        cause: "a field is to be changed, which is only read: `call 4` changes the retries",
        advice: Some(
            "a policy changes a CCB only by its calls: call 4 with r1 = 1 takes a retry, call 5 sets the final code",
        ),
        shown: Shown::Head,
        example: "stw [r1+16], 0",
        mended: "stw [r10-4], 0",
    },
    // V5
    Explanation {
        meaning: "the instruction computes with an address or a freeze, or compares one; allowed are a `mov64`, an address plus or minus a number, and the test of a freeze for the constant 0",
        cause: "an address is aligned by a mask",
        advice: Some(
            "compute with numbers, and compare a freeze with the constant 0 by jeq or jne alone",
        ),
        shown: Shown::Head,
        example: "and64 r1, -8",
        mended: "add64 r1, 8",
    },
    // V6
    Explanation {
        meaning: "no such helper",
        cause: "helper 13, 14 or 15 in a manifest of a lower version",
        advice: Some(
            "call one of the helpers that there are; 13 and 14 want `version = 2`, and 15 wants `version = 3`",
        ),
        shown: Shown::Head,
        example: "mov64 r6, r2\ncall 15\nmov64 r2, r6",
        mended: "mov64 r6, r2\ncall 14\nmov64 r2, r6",
    },
    // V7
    Explanation {
        meaning: "an argument breaks the helper's rule: a freeze may be 0, or the run may not hold it; a number may be out of its range; for helpers 6 to 8 the table is not one known number, or the index may reach its length; for helpers 9 and 10 the bytes may not lie in the stack",
        cause: "a freeze that may be 0 is released, or was given back before; a number is not bounded",
        advice: Some(
            "bound the argument before the call; test a freeze for 0 before it is given back",
        ),
        shown: Shown::Program,
        example: "mov64 r1, r2\ncall 2\nmov64 r1, 1\ncall 4\nmov64 r0, 0\nexit",
        mended: POLICY,
    },
    // V8
    Explanation {
        meaning: "a freeze is held, or may be, at the exit",
        cause: "one path neither releases it nor hands it over",
        advice: Some(
            "on this path test the freeze for 0, and if it is not 0 give it back: at once (call 2), or after a time (call 3)",
        ),
        shown: Shown::Program,
        example: "mov64 r1, 1\ncall 4\nmov64 r0, 0\nexit",
        mended: POLICY,
    },
    // V9
    Explanation {
        meaning: "the CCB is not disposed of at the exit",
        cause: "one path neither requeues it nor finishes it",
        advice: Some(
            "on this path let the CCB wait again (call 4) or finish it (call 5) before the exit",
        ),
        shown: Shown::Program,
        example: "jeq r2, 0, +2\nmov64 r1, r2\ncall 2\nmov64 r0, 0\nexit",
        mended: POLICY,
    },
    // V10
    Explanation {
        meaning: "the CCB is disposed of twice, or advised after it is disposed of",
        cause: "it is requeued, and finished further down",
        advice: Some("call helper 4 or 5 once on each path, and helper 15 before it"),
        shown: Shown::Program,
        example: "mov64 r6, r2\nmov64 r1, 1\ncall 4\nmov64 r1, 5\ncall 5\njeq r6, 0, +2\nmov64 r1, r6\ncall 2\nmov64 r0, 0\nexit",
        mended: "mov64 r6, r2\nmov64 r1, 5\ncall 5\njeq r6, 0, +2\nmov64 r1, r6\ncall 2\nmov64 r0, 0\nexit",
    },
    // V11
    Explanation {
        meaning: "paths that join there disagree on the freezes held or on the CCB's disposal; the exits of a function join after its call",
        cause: "one branch gives the freeze back, and the other does not",
        advice: Some(
            "let both ways do the same with freezes and CCB before they join, or let each go to an exit of its own",
        ),
        shown: Shown::Program,
        example: "ldxw r3, [r1+16]\njeq r3, 0, +3\njeq r2, 0, +2\nmov64 r1, r2\ncall 2\nmov64 r1, 1\ncall 4\nmov64 r0, 0\nexit",
        mended: POLICY,
    },
    // V12
    Explanation {
        meaning: "more than 8 freezes may be held, with that of the start",
        cause: "freezes are taken, and none is given back before the next",
        advice: Some("give a freeze back before the next one is taken: a run holds eight at most"),
        shown: Shown::Head,
        example: "mov64 r6, r2\ncall 13   # 8 times\nmov64 r2, r6",
        mended: "mov64 r6, r2\ncall 13\njeq r0, 0, +2\nmov64 r1, r0\ncall 2\nmov64 r2, r6",
    },
    // V13
    Explanation {
        meaning: "an address or a freeze is stored otherwise than by `stxdw` at one known place of a frame, a multiple of 8 from its start, or in a table; or one that was stored so is read otherwise than by `ldxdw` from there, also by helper 10, or may be",
        cause: "a part of a spill is loaded, or its place is no multiple of 8; V2, V3, V4 and V7 are reported first",
        advice: Some(
            "keep it in R6 to R9, or store it whole to eight stack bytes at a multiple of 8 from R10",
        ),
        shown: Shown::Head,
        example: "stxdw [r10-12], r2\nldxdw r2, [r10-12]",
        mended: "stxdw [r10-8], r2\nldxdw r2, [r10-8]",
    },
    // V14
    Explanation {
        meaning: "R0 at the exit is no number",
        cause: "no number was put there after the last call",
        advice: Some("put a number into r0 before the exit"),
        shown: Shown::Program,
        example: "jeq r2, 0, +2\nmov64 r1, r2\ncall 2\nmov64 r1, 1\ncall 4\nmov64 r0, r10\nexit",
        mended: POLICY,
    },
];
