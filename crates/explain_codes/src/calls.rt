// What there is to say of the codes by which calls are answered. A row stands at the place of its number.

use crate::explanation::{Explanation, Shown};

/// The codes from C1 on, of calls of the engine.
pub(crate) const CALLS: &[Explanation] = &[
    // C1
    Explanation {
        meaning: "there is no such queue or controller, no such CCB, or no such run that is parked; or the version lacks the call",
        cause: "queues and controllers are numbered from 0, CCBs from 1; or the CCB is finished",
        advice: None,
        shown: Shown::Scenario,
        example: "submit 1 10 3",
        mended: "submit 0 10 3",
    },
    // C2
    Explanation {
        meaning: "a limit is reached: 256 CCBs of a queue and 4096 in all that are not finished, 256 live runs, 255 freezes on a place and 1024 in all, a clock of 2^62, or a number of 4294967295",
        cause: "CCBs are submitted, and none is finished",
        advice: None,
        shown: Shown::Scenario,
        example: "submit 0 10 3   # 257 times",
        mended: "submit 0 10 3   # 256 times",
    },
    // C3
    Explanation {
        meaning: "the CCB is not active; of `withdraw`, it does not wait",
        cause: "it waits and was not dispatched, or is in recovery",
        advice: None,
        shown: Shown::Scenario,
        example: "submit 0 10 3\ncomplete 1 01 00 -",
        mended: "submit 0 10 3\ndispatch 0\ncomplete 1 01 00 -",
    },
    // C4
    Explanation {
        meaning: "no run of that number is out, or its program or machine is not the recorded one; it is not recorded",
        cause: "a host hands a run to an engine that did not start it",
        advice: None,
        shown: Shown::Call,
        example: "other.go_on(run)",
        mended: "engine.go_on(run)",
    },
    // C5
    Explanation {
        meaning: "the clock would go back",
        cause: "readings of two clocks are mixed",
        advice: None,
        shown: Shown::Scenario,
        example: "clock 500\nclock 499",
        mended: "clock 499\nclock 500",
    },
    // C6
    Explanation {
        meaning: "no guest's freeze is the token's; it is not recorded",
        cause: "a host gives a token back to an engine that did not make it",
        advice: None,
        shown: Shown::Call,
        example: "other.guest_release(token)",
        mended: "engine.guest_release(token)",
    },
];

/// The codes from Q1 on, of device queues.
pub(crate) const QUEUES: &[Explanation] = &[
    // Q1
    Explanation {
        meaning: "256 CCBs of the queue are live; of an engine this is C2",
        cause: "a host uses a device queue by itself",
        advice: None,
        shown: Shown::Call,
        example: "queue.insert(257, 10)",
        mended: "queue.leave(); queue.insert(257, 10)",
    },
    // Q2
    Explanation {
        meaning: "the queue is frozen",
        cause: "a recovery holds it, or a timer, or a guest",
        advice: None,
        shown: Shown::Scenario,
        example: "submit 0 10 3\ngfreeze 0 7\ndispatch 0",
        mended: "submit 0 10 3\ngfreeze 0 7\ngrelease 1\ndispatch 0",
    },
    // Q3
    Explanation {
        meaning: "no fewer of the queue's CCBs are active than it has openings",
        cause: "a device has not reported yet",
        advice: None,
        shown: Shown::Scenario,
        example: "submit 0 10 3   # 2 times\ndispatch 0   # 2 times",
        mended: "submit 0 10 3   # 2 times\ndispatch 0\ncomplete 1 01 00 -\ndrain\ndispatch 0",
    },
    // Q4
    Explanation {
        meaning: "no CCB of the queue waits",
        cause: "it was dispatched once too often",
        advice: None,
        shown: Shown::Scenario,
        example: "dispatch 0",
        mended: "submit 0 10 3\ndispatch 0",
    },
    // Q5
    Explanation {
        meaning: "the controller is frozen that the queue is under, from version 2 on",
        cause: "a run or a guest froze it for all its queues",
        advice: None,
        shown: Shown::Scenario,
        example: "submit 0 10 3\ncfreeze 0 7\ndispatch 0",
        mended: "submit 0 10 3\ncfreeze 0 7\ngrelease 1\ndispatch 0",
    },
];

/// The codes from L1 on, of what threads share.
pub(crate) const SHARED: &[Explanation] = &[
    // L1
    Explanation {
        meaning: "64 callers of a shared engine were given out",
        cause: "a host makes a caller for each request",
        advice: None,
        shown: Shown::Call,
        example: "for _ in 0..65 { shared.caller() }",
        mended: "for _ in 0..64 { shared.caller() }",
    },
    // L2
    Explanation {
        meaning: "a caller or a pass that was given out is not handed in",
        cause: "a thread of the host keeps its own",
        advice: None,
        shown: Shown::Call,
        example: "shared.close(callers)",
        mended: "callers.push(mine); shared.close(callers)",
    },
];
