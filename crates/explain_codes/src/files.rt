// What there is to say of the codes of manifests, scenarios, journals, traces and devices of a trial. A row stands at the place of its number.

use crate::explanation::{Explanation, POLICY, Shown};

/// The codes from M1 on, of manifests.
pub(crate) const MANIFESTS: &[Explanation] = &[
    // M1
    Explanation {
        meaning: "the text is not TOML",
        cause: "a quote, a bracket or a value is missing",
        advice: Some(
            "write TOML: a key, `=` and a value on a line, tables as [[queue]], [[table]] and [[program]]",
        ),
        shown: Shown::Manifest,
        example: "version = 1\n[[queue]]\nopenings =\nprogram = \"p1\"",
        mended: "version = 1\n[[queue]]\nopenings = 1\nprogram = \"p1\"",
    },
    // M2
    Explanation {
        meaning: "an unknown key, a key that is missing, or both `code` and `asm` in one program",
        cause: "a key is misspelt, or `controller` stands in a manifest of version 1",
        advice: Some("write the keys that the table has, and no others"),
        shown: Shown::Manifest,
        example: "version = 1\n[[queue]]\nopening = 1\nprogram = \"p1\"",
        mended: "version = 1\n[[queue]]\nopenings = 1\nprogram = \"p1\"",
    },
    // M3
    Explanation {
        meaning: "a value of another type, or `code` that is not of the form",
        cause: "a number in quotes, or `[queue]` for `[[queue]]`",
        advice: Some("write a value of the type that the key has"),
        shown: Shown::Manifest,
        example: "version = 1\n[[queue]]\nopenings = \"1\"\nprogram = \"p1\"",
        mended: "version = 1\n[[queue]]\nopenings = 1\nprogram = \"p1\"",
    },
    // M4
    Explanation {
        meaning: "`version` is none of 1, 2 and 3, `openings` not 1 to 255, `length` not 1 to 4096, `controllers` not 1 to 8, `controller` not below it, or `words` has more words than the table, or a negative one",
        cause: "controllers are counted from 1: they are numbered from 0",
        advice: Some("write a number of the range"),
        shown: Shown::Manifest,
        example: "version = 2\ncontrollers = 1\n[[queue]]\nopenings = 1\ncontroller = 1\nprogram = \"p1\"",
        mended: "version = 2\ncontrollers = 1\n[[queue]]\nopenings = 1\ncontroller = 0\nprogram = \"p1\"",
    },
    // M5
    Explanation {
        meaning: "no queue or no program, or more than 64 queues, 16 tables or 64 programs",
        cause: "the queues are still to be written",
        advice: Some("write 1 to 64 queues and programs, and at most 16 tables"),
        shown: Shown::Manifest,
        example: "version = 1\nqueue = []",
        mended: "version = 1\n[[queue]]\nopenings = 1\nprogram = \"p1\"",
    },
    // M6
    Explanation {
        meaning: "a name that is not of the form, is repeated, or is of no program",
        cause: "a queue names a program that was renamed",
        advice: Some("give each program a name of its own, and let each queue name one of them"),
        shown: Shown::Manifest,
        example: "version = 1\n[[queue]]\nopenings = 1\nprogram = \"p2\"",
        mended: "version = 1\n[[queue]]\nopenings = 1\nprogram = \"p1\"",
    },
    // M7
    Explanation {
        meaning: "the program of that name is not decoded, or not assembled: its fault follows, E or A",
        cause: "a line of its text",
        advice: None,
        shown: Shown::Head,
        example: "mov r3, 1",
        mended: "mov64 r3, 1",
    },
    // M8
    Explanation {
        meaning: "the program of that name is not accepted: its fault follows, S or V",
        cause: "a freeze that one path forgets",
        advice: None,
        shown: Shown::Program,
        example: "mov64 r1, 1\ncall 4\nmov64 r0, 0\nexit",
        mended: POLICY,
    },
    // M9
    Explanation {
        meaning: "of `migrate` alone: the version is that one already, or a later one",
        cause: "the manifest was migrated before; from version 2, `migrate --to 3` leads on",
        advice: None,
        shown: Shown::Migration,
        example: "version = 2\ncontrollers = 1\n[[queue]]\nopenings = 1\ncontroller = 0\nprogram = \"p1\"",
        mended: "version = 1\n[[queue]]\nopenings = 1\nprogram = \"p1\"",
    },
];

/// The codes from N1 on, of scenarios.
pub(crate) const SCENARIOS: &[Explanation] = &[
    // N1
    Explanation {
        meaning: "the line is not of the form",
        cause: "two blanks, a tab, a carriage return, or a number with a leading zero",
        advice: None,
        shown: Shown::Scenario,
        example: "dispatch  0",
        mended: "dispatch 0",
    },
    // N2
    Explanation {
        meaning: "the line gives back a freeze that no guest holds",
        cause: "runs take freezes too, so the number is another",
        advice: None,
        shown: Shown::Scenario,
        example: "grelease 1",
        mended: "gfreeze 0 7\ngrelease 1",
    },
    // N3
    Explanation {
        meaning: "of `camr live` alone: the line asks for another engine while a run is live",
        cause: "a run is parked, or stays out",
        advice: None,
        shown: Shown::Command,
        example: "printf 'rotate\\n' | camr live --step --journal DIR",
        mended: "printf 'drive 1\\nrotate\\n' | camr live --step --journal DIR",
    },
    // N4
    Explanation {
        meaning: "of `camr live` alone: the manifest lacks a queue or a controller that a live CCB or a freeze names, or is of version 1 or 2 while a live CCB has a class or an advice",
        cause: "a queue was taken out of the manifest while one of its CCBs waits",
        advice: None,
        shown: Shown::Command,
        example: "camr live --journal DIR fewer.toml",
        mended: "camr live --journal DIR",
    },
];

/// The codes from J1 on, of journals.
pub(crate) const JOURNALS: &[Explanation] = &[
    // J1
    Explanation {
        meaning: "the folder is no journal: it has something else in it, a segment is missing between two, or a segment has no manifest; or it has no segment, and no manifest is given",
        cause: "a new journal needs a manifest, or the path is that of another folder",
        advice: None,
        shown: Shown::Command,
        example: "camr live --journal new",
        mended: "camr live --journal new manifest.toml",
    },
    // J2
    Explanation {
        meaning: "the manifest is not the one in force in the journal's newest segment, byte by byte",
        cause: "the manifest was changed while no engine ran",
        advice: None,
        shown: Shown::Command,
        example: "camr live --journal DIR changed.toml",
        mended: "camr live --journal DIR",
    },
    // J3
    Explanation {
        meaning: "another engine has the journal",
        cause: "the engine that was started before still runs",
        advice: None,
        shown: Shown::Command,
        example: "camr live --journal DIR manifest.toml &\ncamr live --journal DIR",
        mended: "camr live --journal DIR",
    },
];

/// The codes from X1 on, of traces.
pub(crate) const TRACES: &[Explanation] = &[
    // X1
    Explanation {
        meaning: "the text does not begin with `camr-trace 1`, `camr-trace 2` or `camr-trace 3`, alone or with `continued` after a blank, and a line feed",
        cause: "the file is no trace",
        advice: None,
        shown: Shown::Trace,
        example: "end 0 0 0 0",
        mended: "camr-trace 2\nend 0 0 0 0",
    },
    // X2
    Explanation {
        meaning: "the line is the first that is not of the form, or stands after the `end` line; if the `end` line is missing, it is the line after the last",
        cause: "the file was cut off",
        advice: None,
        shown: Shown::Trace,
        example: "camr-trace 2\nclock 500 = 0",
        mended: "camr-trace 2\nclock 500 = 0\nend 1 0 0 0",
    },
    // X3
    Explanation {
        meaning: "all lines are of the form, and the line is the first that does not follow from those before it",
        cause: "the trace is of another manifest, or was changed",
        advice: None,
        shown: Shown::Trace,
        example: "camr-trace 2\nclock 500 = 1\nend 1 0 0 0",
        mended: "camr-trace 2\nclock 500 = 0\nend 1 0 0 0",
    },
    // X4
    Explanation {
        meaning: "the line is the first of the carried lines with which no engine of the manifest begins after the lines before it; if an `openings` line is missing, it is the line that stands in its place",
        cause: "the trace is of another manifest, or was changed",
        advice: None,
        shown: Shown::Trace,
        example: "camr-trace 2 continued\nnumbers 0 0 0\nclock 0\nopenings 0 0\nend 0 0 0 0",
        mended: "camr-trace 2 continued\nnumbers 0 0 0\nclock 0\nopenings 0 1\nend 0 0 0 0",
    },
];

/// The codes from D1 on, of files of devices.
pub(crate) const DEVICES: &[Explanation] = &[
    // D1
    Explanation {
        meaning: "the text is not TOML",
        cause: "a quote, a bracket or a value is missing",
        advice: None,
        shown: Shown::Devices,
        example: "version = 1\nseed =\nrequests = 1\n[[device]]\ndepth = 1\nlatency = 5",
        mended: "version = 1\nseed = 1\nrequests = 1\n[[device]]\ndepth = 1\nlatency = 5",
    },
    // D2
    Explanation {
        meaning: "an unknown key, or a key that is missing",
        cause: "a key is misspelt, or stands in another table than its own",
        advice: None,
        shown: Shown::Devices,
        example: "version = 1\nseed = 1\nrequests = 1\n[[device]]\ndepth = 1\nlatensy = 5",
        mended: "version = 1\nseed = 1\nrequests = 1\n[[device]]\ndepth = 1\nlatency = 5",
    },
    // D3
    Explanation {
        meaning: "a value of another type, or a completion that is not spelled as in a line of a scenario",
        cause: "a number in quotes, or `[device]` for `[[device]]`",
        advice: None,
        shown: Shown::Devices,
        example: "version = 1\nseed = 1\nrequests = 1\n[[device]]\ndepth = \"1\"\nlatency = 5",
        mended: "version = 1\nseed = 1\nrequests = 1\n[[device]]\ndepth = 1\nlatency = 5",
    },
    // D4
    Explanation {
        meaning: "a number that is out of its range, or a failure that no start can meet: its completion is no failure, `first` is more than `last`, or `from` is not less than `until` or than `period`",
        cause: "`depth` is 0: a device has at least one request at a time",
        advice: None,
        shown: Shown::Devices,
        example: "version = 1\nseed = 1\nrequests = 1\n[[device]]\ndepth = 0\nlatency = 5",
        mended: "version = 1\nseed = 1\nrequests = 1\n[[device]]\ndepth = 1\nlatency = 5",
    },
    // D5
    Explanation {
        meaning: "the manifest has no such queue, or an earlier device has the queue",
        cause: "queues are counted from 1: they are numbered from 0",
        advice: None,
        shown: Shown::Devices,
        example: "version = 1\nseed = 1\nrequests = 1\n[[device]]\nqueue = 1\ndepth = 1\nlatency = 5",
        mended: "version = 1\nseed = 1\nrequests = 1\n[[device]]\nqueue = 0\ndepth = 1\nlatency = 5",
    },
];
