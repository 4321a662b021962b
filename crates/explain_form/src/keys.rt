// The keys of a manifest's tables, a row each, for those who are told of one that is wrong. `manifest_form` judges them; a case of
// each breach sees that both agree. It relies on nothing.

/// The latest version of a manifest.
pub const LATEST: u8 = 3;

/// What the value of a key is.
#[derive(Clone, Copy, Debug, PartialEq, Eq)]
pub enum Wants {
    /// A whole number, both ends included.
    Number { least: i64, most: i64 },
    /// Whole numbers from 0 on, at most as many as the table's length, in an array.
    Words,
    Text,
    /// Bytes as pairs of digits.
    Code,
    /// Tables, each with a header in two brackets.
    Tables,
}

/// Where a key stands.
#[derive(Clone, Copy, Debug, PartialEq, Eq)]
pub enum Presence {
    Always,
    Sometimes,
    /// From version 2 on, and there always.
    Second,
    /// In version 3, and there sometimes.
    Third,
    /// It, or the other one that is so.
    Either,
}

/// A key of a table.
#[derive(Clone, Copy, Debug, PartialEq, Eq)]
pub struct Key {
    /// The name of the table; none for the manifest itself.
    pub table: &'static str,
    pub name: &'static str,
    pub wants: Wants,
    pub presence: Presence,
    /// What to write if it is missing, or if its value is another.
    pub advice: &'static str,
}

/// All keys.
pub const KEYS: [Key; 13] = [
    Key {
        table: "",
        name: "version",
        wants: Wants::Number { least: 1, most: 3 },
        presence: Presence::Always,
        advice: "write `version = 1`, or `version = 2` if the manifest has controllers, or `version = 3` if CCBs have classes too; `camr migrate` makes a manifest of a later version from one of a lower version",
    },
    Key {
        table: "",
        name: "controllers",
        wants: Wants::Number { least: 1, most: 8 },
        presence: Presence::Second,
        advice: "write `controllers = N`, how many controllers there are, 1 to 8",
    },
    Key {
        table: "",
        name: "queue",
        wants: Wants::Tables,
        presence: Presence::Always,
        advice: "write a [[queue]] table for each queue, with `openings`, `program` and, from version 2 on, `controller`",
    },
    Key {
        table: "",
        name: "table",
        wants: Wants::Tables,
        presence: Presence::Sometimes,
        advice: "write a [[table]] table for each table, with its `length`",
    },
    Key {
        table: "",
        name: "program",
        wants: Wants::Tables,
        presence: Presence::Always,
        advice: "write a [[program]] table for each program, with its `name` and its text as `asm` or its bytes as `code`",
    },
    Key {
        table: "queue",
        name: "openings",
        wants: Wants::Number {
            least: 1,
            most: 255,
        },
        presence: Presence::Always,
        advice: "write `openings = N`, how many CCBs the device takes at a time, 1 to 255",
    },
    Key {
        table: "queue",
        name: "controller",
        wants: Wants::Number { least: 0, most: 7 },
        presence: Presence::Second,
        advice: "write `controller = N`, the number of the queue's controller; controllers are numbered from 0",
    },
    Key {
        table: "queue",
        name: "program",
        wants: Wants::Text,
        presence: Presence::Always,
        advice: "write `program = \"NAME\"`, the name of the queue's program",
    },
    Key {
        table: "table",
        name: "length",
        wants: Wants::Number {
            least: 1,
            most: 4096,
        },
        presence: Presence::Always,
        advice: "write `length = N`, how many words the table has, 1 to 4096",
    },
    Key {
        table: "table",
        name: "words",
        wants: Wants::Words,
        presence: Presence::Third,
        advice: "write `words = [W, ..]`, the first words of the table, at most `length` of them and each 0 or more; all others are 0",
    },
    Key {
        table: "program",
        name: "name",
        wants: Wants::Text,
        presence: Presence::Always,
        advice: "write `name = \"NAME\"`, the program's name",
    },
    Key {
        table: "program",
        name: "asm",
        wants: Wants::Text,
        presence: Presence::Either,
        advice: "write the program's text as `asm`, in quotes or between lines of `\"\"\"`",
    },
    Key {
        table: "program",
        name: "code",
        wants: Wants::Code,
        presence: Presence::Either,
        advice: "write the program's bytes as `code`, in quotes, as pairs of the digits 0 to 9 and a to f",
    },
];

impl Key {
    /// Whether it may stand in a manifest of that version.
    pub fn may_stand(&self, version: u8) -> bool {
        version >= self.since()
    }

    /// The first version in which it may stand.
    pub fn since(&self) -> u8 {
        match self.presence {
            Presence::Always | Presence::Sometimes | Presence::Either => 1,
            Presence::Second => 2,
            Presence::Third => 3,
        }
    }

    /// Whether it has to stand there by itself.
    pub fn must_stand(&self, version: u8) -> bool {
        match self.presence {
            Presence::Always => true,
            Presence::Second => version >= 2,
            Presence::Sometimes | Presence::Third | Presence::Either => false,
        }
    }
}

/// The key of that name in a table of that name, if there is one in that version.
pub fn find(table: &str, name: &str, version: u8) -> Option<&'static Key> {
    KEYS.iter().find(|key| key.table == table && key.name == name && key.may_stand(version))
}

/// Whether a table of a manifest has that name.
pub fn is_table(name: &str) -> bool {
    KEYS.iter().any(|key| key.table == name)
}

/// How a table is called.
pub fn called(table: &str) -> &'static str {
    match table {
        "queue" => "a queue",
        "table" => "a table",
        "program" => "a program",
        _ => "the manifest",
    }
}
