// What the columns of the table of the helpers may say. It relies on nothing.

/// What a helper asks of one argument.
#[derive(Clone, Copy, Debug, PartialEq, Eq)]
pub enum ArgKind {
    /// The number of a queue, from 0.
    Queue,
    /// The number of a freeze that the run holds.
    HeldFreeze,
    /// A number in this range, both ends included.
    Within { least: u64, most: u64 },
    /// The number of a table, from 0.
    Table,
    /// The number of a word of the table that the first argument names, from 0.
    Index,
    /// Any word.
    Word,
    /// The address of so many bytes that lie in one live frame.
    Room { bytes: u64 },
    /// The address of bytes that lie in one live frame and are written, as many as the second argument says.
    Bytes,
}

/// What a helper asks of R1, R2 and R3. An argument that it does not take is not read.
#[derive(Clone, Copy, Debug, PartialEq, Eq)]
pub struct Asks {
    pub first: Option<ArgKind>,
    pub second: Option<ArgKind>,
    pub third: Option<ArgKind>,
}

/// What a helper needs of the run that calls it.
#[derive(Clone, Copy, Debug, PartialEq, Eq)]
pub enum Needs {
    /// Nothing.
    Nothing,
    /// Room for a further freeze.
    Room,
    /// A CCB that is not disposed of.
    Undisposed,
}

/// What a helper answers in R0.
#[derive(Clone, Copy, Debug, PartialEq, Eq)]
pub enum Gives {
    /// A number in this range, both ends included.
    Number { least: u64, most: u64 },
    /// The number of a new freeze, from 1, or 0 for none.
    NewFreeze,
}

/// What a call makes of its run's machine, beside the answer in R0 and R1 to R5, which are unwritten then.
#[derive(Clone, Copy, Debug, PartialEq, Eq)]
pub enum Change {
    /// Nothing.
    Nothing,
    /// The freeze that is answered is held.
    Holds,
    /// The freeze that R1 names is held no more.
    GivesUp,
    /// The CCB is disposed of.
    Disposes,
    /// So many bytes are written from the address in R1 on.
    Writes { bytes: u64 },
}

/// What the history tells of a call, beside its helper and the answer.
#[derive(Clone, Copy, Debug, PartialEq, Eq)]
pub enum Tells {
    /// No more.
    Name,
    /// The bytes that R1 and R2 name.
    Bytes,
    /// The status code in R1.
    Code,
}
