// What the program `camr` can be asked to do. It relies on nothing.

ghost use Rattle.std.specs.Prelude.{◌≡◌, ◌<◌, ◌≤◌, ◌∷◌, [], Some, None, MatchOption, length, slice_index_or, string_bytes};
ghost use Rattle.cli_line.specs.Files.{given_paths, input_paths, is_stream, output_path, stdin_reads, stream_count};
ghost use Rattle.cli_line.specs.Watching.{watch_of};

/// The least number of workers that serve completions, and the greatest.
pub const MIN_WORKERS: u8 = 1;

pub const MAX_WORKERS: u8 = 16;

/// When a run tells its sums on standard error.
#[derive(Clone, Copy, Debug, PartialEq, Eq)]
pub enum Watch {
    Never,
    /// Where standard error is a terminal.
    Terminal,
    /// Always, a line each time.
    Lines,
}

/// The version that a manifest is written anew in: a later one than its own.
#[derive(Clone, Copy, Debug, PartialEq, Eq)]
pub enum LaterVersion {
    /// With controllers.
    Two,
    /// With controllers, classes, advice and first words of tables.
    Three,
}

/// How a live engine is asked, and where what is counted of it goes.
#[derive(Debug, Drop)]
pub struct Manner {
    /// Its clock is the machine's.
    pub is_clocked: bool,
    /// A run goes to its next stop only where a line asks for that.
    pub is_stepped: bool,
    /// Each line that asks for something is answered by a line of its own, after all that it led to.
    pub is_told: bool,
    /// The path of the file in which what is counted stands, if there is one.
    pub metrics: Option<String>,
}

/// What is to be done, with the paths of the files in the order of the line.
#[derive(Debug, Drop)]
pub enum Plan {
    /// Assembles a text: the text's file, and the file that gets the bytes of its program.
    Asm(String, String),
    /// Writes a manifest anew in a later version: that version, the manifest, and the file that gets it.
    Migrate(LaterVersion, String, String),
    /// Prints the text of a program's bytes.
    Dis(String),
    /// Verifies the programs of a manifest.
    Check(String),
    /// Runs a scenario over a manifest's queues: the number of workers, 1 to 16, when sums are told, the manifest, the scenario.
    Run(u8, Watch, String, String),
    /// The same, where calls that are refused are counted at the end, and are a failure.
    Strict(u8, Watch, String, String),
    /// Carries out what standard input asks of a manifest's queues, line by line: how, and the manifest.
    Live(Manner, String),
    /// The same of an engine whose trace is kept in a journal: how, whether the journal is synced before an answer goes out, its folder,
    /// and the manifest, where one is given.
    Journal(Manner, bool, String, Option<String>),
    /// Replays the segments of a journal, whose folder that is.
    Audit(String),
    /// Replays a trace over a manifest's queues: the manifest, the trace.
    Replay(String, String),
}

impl Plan {
    /// How many files are read.
    pub fn input_count(&self) -> usize
        ensures { result ≡ length (input_paths self.now) }
    {
        match self {
            Plan::Asm(..) | Plan::Migrate(..) | Plan::Dis(_) | Plan::Check(_) | Plan::Live(..) => 1,
            Plan::Run(..) | Plan::Strict(..) | Plan::Replay(..) => 2,
            Plan::Journal(_, _, _, manifest) => count_given(manifest),
            Plan::Audit(_) => 0,
        }
    }

    /// The path of a file that is read, by its place in the order of the line.
    pub fn input(&self, place: usize) -> &str
        requires { place < length (input_paths self.now) }
        ensures { result.now ≡ slice_index_or (input_paths self.now) place [] }
    {
        match (self, place) {
            (
                Plan::Asm(first, _)
                | Plan::Migrate(_, first, _)
                | Plan::Dis(first)
                | Plan::Check(first)
                | Plan::Run(_, _, first, _)
                | Plan::Strict(_, _, first, _)
                | Plan::Live(_, first)
                | Plan::Replay(first, _),
                0,
            ) => { first.as_str() }
            (
                Plan::Run(_, _, _, second)
                | Plan::Strict(_, _, _, second)
                | Plan::Replay(_, second),
                1,
            ) => { second.as_str() }
            (Plan::Journal(_, _, _, manifest), 0) => path_given(manifest),
            _ => "",
        }
    }

    /// The path of the file that is written, if one is.
    pub fn output(&self) -> Option<&str>
        ensures { MatchOption result (output_path self.now ≡ None) (λ path. output_path self.now ≡ Some path.now) }
    {
        match self {
            Plan::Asm(_, output) | Plan::Migrate(_, _, output) => Some(output.as_str()),
            Plan::Dis(_)
            | Plan::Check(_)
            | Plan::Run(..)
            | Plan::Strict(..)
            | Plan::Live(..)
            | Plan::Journal(..)
            | Plan::Audit(_)
            | Plan::Replay(..) => None,
        }
    }

    /// When sums are told.
    pub fn watch(&self) -> Watch
        ensures { result ≡ watch_of self.now }
    {
        match self {
            Plan::Run(_, watch, _, _) | Plan::Strict(_, watch, _, _) => *watch,
            Plan::Asm(..)
            | Plan::Migrate(..)
            | Plan::Dis(_)
            | Plan::Check(_)
            | Plan::Live(..)
            | Plan::Journal(..)
            | Plan::Audit(_)
            | Plan::Replay(..) => Watch::Never,
        }
    }

    /// How often it reads standard input: for the lines of a live engine, and for each file that it stands for.
    pub(crate) fn stdin_reads(&self) -> usize
        ensures { result ≡ stdin_reads self.now }
    {
        match self {
            Plan::Run(_, _, manifest, scenario) => reads_of(manifest) + reads_of(scenario),
            Plan::Strict(_, _, manifest, scenario) => reads_of(manifest) + reads_of(scenario),
            Plan::Replay(manifest, trace) => reads_of(manifest) + reads_of(trace),
            Plan::Asm(file, _) => reads_of(file),
            Plan::Migrate(_, file, _) => reads_of(file),
            Plan::Dis(file) => reads_of(file),
            Plan::Check(file) => reads_of(file),
            Plan::Live(_, manifest) => 1 + reads_of(manifest),
            Plan::Journal(_, _, _, manifest) => 1 + reads_of_given(manifest),
            Plan::Audit(_) => 0,
        }
    }
}

/// Whether the path stands for standard input where a file is read, and for standard output where one is written.
pub fn is_stream(path: &str) -> bool
    ensures { result ≡ is_stream path.now }
{
    path == "-"
}

/// How often standard input is read for that file.
pub fn reads_of(path: &String) -> usize
    ensures many { result ≡ stream_count (string_bytes path.now ∷ []) }
    ensures few { result ≤ 1 }
{
    if is_stream(path.as_str()) { 1 } else { 0 }
}

// The same for a file that may be given.
fn reads_of_given(path: &Option<String>) -> usize
    ensures many { result ≡ stream_count (given_paths path.now) }
    ensures few { result ≤ 1 }
{
    match path {
        Some(path) => reads_of(path),
        None => 0,
    }
}

// How many paths are given.
fn count_given(path: &Option<String>) -> usize
    ensures { result ≡ length (given_paths path.now) }
{
    match path {
        Some(_) => 1,
        None => 0,
    }
}

// The path that is given, if one is.
fn path_given(path: &Option<String>) -> &str
    ensures { result.now ≡ slice_index_or (given_paths path.now) 0 [] }
{
    match path {
        Some(path) => path.as_str(),
        None => "",
    }
}
