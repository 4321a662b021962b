// What the program `camr_inspect` can be asked to do. It relies on `explain_codes`, on `show_events` and on `show_question` for what may be
// asked of codes, of traces and of policies, and on `cli_line` for what stands for standard input.

ghost use Rattle.std.specs.Prelude.{◌≡◌, ◌<◌, ◌≤◌, [], Some, None, MatchOption, length, slice_index_or};
ghost use Rattle.cli_inspect_line.specs.Files.{input_paths, kept_path, output_path, seed_of, stdin_reads};

use cli_line::reads_of;
use explain_codes::Code;
use show_events::Filter;
use show_question::Question;

/// In which form something is shown of a trace.
#[derive(Clone, Copy, Debug)]
pub enum Form {
    /// As text for people.
    Words,
    /// As JSON, for programs.
    Json,
}

/// What is made of a trace in a file of its own.
#[derive(Clone, Copy, Debug)]
pub enum Drawing {
    /// A picture, as SVG.
    Svg,
    /// Trace events, which Perfetto draws.
    Perfetto,
}

/// Of what it is asked what a policy decides.
#[derive(Clone, Copy, Debug)]
pub enum Extent {
    /// Of one failure.
    One,
    /// Of each sense key, ASC and ASCQ.
    AllSense,
}

/// What is to be done, with the paths of the files in the order of the line.
#[derive(Debug, Drop)]
pub enum Plan {
    /// Says what a code means.
    ExplainCode(Code),
    /// Says why a manifest is refused, or what is known of its programs.
    Explain(String),
    /// Says why a scenario or a trace is refused over a manifest: the manifest, and the other file.
    ExplainFile(String, String),
    /// Says what happened in a trace: in which form, of which events, the manifest, the trace.
    Show(Form, Filter, String, String),
    /// Counts what happened in a trace: in which form, the manifest, the trace.
    Summarise(Form, String, String),
    /// Draws what happened in a trace: as what, the manifest, the trace, and the file that gets it.
    Draw(Drawing, String, String, String),
    /// Says what a queue's policy does with a failed command: of what that is asked, what is asked, the manifest.
    Decide(Extent, Question, String),
    /// Tries the policies of a manifest on devices: with that seed, or with the file's own; the file that gets the trace, if one does; the
    /// manifest, and the devices.
    Try(Option<u64>, Option<String>, String, String),
}

impl Plan {
    /// How many files are read.
    pub fn input_count(&self) -> usize
        ensures { result ≡ length (input_paths self.now) }
    {
        match self {
            Plan::ExplainCode(_) => 0,
            Plan::Explain(_) | Plan::Decide(..) => 1,
            Plan::ExplainFile(..)
            | Plan::Show(..)
            | Plan::Summarise(..)
            | Plan::Draw(..)
            | Plan::Try(..) => 2,
        }
    }

    /// The path of a file that is read, by its place in the order of the line.
    pub fn input(&self, place: usize) -> &str
        requires { place < length (input_paths self.now) }
        ensures { result.now ≡ slice_index_or (input_paths self.now) place [] }
    {
        match (self, place) {
            (
                Plan::Explain(first)
                | Plan::ExplainFile(first, _)
                | Plan::Show(_, _, first, _)
                | Plan::Summarise(_, first, _)
                | Plan::Draw(_, first, _, _)
                | Plan::Decide(_, _, first)
                | Plan::Try(_, _, first, _),
                0,
            ) => { first.as_str() }
            (
                Plan::ExplainFile(_, second)
                | Plan::Show(_, _, _, second)
                | Plan::Summarise(_, _, second)
                | Plan::Draw(_, _, second, _)
                | Plan::Try(_, _, _, second),
                1,
            ) => { second.as_str() }
            _ => "",
        }
    }

    /// The path of the file that is written, if one is.
    pub fn output(&self) -> Option<&str>
        ensures { MatchOption result (output_path self.now ≡ None) (λ path. output_path self.now ≡ Some path.now) }
    {
        match self {
            Plan::Draw(_, _, _, output) => Some(output.as_str()),
            Plan::ExplainCode(_)
            | Plan::Explain(_)
            | Plan::ExplainFile(..)
            | Plan::Show(..)
            | Plan::Summarise(..)
            | Plan::Decide(..)
            | Plan::Try(..) => None,
        }
    }

    /// The path of the file that gets a trace beside what is printed, if one does.
    pub fn kept(&self) -> Option<&str>
        ensures { MatchOption result (kept_path self.now ≡ None) (λ path. kept_path self.now ≡ Some path.now) }
    {
        match self {
            Plan::Try(_, Some(trace), _, _) => Some(trace.as_str()),
            _ => None,
        }
    }

    /// The seed that is given, if one is.
    pub fn seed(&self) -> Option<u64>
        ensures { result ≡ seed_of self.now }
    {
        match self {
            Plan::Try(seed, _, _, _) => *seed,
            _ => None,
        }
    }

    /// How often it reads standard input: for each file that it stands for.
    pub(crate) fn stdin_reads(&self) -> usize
        ensures { result ≡ stdin_reads self.now }
    {
        match self {
            Plan::ExplainCode(_) => 0,
            Plan::Explain(file) | Plan::Decide(_, _, file) => reads_of(file),
            Plan::ExplainFile(manifest, file) => reads_of(manifest) + reads_of(file),
            Plan::Show(_, _, manifest, trace) => reads_of(manifest) + reads_of(trace),
            Plan::Summarise(_, manifest, trace) => reads_of(manifest) + reads_of(trace),
            Plan::Draw(_, manifest, trace, _) => reads_of(manifest) + reads_of(trace),
            Plan::Try(_, _, manifest, disks) => reads_of(manifest) + reads_of(disks),
        }
    }
}
