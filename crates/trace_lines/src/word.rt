// The words with which lines begin. It relies on nothing.

ghost use Rattle.std.specs.Prelude.{◌≡◌};
ghost use Rattle.trace_lines.specs.Calls.{word_text};

/// What a line is of: a call, or a run that went on.
#[derive(Clone, Copy)]
pub enum Word {
    Submit,
    Dispatch,
    Complete,
    Withdraw,
    Advance,
    FreezeQueue,
    FreezeController,
    ReleaseFreeze,
    Clock,
    Park,
    Resume,
}

impl Word {
    /// The word itself.
    pub fn text(self) -> &'static str
        ensures { result.now ≡ word_text self }
    {
        match self {
            Word::Submit => "submit",
            Word::Dispatch => "dispatch",
            Word::Complete => "complete",
            Word::Withdraw => "withdraw",
            Word::Advance => "advance",
            Word::FreezeQueue => "gfreeze",
            Word::FreezeController => "cfreeze",
            Word::ReleaseFreeze => "grelease",
            Word::Clock => "clock",
            Word::Park => "park",
            Word::Resume => "resume",
        }
    }
}
