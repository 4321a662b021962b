// In which manner lines are served. It relies on nothing.

/// In which manner lines are served.
#[derive(Clone, Copy, Debug, PartialEq, Eq)]
pub struct Manner {
    /// Runs stay out until they are asked to go on. Otherwise each is driven to its end as soon as it starts.
    pub is_stepped: bool,
    /// Each line is answered: the outlet is told what became of it. Only then `quit` and `help` are requests.
    pub is_told: bool,
    /// The engine's clock goes by the input's. Otherwise that is not read, and only lines move the engine's.
    pub is_clocked: bool,
    /// The trace is kept where a later start finds it: at the end of the input no run is driven, and no last line is printed while a run is
    /// live. Otherwise the runs that are out are driven to their ends then, and the last line is always printed.
    pub is_kept: bool,
}
