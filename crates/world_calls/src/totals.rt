// The sums over a history, which end its trace. They rely on no other crate.

/// The sums over a history.
#[derive(Clone, Copy, Debug, PartialEq, Eq)]
pub struct Totals {
    /// How many records there are.
    pub history: u64,
    /// How many freezes the ledger holds, at most 1024.
    pub frozen: u32,
    /// How many CCBs are active, at most 4096.
    pub active: u32,
    /// How many runs are live, at most 256.
    pub runs: u32,
}
