// What holds of the histories of all engines: each of their records has a text. It relies on `world_laws` for what a run of the world keeps,
// and on `trace` for texts.
#![tactic(auto)]

pub mod laws;
