// What is wrong with what stands around the programs of a manifest: with its TOML, with its keys and their values, and with how its parts fit
// together. It relies on `manifest_form` for what is lawful, on `explain_layout` for places in the text, and on `explain_codes` for what the
// codes mean.
#![tactic(auto)]

pub mod form;
mod key_faults;
mod keys;
mod near;
pub mod places;
pub mod plan_faults;
pub mod toml_fault;
mod values;
