// The laws over the world's definitions, as lemmas (proofs/), with rows of the definitions that are worked by hand. It has no
// code: `engine_core` states the laws as contracts. It relies on `world`.
#![tactic(auto)]
