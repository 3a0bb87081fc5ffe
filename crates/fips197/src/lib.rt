#![tactic(auto)]
// FIPS 197 as definitions (specs/) and laws (proofs/). There is no code here: an engine stands above this crate, and a mode above the
// engine cites this crate alone.
