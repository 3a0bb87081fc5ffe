#![tactic(auto)]
// Document 01's worked examples as one table (specs/), shown to be what the formulas give (proofs/). There is no code here.
