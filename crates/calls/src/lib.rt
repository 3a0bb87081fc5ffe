#![tactic(auto)]
// The calls of document 01 that are handed a text, but for opening, and ticket P4's SHA-1. Any bytes and lengths may be handed in: each call gives
// its answer or the refusal of the first row of the table that holds. After a refusal the lent output is zero from end to end. Opening is
// `opening::open`; close, test and jump are in `tags`; the join of two records is `mode::RunRecord::join`, the join of a lent list
// `record_list::join_list`.
pub mod seal; // seal.rt: seal a message
pub mod run; // run.rt: seal a run, check a run
pub mod hash; // hash.rt: SHA-1 of a text
mod text; // text.rt: a run's text laid out and sealed
