#![tactic(auto)]
// Step 2 of document 01, over the blocks of a slice. Nothing is refused here: each function states what it asks, and the calls above are
// proved to give it.
mod group; // group.rt: a group of blocks, loaded with its masks, taken up, stored with its masks
pub mod run; // run.rt: step 2, over the blocks of a slice
