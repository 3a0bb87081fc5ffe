#![tactic(auto)]
// Run records, tags and masks: what a case compares of them, and the lines of a table that join, close, test or jump.
pub mod answer; // answer.rt: what a case compares
pub mod keyed; // keyed.rt: a key and an IV
pub mod record; // record.rt: lines that join, close or test records
pub mod jump; // jump.rt: lines that jump a mask
