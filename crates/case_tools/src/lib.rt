#![tactic(auto)]
// What the case programs share that calls the library.
pub mod aes; // aes.rt: the cipher, one block at a time
pub mod open; // open.rt: a record opened, and its answer compared
pub mod held; // held.rt: runs and tags held to values that are known
pub mod reference; // reference.rt: records that a second program sealed
