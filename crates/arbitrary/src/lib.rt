#![tactic(auto)]
// The exported functions, and the joins of run records, called with any arguments. Nothing is asked of a caller here, and each function
// ensures what comes back, by equations of its own: a function that asks something of its caller, or ensures less, is an error in this
// crate.
pub mod exported; // exported.rt: the fourteen functions for C and Rust
pub mod records; // records.rt: joins of run records
pub mod bare_cipher; // bare_cipher.rt: the bare cipher
