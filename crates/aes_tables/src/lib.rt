#![tactic(auto)]
// An engine: AES by FIPS 197 with two tables of 256 bytes, one for each way.
pub mod sbox; // sbox.rt: the S-box
pub mod inv_sbox; // inv_sbox.rt: its inverse
pub mod tables; // tables.rt: the steps that have the S-box in them, by the tables
