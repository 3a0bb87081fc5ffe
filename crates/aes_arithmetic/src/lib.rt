#![tactic(auto)]
// An engine: AES by FIPS 197 with the S-box worked out at each byte. No table is indexed by data: every index is that of a loop, a round
// or a word. The arithmetic is done in the 16 bytes of a block side by side.
mod field; // field.rt: products, and the inverse
mod affine; // affine.rt: the affine step and its inverse
pub mod sbox; // sbox.rt: the S-box at each byte of a state or a word
