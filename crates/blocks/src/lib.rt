#![tactic(auto)]
// Blocks of 16 bytes: the layer under the cipher and the mode, which knows of neither.
pub mod block; // block.rt: exclusive or, load and store, zeros
pub mod bytes; // bytes.rt: slices of any length, copied and compared
pub mod words; // words.rt: two words for sixteen bytes
