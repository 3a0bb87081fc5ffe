#![tactic(auto)]
// AES on a state in bytes, once for every engine: all of it but the S-box, which an engine brings.
pub mod state; // state.rt: the other steps of a round
pub mod schedule; // schedule.rt: the words of the key schedule
pub mod sbox; // sbox.rt: the steps that an engine does
pub mod round_keys; // round_keys.rt: the round keys of a schedule
pub mod cipher; // cipher.rt: a key schedule and an S-box
mod forward; // forward.rt: rounds, and the two halves
mod backward; // backward.rt: the same undone
mod block; // block.rt: one block through the cipher
pub mod key; // key.rt: the key schedule
mod group; // group.rt: a group of blocks through the cipher, with the middletexts
