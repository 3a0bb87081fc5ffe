#![tactic(auto)]
// The calls for programs in C and Rust: numbers and byte slices only. A slice is a pointer and a length there. Each function gives 0,
// or the number of the refusal, and then everything lent to it is zero from end to end. A run record is 24 bytes.
pub mod message; // message.rt: seal, open
pub mod run; // run.rt: seal a run, check a run
pub mod join; // join.rt: join two records, join a list
pub mod tag; // tag.rt: close, test
pub mod mask; // mask.rt: jump
pub mod hash; // hash.rt: SHA-1
mod number; // number.rt: the number that a program in C gets
mod record; // record.rt: a run record that is lent
mod room; // room.rt: whether an answer has room
