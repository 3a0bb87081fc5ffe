#![tactic(auto)]
// The functions of `balzenoh` under their names in C, each with the clauses that it has there.
pub mod message; // message.rt: seal, open
pub mod run; // run.rt: seal a run, check a run
pub mod join; // join.rt: join two records, join a list
pub mod tag; // tag.rt: close, test
pub mod mask; // mask.rt: jump
pub mod hash; // hash.rt: SHA-1
