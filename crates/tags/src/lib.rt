#![tactic(auto)]
// Masks and tags: the start mask, the tag, and the calls that need no text. Any bytes, lengths and run records may be handed to a call; a
// function that is no call states what it asks.
pub mod mask; // mask.rt: step 1, the start mask, and step 3 by the cipher
pub mod tag; // tag.rt: step 3, the tag, by either finish
pub mod lengths; // lengths.rt: a key and an IV of the right lengths
pub mod prepare; // prepare.rt: the key schedule and the start mask
pub mod record; // record.rt: close a record, test a tag
pub mod jump; // jump.rt: jump a mask
