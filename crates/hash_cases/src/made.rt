// A record of the mode's paper and one made by hand, and their tags.
ghost use Rattle.std.specs.Prelude.{◌≤◌};

use case_records::answer::{record, tagged};
use case_records::keyed::Keyed;
use case_text::bytes::flip;
use case_text::hex::{block, bytes};
use case_tools::held;
use mode::finish::Finish;
use mode::{Refusal, RunRecord};

// Closing gives the tag, testing the tag passes, and with a bit flipped it differs.
fn tag_is(keyed: Keyed, run: RunRecord, tag: [u8; 20]) -> usize
    ensures { result ≤ 3 }
{
    let mut changed = tag;
    flip(&mut changed, 19, 1);
    let differs = keyed.test(Finish::Sha1, run, &changed) == Err(Refusal::TagDiffers);
    held::tag_is(Finish::Sha1, keyed, run, &tag) + usize::from(differs)
}

// ---- the paper's first vector

// The record of m1, as a middle run gives it. Where the answer is not as it should be there is none.
fn first_run(keyed: Keyed) -> Option<RunRecord> {
    let m1 = block(b"00112233445566778899AABBCCDDEEFF");
    keyed.record_sealed(0, false, &m1, 16, &mut [0u8; 32])
}

// Either finish makes the tag that is printed, of one record.
pub fn first_vector(keyed: Keyed) -> usize {
    let Some(run) = first_run(keyed) else {
        return 0;
    };
    let hash_tag = bytes(b"ECFA375F615DB07834F50C7B9C3B08A9C9D3F12F");
    let cipher_tag = block(b"CBBD199D075F7220957FD8205A233B9F");
    let closed = keyed.close(Finish::Cipher, run);
    tag_is(keyed, run, hash_tag) + usize::from(tagged(closed, Ok(&cipher_tag)))
}

// ---- tags of vectors/make-mode-vectors

pub fn by_hand(count: u32) -> RunRecord {
    record(0, count, block(b"5BD1E995C6EF3720A54FF53A1F83D9AB"))
}

// Of as many blocks as a list may have, under keys of 16 and of 32 bytes.
pub fn reference_tags(short: Keyed, long: Keyed) -> usize {
    let run = by_hand(1048576);
    let short_tag = bytes(b"ACD74120ECD4228C311761EA3153820F8CD5CA40");
    let long_tag = bytes(b"4161CDB1FBFD8F18EDFF4F3DDCB4071EA927AE30");
    tag_is(short, run, short_tag) + tag_is(long, run, long_tag)
}
