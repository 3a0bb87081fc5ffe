// Two words for sixteen bytes (ticket P12). The masks and pre-authenticators are those that document 01 and the mode's paper print, with
// the words as numbers.
use blocks::words::Words;
use case_records::keyed::Keyed;
use case_text::hex::block;
use case_text::{agreed, paper};
use mode::RunRecord;

// The mask R1.
const R1: Words = Words {
    high: 0xFDED29920913A3DA,
    low: 0x8C9ECA2F0FD434AA,
};

// R1 times x.
const R2: Words = Words {
    high: 0xFBDA5324122747B5,
    low: 0x193D945E1FA869D3,
};

// R1 and R2, from bytes to words and back.
pub fn forms() -> usize {
    let r1 = block(b"FDED29920913A3DA8C9ECA2F0FD434AA");
    let r2 = block(b"FBDA5324122747B5193D945E1FA869D3");
    agreed(&[
        Words::from(r1) == R1,
        Words::from(r2) == R2,
        <[u8; 16]>::from(R1) == r1,
        <[u8; 16]>::from(R2) == r2,
    ])
}

// R1 times x, R2 over x, and the jumps between them.
pub fn masks() -> usize {
    agreed(&[
        gf128::times_x(R1) == R2,
        gf128::over_x(R2) == R1,
        gf128::jump_by(R1, 1) == R2,
        gf128::jump_by(R2, -1) == R1,
    ])
}

// 1 jumped.
fn one_jumped(distance: i32, high: u64, low: u64) -> bool {
    gf128::jump_by(Words { high: 0, low: 1 }, distance) == Words { high, low }
}

// 1 jumped to the top bit of the lower word, to the low bit of the upper one, to its top bit, and beyond; and back by 1.
pub fn jumps_of_one() -> usize {
    agreed(&[
        one_jumped(63, 0, 0x8000000000000000),
        one_jumped(64, 1, 0),
        one_jumped(127, 0x8000000000000000, 0),
        one_jumped(128, 0, 0x87),
        one_jumped(-1, 0x8000000000000000, 0x43),
    ])
}

// ---- records

fn record(first: u32, count: u32, high: u64, low: u64) -> RunRecord {
    RunRecord {
        first,
        count,
        preauthenticator: Words { high, low },
    }
}

// The records of the paper's first block, sealed and checked, of its second, checked, and of both.
pub fn records() -> usize {
    let m1 = block(b"00112233445566778899AABBCCDDEEFF");
    let c1 = block(b"030F28E63B8A9C570D7FEF31940226F4");
    let c2 = block(b"8C501ED50FBBECE46655493BF9AD5229");
    let keyed = Keyed {
        key: &paper::key(),
        iv: &paper::iv(),
    };
    let first = record(0, 1, 0xC31FDB743AA199CB, 0x78AA156AED162EB9);
    let second = record(1, 1, 0xE005EF3D83A7F60B, 0xD8486A7B15CC93DD);
    let both = record(0, 2, 0x663A59D5F6E4C59D, 0x291C40AECFE0CE28);
    let sealed = keyed.record_sealed(0, false, &m1, 16, &mut [0u8; 32]);
    let left = keyed.check_run(0, &c1);
    let right = keyed.check_run(1, &c2);
    agreed(&[
        sealed == Some(first),
        left == Ok(first),
        right == Ok(second),
        left.and_then(|left| left.join(right?)) == Ok(both),
    ])
}
