// The vectors of the mode's paper, and values like them. Each function answers how many values agree.
ghost use Rattle.std.specs.Prelude.{◌≤◌};

use case_records::answer::record;
use case_records::keyed::Keyed;
use case_text::hex::{block, bytes};
use case_text::paper::{iv, key, long_key};
use case_tools::held::{checks, seals, tag_is};
use mode::RunRecord;
use mode::finish::Finish;

// ---- values as printed

// A middle run gives the ciphertext and the record, and checking the ciphertext gives the record.
fn run_gives(keyed: Keyed, text: &[u8], cipher: &[u8], run: RunRecord) -> usize
    ensures { result ≤ 3 }
{
    let mut out = [0u8; 64];
    seals(keyed, text, cipher, run, &mut out) + usize::from(checks(keyed, cipher, run))
}

// The paper's first block, m1, alone: its ciphertext, its record and the tag.
fn one_block(keyed: Keyed, c1: [u8; 16], a1: [u8; 16], tag: [u8; 16]) -> usize
    ensures { result ≤ 5 }
{
    let m1 = block(b"00112233445566778899AABBCCDDEEFF");
    let run = record(0, 1, a1);
    run_gives(keyed, &m1, &c1, run) + tag_is(Finish::Cipher, keyed, run, &tag)
}

// The first vector: m1, t1, A1, c1 and the tag.
pub fn first_vector() -> usize {
    let a1 = block(b"C31FDB743AA199CB78AA156AED162EB9");
    let c1 = block(b"030F28E63B8A9C570D7FEF31940226F4");
    let tag = block(b"CBBD199D075F7220957FD8205A233B9F");
    let keyed = Keyed {
        key: &key(),
        iv: &iv(),
    };
    one_block(keyed, c1, a1, tag)
}

// The first two blocks of the second vector: t2 is the pre-authenticator of block 1 alone, and A2 that of both.
pub fn second_vector() -> usize {
    let m2 = block(b"030F28E63B8A9C570D7FEF31940226F4");
    let t2 = block(b"E005EF3D83A7F60BD8486A7B15CC93DD");
    let c2 = block(b"8C501ED50FBBECE46655493BF9AD5229");
    let keyed = Keyed {
        key: &key(),
        iv: &iv(),
    };
    let alone = run_gives(keyed, &m2, &c2, record(1, 1, t2));
    let a1 = block(b"C31FDB743AA199CB78AA156AED162EB9");
    let a2 = block(b"663A59D5F6E4C59D291C40AECFE0CE28");
    let joined = record(0, 1, a1).join(record(1, 1, t2));
    alone + usize::from(joined == Ok(record(0, 2, a2)))
}

// Both blocks in one run, and the tag over them, which the paper does not print.
pub fn both_blocks() -> usize {
    let text: [u8; 48] = bytes(
        b"00112233445566778899AABBCCDDEEFF030F28E63B8A9C570D7FEF31940226F48C501ED50FBBECE46655493BF9AD5229",
    );
    let a2 = block(b"663A59D5F6E4C59D291C40AECFE0CE28");
    let tag = block(b"9015A1139FA7EAF7F5AB5D96B9B76820");
    let keyed = Keyed {
        key: &key(),
        iv: &iv(),
    };
    let run = record(0, 2, a2);
    run_gives(keyed, &text[..32], &text[16..], run) + tag_is(Finish::Cipher, keyed, run, &tag)
}

// An IV under which step 1 comes to zero: the start mask is the key. The values are those of vectors/make-mode-vectors.
pub fn zero_start_mask() -> usize {
    let iv = block(b"7756E165ED666861921F273EF920B016");
    let a1 = block(b"E5FE92CAC7338436A07B82BFD365D63F");
    let c1 = block(b"76D1607EA5D796446628AEA473C79AB8");
    let tag = block(b"2AA8554F081C1F4320E44EBC68845C2C");
    let keyed = Keyed {
        key: &key(),
        iv: &iv,
    };
    one_block(keyed, c1, a1, tag)
}

// ---- the same under a key of 32 bytes, of which the paper has none: the values are those of vectors/make-mode-vectors

pub fn long_key_vector() -> usize {
    let a1 = block(b"230776063F08F0C65171FF56375C00A4");
    let c1 = block(b"5E07CEEE7C342AC1385E2A32D421DCFB");
    let tag = block(b"586AD09F2D57A3DD4230EFA0AD81677A");
    let keyed = Keyed {
        key: &long_key(),
        iv: &iv(),
    };
    one_block(keyed, c1, a1, tag)
}

// An IV under which step 1 comes to zero: the start mask is the first 16 bytes of the key.
pub fn long_key_zero_start_mask() -> usize {
    let iv = block(b"913CBEE64D3FFBC75F7B8F81A1474A3D");
    let a1 = block(b"72AF08EF7BCD79B178B164076524D07D");
    let c1 = block(b"78E06905857F4254A3E6802853A4F45E");
    let tag = block(b"E3468778942D2EAF2521636956C2B39B");
    let keyed = Keyed {
        key: &long_key(),
        iv: &iv,
    };
    one_block(keyed, c1, a1, tag)
}

// ---- the last block that a list may have: the values are those of vectors/make-mode-vectors

// Block m1 as a run of its own there.
fn at_limit(key: &[u8], t: [u8; 16], c: [u8; 16]) -> usize
    ensures { result ≤ 3 }
{
    let m1 = block(b"00112233445566778899AABBCCDDEEFF");
    let keyed = Keyed { key, iv: &iv() };
    run_gives(keyed, &m1, &c, record(1048575, 1, t))
}

fn last_short() -> usize
    ensures { result ≤ 3 }
{
    let t = block(b"0D598CC5462E167B26892962D0C05039");
    let c = block(b"E2B5406B933FEE7A98CFEBAC4EEC3075");
    at_limit(&key(), t, c)
}

fn last_long() -> usize
    ensures { result ≤ 3 }
{
    let t = block(b"8D924D2C68B12F3D7F5DAF90D37978BC");
    let c = block(b"422DD1F46AA0CF8F7013C1FCF4DD1035");
    at_limit(&long_key(), t, c)
}

// Under keys of 16 and of 32 bytes.
pub fn last_block() -> usize {
    last_short() + last_long()
}
