// What the paper prints between blocks, masks and tags: R1; a block plus its mask, a pre-authenticator plus the mask after it, and what each of these
// sums is encrypted to. The sums are of what the calls gave; the encryption is the library's own cipher.
ghost use Rattle.std.specs.Prelude.{◌≤◌};

use crate::chain::Link;
use blocks::block::xor;
use case_records::jump::jumped;
use case_text::hex::block;
use case_text::{agreed, paper};

// Step 1: the IV plus the key, encrypted, plus the key.
pub fn start_mask() -> [u8; 16] {
    let key = paper::key();
    let sum = xor(paper::iv(), key);
    xor(case_tools::aes::encrypt(&key, sum), key)
}

// Two blocks have this sum, and it is encrypted to this, in digits.
pub fn sum_is(a: [u8; 16], b: [u8; 16], sum: &[u8; 32], encrypted: &[u8; 32]) -> usize
    ensures { result ≤ 2 }
{
    let added = xor(a, b);
    let given = case_tools::aes::encrypt(&paper::key(), added);
    agreed(&[added == block(sum), given == block(encrypted)])
}

// ---- blocks 1 and 2

// R1, and m1 plus R1.
fn first(r1: [u8; 16]) -> usize
    ensures { result ≤ 3 }
{
    let m1 = block(b"00112233445566778899AABBCCDDEEFF");
    usize::from(r1 == block(b"FDED29920913A3DA8C9ECA2F0FD434AA"))
        + sum_is(
            m1,
            r1,
            b"FDFC0BA14D46C5AD04076094C309DA55",
            b"FEE2017432993F8D81E1251E9BD6125E",
        )
}

// A1 plus R2 and m2 plus R2.
fn second(a1: [u8; 16], m2: [u8; 16], r2: [u8; 16]) -> usize
    ensures { result ≤ 4 }
{
    sum_is(
        a1,
        r2,
        b"38C588502886DE7E61978134F2BE476A",
        b"08A2C2E93DFEEBEBEDD5CD4AB7351526",
    ) + sum_is(
        m2,
        r2,
        b"F8D57BC229ADDBE214427B6F8BAA4F27",
        b"778A4DF11D9CAB517F68DD65E6053BFA",
    )
}

// Of c1, which is m2, and the record that holds A1, as the calls give them.
pub fn printed(link: Link) -> usize {
    let r1 = start_mask();
    let a1 = <[u8; 16]>::from(link.run.preauthenticator);
    first(r1) + second(a1, link.block, jumped(r1, 1))
}
