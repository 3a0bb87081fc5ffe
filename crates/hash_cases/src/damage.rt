// A record of one block with each of its bits flipped in turn: the line of the file with a key of 16 bytes and a message of 10.
use case_text::bytes::with_bit;
use case_text::hex::{block, bytes};
use case_tools::reference::{opens, tests};
use mode::Refusal;
use mode::finish::Finish;

fn key() -> [u8; 16] {
    block(b"41FFF2BA9E187E81863C4B56E4D50FD6")
}

fn sealed() -> [u8; 52] {
    bytes(
        b"C7EDB0F6F2FB76EEBA62CACA2ECB30500211ED16F3975ABA30C35F87CD8F7FF07F73AEED8058D3E5B959C76F3F36AA58C7B65D75",
    )
}

// As it is, the tag passes.
pub fn undamaged() -> usize {
    usize::from(tests(Finish::Sha1, &key(), &sealed(), Ok(())))
}

// ---- a bit flipped

// Opened, with each bit in turn, it is refused.
pub fn opened() -> usize {
    let (whole, key) = (sealed(), key());
    let expected = Err(Refusal::TagDiffers);
    (0..416)
        .filter(|bit| opens(Finish::Sha1, &key, &with_bit(whole, *bit), expected))
        .count()
}

// So is it tested, with each of the tag's bits, which stand behind those of IV and block.
pub fn tested() -> usize {
    let (whole, key) = (sealed(), key());
    let expected = Err(Refusal::TagDiffers);
    (256..416)
        .filter(|bit| tests(Finish::Sha1, &key, &with_bit(whole, *bit), expected))
        .count()
}
