// The records and the tags of one finish, handed to the other: they are refused for their length, and for their bytes where they are given
// the length.
use crate::made;
use case_records::answer::written;
use case_records::keyed::Keyed;
use case_text::agreed;
use case_tools::open::opens;
use mode::Refusal;
use mode::finish::Finish;

// A message of 11 bytes, sealed with one finish into a record of `long` bytes. The record, cut to `size` bytes or with zeros up to them, is refused
// by another.
fn opening_gets(
    keyed: Keyed,
    sealer: Finish,
    long: usize,
    size: usize,
    opener: Finish,
    refusal: Refusal,
) -> bool {
    let mut sealed = [0u8; 64];
    let given = keyed.seal(sealer, &[9u8; 11], &mut sealed);
    let fits = written(given, Ok(()), long, &sealed);
    let cut = sealed.get(..size).unwrap_or(&sealed);
    fits && opens(opener, keyed.key, cut, &mut [0u8; 64], Err(refusal))
}

pub fn records(keyed: Keyed) -> usize {
    let (cipher, sha1) = (Finish::Cipher, Finish::Sha1);
    agreed(&[
        opening_gets(keyed, cipher, 48, 48, sha1, Refusal::Length),
        opening_gets(keyed, sha1, 52, 52, cipher, Refusal::Length),
        opening_gets(keyed, cipher, 48, 52, sha1, Refusal::TagDiffers),
        opening_gets(keyed, sha1, 52, 48, cipher, Refusal::TagDiffers),
    ])
}

// The tag that one finish makes of the record made by hand, cut to `size` bytes, tested with another.
fn testing_gets(
    keyed: Keyed,
    closer: Finish,
    size: usize,
    tester: Finish,
    refusal: Refusal,
) -> bool {
    let run = made::by_hand(1);
    match keyed.close(closer, run) {
        Ok(tag) => tag
            .get(..size)
            .is_some_and(|cut| keyed.test(tester, run, cut) == Err(refusal)),
        Err(_) => false,
    }
}

pub fn tags(keyed: Keyed) -> usize {
    let (cipher, sha1) = (Finish::Cipher, Finish::Sha1);
    agreed(&[
        testing_gets(keyed, cipher, 16, sha1, Refusal::Length),
        testing_gets(keyed, sha1, 20, cipher, Refusal::Length),
        testing_gets(keyed, cipher, 20, sha1, Refusal::TagDiffers),
        testing_gets(keyed, sha1, 16, cipher, Refusal::TagDiffers),
    ])
}
