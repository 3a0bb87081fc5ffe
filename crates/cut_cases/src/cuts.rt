// Seeded messages: each is sealed whole, sealed in runs and checked in runs, and opened, and all has to come to the same.
ghost use Rattle.std.specs.Prelude.{◌<◌, ◌≤◌};

use crate::cut::Cut;
use case_records::answer::{block_from, tagged, written};
use case_records::keyed::Keyed;
use case_text::agreed;
use case_text::hex::block;
use case_text::random::{Random, noise};
use case_tools::open::opens;
use mode::RunRecord;
use mode::finish::Finish;

// What agreed of a message, by what was tried; and the tag and the last ciphertext block of whole sealing.
#[derive(Clone, Copy, Debug, PartialEq, Eq)]
pub struct Message {
    pub sealed: bool,
    pub checked: bool,
    pub opened: bool,
    pub tag: [u8; 16],
    pub end: [u8; 16],
}

// The bytes of an output that has room for any of these records.
const ROOM: usize = 6144;

// ---- one message

// The message sealed in runs gives the ciphertext and the tag of the whole record.
fn seals(keyed: Keyed, seed: u32, message: &[u8], text: &[u8], tag: [u8; 16]) -> bool {
    let mut out = [0u8; ROOM];
    noise(&mut out);
    let cut = Cut::of(seed, message.len() / 16);
    let joined = cut.work(message, true, |span| span.seal(keyed, message, &mut out));
    out.starts_with(text) && closes(keyed, joined, tag)
}

// The record of all runs closes into the tag.
fn closes(keyed: Keyed, joined: Option<RunRecord>, tag: [u8; 16]) -> bool {
    joined.is_some_and(|run| tagged(keyed.close(Finish::Cipher, run), Ok(&tag)))
}

// The ciphertext checked in runs gives the record that it gives in one run, and that record passes the tag.
fn checks(keyed: Keyed, seed: u32, text: &[u8], tag: [u8; 16]) -> bool {
    let cut = Cut::of(seed, text.len() / 16);
    let joined = cut.work(text, false, |span| span.check(keyed, text));
    let whole = keyed.check_run(0, text);
    joined.is_some_and(|run| whole == Ok(run) && keyed.test(Finish::Cipher, run, &tag).is_ok())
}

// A message, and all else held to its whole record. Where that is not as long as it should be there is none.
fn sealed(keyed: Keyed, seed: u32, message: &[u8]) -> Option<Message>
    requires { seed < 1000000 }
{
    let stop = message.len() / 16 * 16 + 32;
    let size = stop + 16;
    let mut room = [0u8; ROOM];
    let given = keyed.seal(Finish::Cipher, message, &mut room);
    let whole = room.get(..size)?;
    if !written(given, Ok(()), size, &room) {
        return None;
    }
    let text = &whole[16..stop];
    let tag = block_from(whole, stop);
    Some(Message {
        sealed: seals(keyed, seed + 1, message, text, tag),
        checked: checks(keyed, seed + 1000, text, tag),
        opened: opens(
            Finish::Cipher,
            keyed.key,
            whole,
            &mut [0u8; ROOM],
            Ok(message),
        ),
        tag,
        end: block_from(whole, stop - 16),
    })
}

// ---- the messages

// Every tenth message may have some thousands of bytes, the others some hundreds.
fn most(number: u32) -> usize
    ensures { (0 < result) × (result ≤ 6000) }
{
    if number % 10 == 9 { 6000 } else { 400 }
}

// Key, IV and message of a number, from the generator.
fn numbered(number: u32) -> Option<Message>
    requires { number < 400 }
{
    let seed = number * 2 + 1;
    let mut random = Random::seeded(seed);
    random.step();
    let mut bytes = [0u8; 6000];
    let message = &mut bytes[..random.below(most(number))];
    let mut key = [0u8; 16];
    random.fill(&mut key);
    let mut iv = [0u8; 16];
    random.fill(&mut iv);
    random.fill(message);
    let keyed = Keyed { key: &key, iv: &iv };
    sealed(keyed, seed, message)
}

// How many messages agreed, by what was tried; the exclusive or of the tags, and of the last ciphertext blocks, of whole sealing.
#[derive(Clone, Copy)]
pub struct Agreed {
    pub sealed: usize,
    pub checked: usize,
    pub opened: usize,
    pub tags: [u8; 16],
    pub ends: [u8; 16],
}

impl Agreed {
    // With one message more.
    fn with(self, one: Message) -> Agreed {
        Agreed {
            sealed: self.sealed.saturating_add(usize::from(one.sealed)),
            checked: self.checked.saturating_add(usize::from(one.checked)),
            opened: self.opened.saturating_add(usize::from(one.opened)),
            tags: blocks::block::xor(self.tags, one.tag),
            ends: blocks::block::xor(self.ends, one.end),
        }
    }
}

// All messages that were sealed whole.
pub fn run() -> Agreed {
    let mut agreed = Agreed {
        sealed: 0,
        checked: 0,
        opened: 0,
        tags: [0u8; 16],
        ends: [0u8; 16],
    };
    for number in 0..400 {
        if let Some(message) = numbered(number) {
            agreed = agreed.with(message);
        }
    }
    agreed
}

// The sums are those of vectors/make-mode-vectors.
pub fn sums(given: Agreed) -> usize {
    agreed(&[
        given.tags == block(b"6D3921BF9C6A9FFAF0954455D84455EE"),
        given.ends == block(b"135AE7A00D0850F6D3D3E2421A827D73"),
    ])
}
