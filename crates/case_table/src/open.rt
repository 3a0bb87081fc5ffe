// Lines that open a record: one of noise, one that is given in digits, a sealed message, and blocks that a middle run sealed. Their first column,
// the length of a key, was read before.
use crate::keys::Keys;
use crate::sealed::{of_blocks, of_message};
use case_records::answer::outcome;
use case_text::bytes::flip_last;
use case_text::columns::{Columns, KEY, ROOM, SPELT, TEXT};
use case_text::hex::bytes;
use case_text::random;
use case_tools::open::opens;
use mode::Refusal;
use mode::finish::Finish;

// noise KEY RECORD ROOM REFUSAL: bytes that no tag fits, behind the IV
pub fn noise(finish: Finish, key: &[u8], iv: [u8; 16], mut columns: Columns) -> Option<bool> {
    let size = columns.length(ROOM)?;
    let room = columns.length(ROOM)?;
    let outcome = outcome(&mut columns)?;
    columns.end()?;
    let mut sealed = [0u8; ROOM];
    random::noise(&mut sealed);
    blocks::block::store(&mut sealed, 0, iv);
    let out = &mut [0u8; ROOM][..room];
    Some(opens(finish, key, &sealed[..size], out, outcome.map(|_| &b""[..])))
}

// record KEY RECORD FLIPPED ROOM REFUSAL DIGITS: the first RECORD bytes of those that the digits spell, with bits of the last one flipped
pub fn given(finish: Finish, key: &[u8], mut columns: Columns) -> Option<bool> {
    let size = columns.length(ROOM)?;
    let flipped = columns.byte()?;
    let room = columns.length(ROOM)?;
    let outcome = outcome(&mut columns)?;
    let mut spelt: [u8; SPELT] = bytes(columns.digits()?);
    columns.end()?;
    flip_last(&mut spelt, size, flipped);
    let sealed = spelt.get(..size).unwrap_or(&spelt);
    let out = &mut [0u8; ROOM][..room];
    Some(opens(finish, key, sealed, out, outcome.map(|_| &b""[..])))
}

// ---- what was sealed before

// How a record is opened: under which key, with which bits of its last byte flipped, and what that gives. MESSAGE is the length of a message.
#[derive(Clone, Copy, Debug)]
struct Again {
    opener: usize,
    flipped: u8,
    message: usize,
    room: usize,
    outcome: Result<(), Refusal>,
}

impl Again {
    // OPENER FLIPPED MESSAGE ROOM REFUSAL
    fn of(columns: &mut Columns) -> Option<Again> {
        Some(Again {
            opener: columns.length(KEY)?,
            flipped: columns.byte()?,
            message: columns.length(TEXT)?,
            room: columns.length(ROOM)?,
            outcome: outcome(columns)?,
        })
    }

    // Whether opening the record gives the message, or the refusal.
    fn opens(&self, finish: Finish, sealed: &mut [u8], message: &[u8]) -> Option<bool> {
        if let Some(last) = sealed.last_mut() {
            *last ^= self.flipped;
        }
        let keys = Keys::Paper.bytes();
        let key = keys.get(..self.opener)?;
        let mut output = [0u8; ROOM];
        let out = output.get_mut(..self.room)?;
        Some(opens(finish, key, sealed, out, self.outcome.map(|_| message)))
    }
}

// opened SEALER OPENER FLIPPED MESSAGE ROOM REFUSAL: a message sealed under a key, and opened under one
pub fn message(finish: Finish, key: &[u8], mut columns: Columns) -> Option<bool> {
    let again = Again::of(&mut columns)?;
    columns.end()?;
    let mut text = [0u8; TEXT];
    random::noise(&mut text);
    let message = text.get(..again.message)?;
    let mut output = [0u8; ROOM];
    let sealed = of_message(finish, key, message, &mut output)?;
    again.opens(finish, sealed, message)
}

// blocks SEALER OPENER FLIPPED MESSAGE ROOM REFUSAL DIGITS: whole blocks sealed as they are. The message is the first MESSAGE bytes of them.
pub fn blocks(finish: Finish, key: &[u8], mut columns: Columns) -> Option<bool> {
    let again = Again::of(&mut columns)?;
    let digits = columns.digits()?;
    columns.end()?;
    let spelt: [u8; SPELT] = bytes(digits);
    let text = &spelt[..digits.len() / 2];
    let mut output = [0u8; 160];
    let sealed = of_blocks(finish, key, text, &mut output)?;
    again.opens(finish, sealed, spelt.get(..again.message).unwrap_or(&spelt))
}
