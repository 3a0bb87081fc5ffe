// The message: where its padding starts, and the second pass over the ciphertext, which writes it.
ghost use Rattle.std.specs.Prelude.{◌≡◌, ◌++◌, ◌+◌, ◌-◌, ◌≤◌, length, take};
ghost use Rattle.blocks.specs.Bytes.{zeros, Fresh};
ghost use Rattle.blocks.specs.Words.{bytes_of};
ghost use Rattle.cipher.specs.Keys.{key_of, Expanded};
ghost use Rattle.mode.specs.Calls.{written_of};
ghost use Rattle.opening.specs.Work.{Ciphertext, front_of, message_end, released};

use blocks::words::Words;
use mode::Refusal;
use runs::run::Task;

// The padding is a byte 80 and zeros after it, at the end of the last block. Where it starts in that block, if there is one.
fn message_end(block: [u8; 16]) -> Option<usize>
    ensures { result ≡ message_end block }
{
    for end in (0..16).rev() {
        let byte = block[end];
        if byte == 0x80 {
            return Some(end);
        }
        if byte != 0 {
            return None;
        }
    }
    None
}

// WRITE a message into an output that holds zeros: the blocks before the last, and of the last one, whose plaintext is at hand, the bytes up to its
// padding, so that the output need not hold all of it.
fn write(
    start: Words,
    keys: &[u8; cipher::KEYS],
    text: &[u8],
    last: [u8; 16],
    end: usize,
    out: &mut [u8],
)
    requires expanded { Expanded keys.now }
    requires ciphertext { Ciphertext text.now }
    requires fresh { Fresh out.old }
    requires end_bound { end ≤ 16 }
    requires end_in_bounds { length text.now - 16 + end ≤ length out.old }
    ensures { out.new ≡ front_of (key_of keys.now) (bytes_of start) text.now ++ take end last ++ zeros (length out.old - (length text.now - 16 + end)) }
{
    let front = text.len() - 16;
    runs::run::run(Task::Open, start, keys, text, front / 16, out);
    blocks::bytes::put(out, front, &last[..end]);
}

// RELEASE the message of a ciphertext whose tag is right, where it is padded and the output has room for it.
pub(crate) fn release(
    start: Words,
    keys: &[u8; cipher::KEYS],
    text: &[u8],
    last: [u8; 16],
    out: &mut [u8],
) -> Result<usize, Refusal>
    requires expanded { Expanded keys.now }
    requires ciphertext { Ciphertext text.now }
    requires fresh { Fresh out.old }
    ensures answer { result ≡ written_of (released (front_of (key_of keys.now) (bytes_of start) text.now ++ last) (length out.old)) }
    ensures output { out.new ≡ (released (front_of (key_of keys.now) (bytes_of start) text.now ++ last) (length out.old)).output }
{
    let Some(end) = message_end(last) else {
        return Err(Refusal::Padding);
    };
    let length = text.len() - 16 + end;
    if out.len() < length {
        return Err(Refusal::OutputTooShort);
    }
    write(start, keys, text, last, end, out);
    Ok(length)
}
