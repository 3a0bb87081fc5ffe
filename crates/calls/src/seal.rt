// Seal a message.
ghost use Rattle.std.specs.Prelude.{◌≡◌, ◌++◌, ◌+◌, ◌*◌, ◌-◌, ◌/◌, ◌≤◌, length};
ghost use Rattle.blocks.specs.Bytes.{zeros, Fresh};
ghost use Rattle.mode.specs.Mode.{sealed_record, finish_named};
ghost use Rattle.fips197.specs.Aes.{KeyLength};
ghost use Rattle.mode.specs.Aes.{aes};
ghost use Rattle.mode.specs.Table.{first_row};
ghost use Rattle.mode.specs.Refusals.{passed};
ghost use Rattle.mode.specs.Calls.{seal_rows, seal as seal_of, written_of};
ghost use Rattle.calls.specs.Work.{sealed_length};

use mode::Refusal;
use mode::finish::Finish;

// The first row of the table that holds.
fn seal_refusal(
    finish: Finish,
    key: &[u8],
    iv: &[u8],
    message: &[u8],
    room: usize,
) -> Result<(), Refusal>
    ensures { result ≡ passed (first_row (seal_rows (finish_named finish) aes key.now iv.now message.now room)) }
{
    tags::lengths::key_and_iv(key, iv)?;
    if mode::LONGEST_MESSAGE < message.len() {
        return Err(Refusal::Length);
    }
    let needed = message.len() / 16 * 16 + 16 + mode::finish::overhead(finish);
    let zero = tags::prepare::zero_mask(key, iv);
    if zero {
        return Err(Refusal::ZeroMask);
    }
    if room < needed {
        return Err(Refusal::OutputTooShort);
    }
    Ok(())
}

// The IV, the ciphertext and the tag; how many bytes they are.
fn seal_into(finish: Finish, key: &[u8], iv: &[u8], message: &[u8], out: &mut [u8]) -> usize
    requires key_length { KeyLength key.now }
    requires iv_len { length iv.now ≡ 16 }
    requires fresh { Fresh out.old }
    requires message_in_bounds { sealed_length (finish_named finish) (length message.now) ≤ length out.old }
    ensures answer { result ≡ sealed_length (finish_named finish) (length message.now) }
    ensures output { out.new ≡ sealed_record (finish_named finish) aes key.now iv.now message.now ++ zeros (length out.old - sealed_length (finish_named finish) (length message.now)) }
{
    let p = tags::prepare::prepare(key, iv);
    let v = blocks::block::load(iv, 0);
    blocks::block::store(out, 0, v);
    let chain = crate::text::seal_text(message, true, p.start, &p.keys, &mut out[16..]);
    let tag = tags::tag::tag(finish, key, chain.preauthenticator, chain.mask, &p.keys);
    let at = crate::text::laid_out_length(message, true) + 16;
    tags::tag::put(finish, tag, out, at);
    at + mode::finish::tag_length(finish)
}

// SEAL a message under a key and an IV: the sealed record is written to the front of the output. The answer is the number of its bytes.
pub fn seal(
    finish: Finish,
    key: &[u8],
    iv: &[u8],
    message: &[u8],
    out: &mut [u8],
) -> Result<usize, Refusal>
    ensures answer { result ≡ written_of (seal_of (finish_named finish) aes key.now iv.now message.now (length out.old)) }
    ensures output { out.new ≡ (seal_of (finish_named finish) aes key.now iv.now message.now (length out.old)).output }
{
    let room = out.len();
    blocks::block::clear(out);
    seal_refusal(finish, key, iv, message, room)?;
    Ok(seal_into(finish, key, iv, message, out))
}
