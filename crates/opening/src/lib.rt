#![tactic(auto)]
// Open a sealed record. Any bytes and lengths may be handed in: the call gives the message or the refusal of the first row of the table that holds.
// The ciphertext is gone over twice: once for the tag and the padding, and once to write. Plaintext is written only after both were found right,
// so nothing has to be taken back: up to then, and after every refusal, the lent output is zero from end to end.
mod rows; // rows.rt: the rows that stand before 6
mod check; // check.rt: the first pass, for the tag and the last block
mod message; // message.rt: the padding, and the second pass, which writes

ghost use Rattle.std.specs.Prelude.{◌≡◌, length};
ghost use Rattle.blocks.specs.Bytes.{Fresh};
ghost use Rattle.mode.specs.Mode.{finish_named};
ghost use Rattle.mode.specs.Aes.{aes};
ghost use Rattle.mode.specs.Table.{first_row};
ghost use Rattle.mode.specs.Calls.{open_sealed, written_of};
ghost use Rattle.opening.specs.Work.{open_first_rows};

use mode::Refusal;
use mode::finish::Finish;

// The tag is compared, all its bytes, before the padding is looked at and before anything is written.
fn open_into(finish: Finish, key: &[u8], sealed: &[u8], out: &mut [u8]) -> Result<usize, Refusal>
    requires sealed_value { first_row (open_first_rows (finish_named finish) key.now sealed.now) ≡ 0 }
    requires fresh { Fresh out.old }
    ensures answer { result ≡ written_of (open_sealed (finish_named finish) aes key.now sealed.now (length out.old)) }
    ensures output { out.new ≡ (open_sealed (finish_named finish) aes key.now sealed.now (length out.old)).output }
{
    let p = tags::prepare::prepare(key, &sealed[..16]);
    let stop = sealed.len() - mode::finish::tag_length(finish);
    let text = &sealed[16..stop];
    let checked = crate::check::check(finish, key, p.start, &p.keys, text, out);
    if !tags::tag::is_tag(checked.tag, &sealed[stop..]) {
        return Err(Refusal::TagDiffers);
    }
    crate::message::release(p.start, &p.keys, text, checked.last, out)
}

// OPEN a sealed record under a key: the message is written to the front of the output, and the answer is its length. As many bytes as the message has are enough; nothing is
// written before tag and padding were found right.
pub fn open(finish: Finish, key: &[u8], sealed: &[u8], out: &mut [u8]) -> Result<usize, Refusal>
    ensures answer { result ≡ written_of (open_sealed (finish_named finish) aes key.now sealed.now (length out.old)) }
    ensures output { out.new ≡ (open_sealed (finish_named finish) aes key.now sealed.now (length out.old)).output }
{
    blocks::block::clear(out);
    crate::rows::open_refusal(finish, key, sealed)?;
    open_into(finish, key, sealed, out)
}
