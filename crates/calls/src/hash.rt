// SHA-1 of a text.
ghost use Rattle.std.specs.Prelude.{◌≡◌, length};
ghost use Rattle.mode.specs.Table.{first_row};
ghost use Rattle.mode.specs.Refusals.{passed};
ghost use Rattle.mode.specs.Calls.{sha1_rows, sha1_text, written_of};

use mode::Refusal;

// The first row of the table that holds.
fn sha1_refusal(text: &[u8], room: usize) -> Result<(), Refusal>
    ensures { result ≡ passed (first_row (sha1_rows text.now room)) }
{
    if fips180::LONGEST_TEXT < text.len() {
        return Err(Refusal::Length);
    }
    if room < 20 {
        return Err(Refusal::OutputTooShort);
    }
    Ok(())
}

// SHA-1 of a text: the digest is written to the front of the output. The answer is the number of its bytes.
pub fn sha1(text: &[u8], out: &mut [u8]) -> Result<usize, Refusal>
    ensures answer { result ≡ written_of (sha1_text text.now (length out.old)) }
    ensures output { out.new ≡ (sha1_text text.now (length out.old)).output }
{
    let room = out.len();
    blocks::block::clear(out);
    sha1_refusal(text, room)?;
    let digest = fips180::digest(text);
    blocks::bytes::put(out, 0, &digest);
    Ok(digest.len())
}
