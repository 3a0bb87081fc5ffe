// Jump a mask.
ghost use Rattle.std.specs.Prelude.{◌≡◌, length};
ghost use Rattle.mode.specs.Table.{first_row};
ghost use Rattle.mode.specs.Refusals.{passed};
ghost use Rattle.mode.specs.Calls.{jump_rows, jump_mask, written_of};

use mode::Refusal;

// How far a mask may be jumped, forward and back.
const FURTHEST: i32 = mode::LIMIT as i32;

const FURTHEST_BACK: i32 = -FURTHEST;

// The first row of the table that holds.
fn jump_refusal(mask: &[u8], distance: i32, room: usize) -> Result<(), Refusal>
    ensures { result ≡ passed (first_row (jump_rows mask.now distance room)) }
{
    if mask.len() != 16 {
        return Err(Refusal::Length);
    }
    if (distance < FURTHEST_BACK) | (FURTHEST < distance) {
        return Err(Refusal::BeyondLimit);
    }
    if room < 16 {
        return Err(Refusal::OutputTooShort);
    }
    Ok(())
}

// JUMP a mask by a number of blocks, forward or, where it is negative, back: the mask is written to the front of the output. The answer is the
// number of its bytes.
pub fn jump(mask: &[u8], distance: i32, out: &mut [u8]) -> Result<usize, Refusal>
    ensures answer { result ≡ written_of (jump_mask mask.now distance (length out.old)) }
    ensures output { out.new ≡ (jump_mask mask.now distance (length out.old)).output }
{
    blocks::block::clear(out);
    jump_refusal(mask, distance, out.len())?;
    let m = blocks::words::load(mask, 0);
    let jumped = gf128::jump_by(m, distance);
    blocks::words::store(out, 0, jumped);
    Ok(16)
}
