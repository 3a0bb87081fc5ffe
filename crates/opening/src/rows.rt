// The rows of opening that stand before 6: they go by the lengths, and by the start mask.
ghost use Rattle.std.specs.Prelude.{◌≡◌};
ghost use Rattle.mode.specs.Mode.{finish_named};
ghost use Rattle.mode.specs.Table.{first_row, not_sealed};
ghost use Rattle.mode.specs.Refusals.{passed};
ghost use Rattle.opening.specs.Work.{open_first_rows};

use mode::Refusal;
use mode::finish::Finish;

// Whether a record has a length that opening does not take: with no block, with too many, or with a part of one.
fn not_sealed(finish: Finish, sealed: &[u8]) -> bool
    ensures { result ≡ not_sealed (finish_named finish) sealed.now }
{
    let beside = mode::finish::overhead(finish);
    if sealed.len() < 16 + beside {
        return true;
    }
    let size = sealed.len() - beside;
    if mode::LONGEST_CIPHERTEXT < size {
        return true;
    }
    size % 16 != 0
}

// The first of them that holds.
pub(crate) fn open_refusal(finish: Finish, key: &[u8], sealed: &[u8]) -> Result<(), Refusal>
    ensures { result ≡ passed (first_row (open_first_rows (finish_named finish) key.now sealed.now)) }
{
    if cipher::not_key(key) {
        return Err(Refusal::KeyLength);
    }
    if not_sealed(finish, sealed) {
        return Err(Refusal::Length);
    }
    if tags::prepare::zero_mask(key, &sealed[..16]) {
        return Err(Refusal::ZeroMask);
    }
    Ok(())
}
