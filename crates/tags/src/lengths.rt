// Rows 1 and 2 of document 01's table: those of a key and an IV.
ghost use Rattle.std.specs.Prelude.{◌≡◌};
ghost use Rattle.mode.specs.Table.{first_row};
ghost use Rattle.mode.specs.Refusals.{passed};
ghost use Rattle.tags.specs.Work.{key_and_iv_rows};

use mode::Refusal;

// A key has 16 bytes or 32, an IV 16.
pub fn key_and_iv(key: &[u8], iv: &[u8]) -> Result<(), Refusal>
    ensures { result ≡ passed (first_row (key_and_iv_rows key.now iv.now)) }
{
    if cipher::not_key(key) {
        return Err(Refusal::KeyLength);
    }
    if iv.len() != 16 {
        return Err(Refusal::IvLength);
    }
    Ok(())
}
